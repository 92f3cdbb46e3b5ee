//! The text of queries.
ghost use Rattle.std.specs.Prelude.{◌≡◌, ℕ, ◌+◌, ◌∷◌, ◌++◌, List, [], codes, decimal, false, map};
ghost use Rattle.std.specs.Fmt.{signed_decimal};
ghost use Rattle.std.specs.Option.{option_copied};
ghost use Rattle.mm_value.specs.Device.{Writes};
ghost use Rattle.mm_value.specs.Watched.{has_failed};
ghost use Rattle.mm_query.specs.Placing.{mapped_atom, mapped_operand};
ghost use Rattle.mm_lang.specs.QueryText.{column_at, distinct_text, field_text, from_text, named_field, named_query, operand_text, order_text, query_text};
ghost use Rattle.mm_lang.specs.QueryText.{separated, shift_text, space_after, space_after_tests, test_text, tests_text, where_text};
ghost use Rattle.mm_lang.specs.Spelling.{comparison_symbol};
ghost use Rattle.mm_lang.specs.Words.{symbol_text};

use crate::write::reply_text::write_after_space;
use crate::write::row_line::write_literal;
use itoa::Buffer;
use mm_query::{Atom, BoundQuery, Comparison, FieldPlace, FromItem, Operand};
use mm_schema::{Catalog, Column};
use mm_value::{Value, Watched, WriteError, put_all};
use std::io::Write;

/// Writes a bound query without its SELECT, with the names of its fields from the catalog, in as few bytes as a line can spell it.
/// Allocates nothing. After `WriteError` the writer has failed, and a prefix of the text was written.
pub fn write_query<W: Write>(
    catalog: &Catalog,
    query: &BoundQuery,
    writer: &mut Watched<W>,
) -> Result<(), WriteError>
    requires { has_failed writer.old ≡ false }
    ensures { Writes W.contents writer.old writer.new result (query_text (named_query catalog.now query.now)) }
{
    let from = query.from.as_slice();
    let tests = query.atoms.as_slice();
    let names = FieldNames { catalog, from };
    put_all(writer, distinct_bytes(query.distinct))?;
    write_items(&names, query.fields.as_slice(), writer)?;
    put_all(writer, b" FROM ")?;
    write_items(&Tables, from, writer)?;
    names.write_tests(tests, writer)?;
    write_order(tests, query.order.as_slice(), writer)
}

/// A way to write the items of a list.
trait ItemText {
    /// The type of an item.
    type Item;

    ghost text: { Self → Self.Item → List ℕ };

    /// Writes an item.
    fn write_item<W: Write>(
        &self,
        item: &Self::Item,
        writer: &mut Watched<W>,
    ) -> Result<(), WriteError>
        requires { has_failed writer.old ≡ false }
        ensures { Writes W.contents writer.old writer.new result (text self.now item.now) };
}

/// Writes items, separated by commas.
fn write_items<I: ItemText, W: Write>(
    how: &I,
    items: &[I::Item],
    writer: &mut Watched<W>,
) -> Result<(), WriteError>
    requires { has_failed writer.old ≡ false }
    ensures { Writes W.contents writer.old writer.new result (separated (codes ",") (I.text how.now) items.now) }
{
    let Some((first, others)) = items.split_first() else {
        return Ok(());
    };
    how.write_item(first, writer)?;
    for item in others {
        write_next_item(how, item, writer)?;
    }
    Ok(())
}

/// Writes a comma and an item.
fn write_next_item<I: ItemText, W: Write>(
    how: &I,
    item: &I::Item,
    writer: &mut Watched<W>,
) -> Result<(), WriteError>
    requires { has_failed writer.old ≡ false }
    ensures { Writes W.contents writer.old writer.new result (44 ∷ I.text how.now item.now) }
{
    put_all(writer, b",")?;
    how.write_item(item, writer)
}

/// Writes fields by the names of their tables and columns.
#[derive(Clone, Copy)]
struct FieldNames<'q> {
    catalog: &'q Catalog,
    /// The tables of the query.
    from: &'q [FromItem],
}

impl<'q> ItemText for FieldNames<'q> {
    type Item = FieldPlace;

    ghost text = { λ names field. field_text (named_field names.catalog.now names.from.now field) };

    fn write_item<W: Write>(
        &self,
        item: &FieldPlace,
        writer: &mut Watched<W>,
    ) -> Result<(), WriteError> {
        self.write_field(item, writer)
    }
}

impl<'q> FieldNames<'q> {
    /// Writes a field.
    fn write_field<W: Write>(
        &self,
        field: &FieldPlace,
        writer: &mut Watched<W>,
    ) -> Result<(), WriteError>
        requires { has_failed writer.old ≡ false }
        ensures { Writes W.contents writer.old writer.new result (field_text (named_field self.now.catalog.now self.now.from.now field.now)) }
    {
        put_all(writer, self.alias_of(field))?;
        put_all(writer, b".")?;
        put_all(writer, self.name_of(field))
    }

    /// Returns the alias of a field's table.
    fn alias_of(&self, field: &FieldPlace) -> &[u8]
        ensures { result.now ≡ (named_field self.now.catalog.now self.now.from.now field.now).alias }
    {
        match self.from.get(field.place) {
            Some(item) => item.alias.bytes(),
            None => b"",
        }
    }

    /// Returns the name of a field's column.
    fn name_of(&self, field: &FieldPlace) -> &[u8]
        ensures { result.now ≡ (named_field self.now.catalog.now self.now.from.now field.now).column }
    {
        match self.column_at(field) {
            Some(column) => column.name.bytes(),
            None => b"",
        }
    }

    /// Returns the column of a field, or `None` if its table or the column does not exist.
    fn column_at(&self, field: &FieldPlace) -> Option<&Column>
        ensures { option_copied result ≡ column_at self.now.catalog.now self.now.from.now field.now }
    {
        let item = self.from.get(field.place)?;
        let table = self.catalog.find_table(&item.table)?;
        table.definition.columns.as_slice().get(field.column)
    }

    /// Writes tests after a space, if there are any.
    fn write_tests<W: Write>(
        &self,
        tests: &[Atom<FieldPlace>],
        writer: &mut Watched<W>,
    ) -> Result<(), WriteError>
        requires { has_failed writer.old ≡ false }
        ensures { Writes W.contents writer.old writer.new result
            (where_text (map (mapped_atom (named_field self.now.catalog.now self.now.from.now)) tests.now)) }
    {
        if tests.is_empty() {
            return Ok(());
        }
        put_all(writer, b" WHERE ")?;
        self.write_test_list(tests, writer)
    }

    /// Writes tests, separated by AND.
    fn write_test_list<W: Write>(
        &self,
        tests: &[Atom<FieldPlace>],
        writer: &mut Watched<W>,
    ) -> Result<(), WriteError>
        requires { has_failed writer.old ≡ false }
        ensures { Writes W.contents writer.old writer.new result
            (tests_text (map (mapped_atom (named_field self.now.catalog.now self.now.from.now)) tests.now)) }
    {
        let Some(first) = tests.first() else {
            return Ok(());
        };
        self.write_test(first, writer)?;
        for i in 1..tests.len() {
            self.write_next_test(&tests[i - 1].right, &tests[i], writer)?;
        }
        Ok(())
    }

    /// Writes AND and a test, after a test that ends with `operand`.
    fn write_next_test<W: Write>(
        &self,
        operand: &Operand<FieldPlace>,
        test: &Atom<FieldPlace>,
        writer: &mut Watched<W>,
    ) -> Result<(), WriteError>
        requires { has_failed writer.old ≡ false }
        ensures { Writes W.contents writer.old writer.new result (space_after operand.now
            ++ (codes "AND " ++ test_text (mapped_atom (named_field self.now.catalog.now self.now.from.now) test.now))) }
    {
        put_all(writer, space_after(operand))?;
        put_all(writer, b"AND ")?;
        self.write_test(test, writer)
    }

    /// Writes a test.
    fn write_test<W: Write>(
        &self,
        test: &Atom<FieldPlace>,
        writer: &mut Watched<W>,
    ) -> Result<(), WriteError>
        requires { has_failed writer.old ≡ false }
        ensures { Writes W.contents writer.old writer.new result
            (test_text (mapped_atom (named_field self.now.catalog.now self.now.from.now) test.now)) }
    {
        self.write_field(&test.left, writer)?;
        put_all(writer, comparison_bytes(test.comparison))?;
        self.write_operand(&test.right, writer)
    }

    /// Writes the right side of a test.
    fn write_operand<W: Write>(
        &self,
        operand: &Operand<FieldPlace>,
        writer: &mut Watched<W>,
    ) -> Result<(), WriteError>
        requires { has_failed writer.old ≡ false }
        ensures { Writes W.contents writer.old writer.new result
            (operand_text (mapped_operand (named_field self.now.catalog.now self.now.from.now) operand.now)) }
    {
        match operand {
            Operand::Literal(value) => write_literal(value, writer),
            Operand::Column(field) => self.write_field(field, writer),
            Operand::Shifted(field, by) => self.write_shifted(field, *by, writer),
        }
    }

    /// Writes a field and the number added to it.
    fn write_shifted<W: Write>(
        &self,
        field: &FieldPlace,
        by: i64,
        writer: &mut Watched<W>,
    ) -> Result<(), WriteError>
        requires { has_failed writer.old ≡ false }
        ensures { Writes W.contents writer.old writer.new result
            (field_text (named_field self.now.catalog.now self.now.from.now field.now) ++ shift_text by) }
    {
        self.write_field(field, writer)?;
        write_shift(by, writer)
    }
}

/// Writes the tables of FROM.
#[derive(Clone, Copy)]
struct Tables;

impl ItemText for Tables {
    type Item = FromItem;

    ghost text = { λ tables item. from_text item };

    fn write_item<W: Write>(
        &self,
        item: &FromItem,
        writer: &mut Watched<W>,
    ) -> Result<(), WriteError> {
        put_all(writer, item.table.bytes())?;
        write_after_space(item.alias.bytes(), writer)
    }
}

/// Writes the positions of ORDER, given columns counted from 0.
#[derive(Clone, Copy)]
struct Positions;

impl ItemText for Positions {
    type Item = usize;

    ghost text = { λ positions column. decimal (column + 1) };

    fn write_item<W: Write>(
        &self,
        item: &usize,
        writer: &mut Watched<W>,
    ) -> Result<(), WriteError> {
        let mut buffer = Buffer::new();
        let position = *item as u128 + 1;
        put_all(writer, buffer.format(position).as_bytes())
    }
}

/// Writes the positions of ORDER after tests, if there are any.
fn write_order<W: Write>(
    tests: &[Atom<FieldPlace>],
    columns: &[usize],
    writer: &mut Watched<W>,
) -> Result<(), WriteError>
    requires { has_failed writer.old ≡ false }
    ensures { Writes W.contents writer.old writer.new result (order_text tests.now (map (λ column. column + 1) columns.now)) }
{
    if columns.is_empty() {
        return Ok(());
    }
    put_all(writer, space_after_tests(tests))?;
    put_all(writer, b"ORDER ")?;
    write_items(&Positions, columns, writer)
}

/// Writes the number added to a field, with its sign.
fn write_shift<W: Write>(by: i64, writer: &mut Watched<W>) -> Result<(), WriteError>
    requires { has_failed writer.old ≡ false }
    ensures { Writes W.contents writer.old writer.new result (shift_text by) }
{
    put_all(writer, plus_of(by))?;
    let mut buffer = Buffer::new();
    put_all(writer, buffer.format(by).as_bytes())
}

/// Returns a plus for a number that is not negative. The digits of a negative number have a minus.
#[tactic(auto, using(crate::proofs::QueryTexts::with_minus, crate::proofs::QueryTexts::with_sign))]
fn plus_of(by: i64) -> &'static [u8]
    ensures { shift_text by ≡ result.now ++ signed_decimal by }
{
    if by < 0 { b"" } else { b"+" }
}

/// Returns the separator between an operand and a word after it.
fn space_after(operand: &Operand<FieldPlace>) -> &'static [u8]
    ensures { result.now ≡ space_after operand.now }
{
    match operand {
        Operand::Literal(Value::Text(_)) => b"",
        Operand::Literal(Value::Int(_)) | Operand::Column(_) | Operand::Shifted(_, _) => b" ",
    }
}

/// Returns the separator between tests, or tables without tests, and a word after them.
fn space_after_tests(tests: &[Atom<FieldPlace>]) -> &'static [u8]
    ensures { result.now ≡ space_after_tests tests.now }
{
    match tests.last() {
        Some(test) => space_after(&test.right),
        None => b" ",
    }
}

fn distinct_bytes(distinct: bool) -> &'static [u8]
    ensures { result.now ≡ distinct_text distinct }
{
    if distinct { b"DISTINCT " } else { b"" }
}

fn comparison_bytes(comparison: Comparison) -> &'static [u8]
    ensures { result.now ≡ symbol_text (comparison_symbol comparison) }
{
    match comparison {
        Comparison::Equal => b"=",
        Comparison::Less => b"<",
        Comparison::LessOrEqual => b"<=",
        Comparison::Greater => b">",
        Comparison::GreaterOrEqual => b">=",
    }
}
