//! Queries, and the commands that contain one.
ghost use Rattle.mm_lang.specs.Grammar.{explain, query, select, watch};
ghost use Rattle.mm_lang.specs.Reading.{literals_of, query_literals};
ghost use Rattle.mm_lang.specs.steps.Parsing.{ReadsPhrase};

use crate::read::atoms::{ColumnName, read_tests};
use crate::read::keyword::Keyword;
use crate::read::phrase::{Phrase, Separator, read_clause, read_items};
use crate::read::reader::Reader;
use crate::read::token::Symbol;
use mm_query::{Command, Definition, FieldName, FromItem, NamedQuery, Query};
use mm_schema::NameRef;
use mm_value::Refusal;

/// A column by its table's alias and its name, with a dot between them.
impl<'l> ColumnName<'l> for FieldName<NameRef<'l>> {
    ghost use Rattle.mm_lang.specs.Grammar.{field};
    ghost use Rattle.mm_lang.specs.steps.Shrinking.{field_never_longer};

    ghost column = { field };

    ghost never_longer = { field_never_longer };

    /// Reads an alias, a dot and a name. Fails with `Syntax` if one of the three is missing.
    fn read(reader: &mut Reader<'l>) -> Result<FieldName<NameRef<'l>>, Refusal> {
        let alias = reader.name_ref()?;
        reader.symbol(Symbol::Dot)?;
        let column = reader.name_ref()?;
        Ok(FieldName { alias, column })
    }
}

/// The phrase of a field of the result. Its item is the field.
#[derive(Drop)]
struct FieldPhrase;

impl<'l> Phrase<'l> for FieldPhrase {
    ghost use Rattle.mm_lang.specs.Grammar.{field};
    ghost use Rattle.mm_lang.specs.steps.Parsing.{no_literals};
    ghost use Rattle.mm_lang.specs.steps.Shrinking.{field_never_longer};

    type Item = FieldName<NameRef<'l>>;

    ghost reading = { field };

    ghost literals = { no_literals };

    ghost never_longer = { field_never_longer };

    /// Reads a field. Fails with `Syntax` if the rest does not begin with one.
    fn read(&mut self, reader: &mut Reader<'l>) -> Result<FieldName<NameRef<'l>>, Refusal> {
        FieldName::read(reader)
    }
}

/// The phrase of a table of FROM: its name, followed by its alias. Its item has both.
#[derive(Drop)]
struct FromPhrase;

impl<'l> Phrase<'l> for FromPhrase {
    ghost use Rattle.mm_lang.specs.Grammar.{from_item};
    ghost use Rattle.mm_lang.specs.steps.Parsing.{no_literals};
    ghost use Rattle.mm_lang.specs.steps.Shrinking.{from_never_longer};

    type Item = FromItem;

    ghost reading = { from_item };

    ghost literals = { no_literals };

    ghost never_longer = { from_never_longer };

    /// Reads two names. Fails with `Syntax` if one of them is missing.
    fn read(&mut self, reader: &mut Reader<'l>) -> Result<FromItem, Refusal> {
        let table = reader.name()?;
        let alias = reader.name()?;
        Ok(FromItem { table, alias })
    }
}

/// The phrase of a position of ORDER: digits. Its item is their value.
#[derive(Drop)]
struct PositionPhrase;

impl<'l> Phrase<'l> for PositionPhrase {
    ghost use Rattle.mm_lang.specs.Grammar.{position};
    ghost use Rattle.mm_lang.specs.Reading.{position_literals};
    ghost use Rattle.mm_lang.specs.steps.Shrinking.{position_never_longer};

    type Item = usize;

    ghost reading = { position };

    ghost literals = { position_literals };

    ghost never_longer = { position_never_longer };

    /// Reads digits. Fails with `Syntax` if the rest does not begin with them. Records a number past its limit in the reader, and
    /// continues.
    fn read(&mut self, reader: &mut Reader<'l>) -> Result<usize, Refusal> {
        reader.position()
    }
}

/// Reads the query after `SELECT`. Fails as [`read_query`] does.
pub(crate) fn read_select<'l>(reader: &mut Reader<'l>) -> Result<Command<'l>, Refusal>
    ensures { ReadsPhrase select literals_of reader.old reader.new result }
{
    let query = read_query(reader)?;
    Ok(Command::Select(query))
}

/// Reads `SELECT` and a query after `EXPLAIN`. Fails with `Syntax` if the keyword is missing, and otherwise as [`read_query`] does.
pub(crate) fn read_explain<'l>(reader: &mut Reader<'l>) -> Result<Command<'l>, Refusal>
    ensures { ReadsPhrase explain literals_of reader.old reader.new result }
{
    reader.expect_keyword(Keyword::Select)?;
    let query = read_query(reader)?;
    Ok(Command::Explain(query))
}

/// Reads a name, `SELECT` and a query after `WATCH`. Fails with `Syntax` if the name or the keyword is missing, and otherwise as
/// [`read_query`] does.
pub(crate) fn read_watch<'l>(reader: &mut Reader<'l>) -> Result<Command<'l>, Refusal>
    ensures { ReadsPhrase watch literals_of reader.old reader.new result }
{
    let name = reader.name()?;
    reader.expect_keyword(Keyword::Select)?;
    let query = read_query(reader)?;
    let watched = NamedQuery { name, query };
    Ok(Command::Define(Definition::Watch(watched)))
}

/// Reads a query: `DISTINCT` if present, fields, `FROM` and tables, and then the tests of a WHERE and the positions of an ORDER if present.
/// Fails with `Syntax` if another part is missing, and with `Memory` if an allocation fails. Records a literal or a position past its limit
/// in the reader, and continues.
fn read_query<'l>(reader: &mut Reader<'l>) -> Result<Query<'l>, Refusal>
    ensures { ReadsPhrase query query_literals reader.old reader.new result }
{
    let distinct = reader.skip_keyword(Keyword::Distinct);
    let fields = read_items(&mut FieldPhrase, Separator::Comma, reader)?;
    reader.expect_keyword(Keyword::From)?;
    let from = read_items(&mut FromPhrase, Separator::Comma, reader)?;
    let atoms = read_tests(reader)?;
    let order = read_clause(
        Keyword::Order,
        &mut PositionPhrase,
        Separator::Comma,
        reader,
    )?;
    Ok(Query {
        distinct,
        fields,
        from,
        atoms,
        order,
    })
}
