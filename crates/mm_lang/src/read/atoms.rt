//! The tests of WHERE and the assignments of SET.
ghost use Rattle.std.specs.Prelude.{◌≡◌, List};
ghost use Rattle.std.specs.List.{flat_map};
ghost use Rattle.mm_lang.specs.Grammar.{operand_on, tests_on, with_shift};
ghost use Rattle.mm_lang.specs.Phrases.{Phrase as Phr};
ghost use Rattle.mm_lang.specs.Reading.{operand_literals, test_literals};
ghost use Rattle.mm_lang.specs.steps.Parsing.{NeverLonger, ReadsPhrase, no_literals};

use crate::read::keyword::Keyword;
use crate::read::phrase::{Phrase, Separator, read_clause};
use crate::read::reader::Reader;
use crate::read::token::Symbol;
use mm_query::{Assignment, Atom, Operand};
use mm_schema::NameRef;
use mm_value::{Few, Refusal};
use std::marker::PhantomData;

/// A column as a command names it, in a line with the lifetime `'l`.
pub(crate) trait ColumnName<'l>: Sized + Drop {
    ghost column: { Phr Self };

    /// Reads a column. Fails with `Syntax` if the rest does not begin with one.
    fn read(reader: &mut Reader<'l>) -> Result<Self, Refusal>
        ensures { ReadsPhrase column no_literals reader.old reader.new result };

    ghost never_longer: { NeverLonger column };
}

/// A column by its name alone, in a command on one table.
impl<'l> ColumnName<'l> for NameRef<'l> {
    ghost use Rattle.mm_lang.specs.Grammar.{name};
    ghost use Rattle.mm_lang.specs.steps.Shrinking.{name_never_longer};

    ghost column = { name };

    ghost never_longer = { name_never_longer };

    /// Reads a name. Fails with `Syntax` if the rest does not begin with one.
    fn read(reader: &mut Reader<'l>) -> Result<NameRef<'l>, Refusal> {
        reader.name_ref()
    }
}

/// The phrase of a test: a column, a comparison, and an operand. Its item is the atom.
#[derive(Drop)]
struct TestPhrase<C> {
    names: PhantomData<C>,
}

impl<'l, C: ColumnName<'l>> Phrase<'l> for TestPhrase<C> {
    ghost use Rattle.mm_lang.specs.Grammar.{test_on};
    ghost use Rattle.mm_lang.specs.Reading.{test_literals};
    ghost use Rattle.mm_lang.specs.steps.Shrinking.{test_never_longer};

    type Item = Atom<C>;

    ghost reading = { test_on C.column };

    ghost literals = { test_literals };

    ghost never_longer = { test_never_longer C.column C.never_longer };

    /// Reads a test. Fails with `Syntax` if the rest does not begin with one, and with `Memory` if an allocation for a text fails. Records
    /// a literal or a shift past its limit in the reader, and continues.
    fn read(&mut self, reader: &mut Reader<'l>) -> Result<Atom<C>, Refusal> {
        let left = C::read(reader)?;
        let comparison = reader.comparison()?;
        let right = read_operand(reader)?;
        Ok(Atom {
            left,
            comparison,
            right,
        })
    }
}

/// The phrase of an assignment: a column, `=`, and the new value. Its item is the assignment.
#[derive(Drop)]
pub(crate) struct AssignmentPhrase;

impl<'l> Phrase<'l> for AssignmentPhrase {
    ghost use Rattle.mm_lang.specs.Grammar.{assignment};
    ghost use Rattle.mm_lang.specs.Reading.{assignment_literals};
    ghost use Rattle.mm_lang.specs.steps.Shrinking.{assignment_never_longer};

    type Item = Assignment<NameRef<'l>>;

    ghost reading = { assignment };

    ghost literals = { assignment_literals };

    ghost never_longer = { assignment_never_longer };

    /// Reads an assignment. Fails with `Syntax` if the rest does not begin with one, and with `Memory` if an allocation for a text fails.
    /// Records a literal or a shift past its limit in the reader, and continues.
    fn read(&mut self, reader: &mut Reader<'l>) -> Result<Assignment<NameRef<'l>>, Refusal> {
        let column = reader.name_ref()?;
        reader.symbol(Symbol::Equal)?;
        let source = read_operand(reader)?;
        Ok(Assignment { column, source })
    }
}

/// Reads `WHERE` and the tests after it, separated by `AND`. Returns no tests if the rest does not begin with `WHERE`. Fails with `Syntax`
/// if `WHERE` or `AND` is not followed by a test, and with `Memory` if an allocation fails.
pub(crate) fn read_tests<'l, C: ColumnName<'l>>(
    reader: &mut Reader<'l>,
) -> Result<Few<Atom<C>>, Refusal>
    ensures { ReadsPhrase (tests_on C.column) (flat_map test_literals) reader.old reader.new result }
{
    let mut test = TestPhrase { names: PhantomData };
    read_clause(Keyword::Where, &mut test, Separator::And, reader)
}

// Reads a literal, or a column with its shift, if any.
fn read_operand<'l, C: ColumnName<'l>>(reader: &mut Reader<'l>) -> Result<Operand<C>, Refusal>
    ensures { ReadsPhrase (operand_on C.column) operand_literals reader.old reader.new result }
{
    match reader.skip_literal()? {
        Some(value) => Ok(Operand::Literal(value)),
        None => {
            let column = C::read(reader)?;
            let shift = reader.shift()?;
            Ok(with_shift(column, shift))
        }
    }
}

// Returns a column, or a column and its shift.
fn with_shift<C>(column: C, shift: Option<i64>) -> Operand<C>
    ensures { result ≡ with_shift column shift }
{
    match shift {
        Some(by) => Operand::Shifted(column, by),
        None => Operand::Column(column),
    }
}
