//! The tuples of INSERT.
ghost use Rattle.std.specs.List.{flat_map};
ghost use Rattle.mm_lang.specs.Grammar.{comma_list, literal_of};
ghost use Rattle.mm_lang.specs.Phrases.{one};
ghost use Rattle.mm_lang.specs.steps.Parsing.{ReadsItems, only_literal};

use crate::read::phrase::{Phrase, Separator};
use crate::read::reader::Reader;
use crate::read::token::Symbol;
use mm_value::{Refusal, Tuple};

/// The phrase of a tuple: literals in parentheses, separated by commas. Its item is the tuple of their values.
#[derive(Drop)]
pub(crate) struct TuplePhrase;

impl<'l> Phrase<'l> for TuplePhrase {
    ghost use Rattle.mm_lang.specs.Grammar.{tuple};
    ghost use Rattle.mm_lang.specs.steps.Shrinking.{tuple_never_longer};

    type Item = Tuple;

    ghost reading = { tuple };

    ghost literals = { λ values. values };

    ghost never_longer = { tuple_never_longer };

    /// Reads a tuple. Fails with `Syntax` if the rest does not begin with one, and with `Memory` if an allocation fails, for a text or for
    /// more than 4 values. Records a literal past its limit in the reader, and continues.
    fn read(&mut self, reader: &mut Reader<'l>) -> Result<Tuple, Refusal> {
        reader.symbol(Symbol::Open)?;
        let mut tuple = Tuple::with_capacity(reader.alloc(), 0)?;
        read_values(reader, &mut tuple)?;
        reader.symbol(Symbol::Close)?;
        Ok(tuple)
    }
}

// Reads one or more literals, separated by commas, and appends their values to the tuple, without a list of their own.
fn read_values(reader: &mut Reader<'_>, tuple: &mut Tuple) -> Result<(), Refusal>
    ensures { ReadsItems (comma_list (one literal_of)) (flat_map only_literal) reader.old reader.new tuple.old tuple.new result }
{
    loop {
        tuple.push(reader.literal()?)?;
        if !reader.skip_separator(Separator::Comma) {
            return Ok(());
        }
    }
}
