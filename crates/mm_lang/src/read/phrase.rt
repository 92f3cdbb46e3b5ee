//! Phrases, and lists of them.
ghost use Rattle.std.specs.Prelude.{◌≡◌, List, Option};
ghost use Rattle.std.specs.List.{flat_map};
ghost use Rattle.mm_lang.specs.Grammar.{comma_list};
ghost use Rattle.mm_lang.specs.Phrases.{Phrase as Phr, clause, in_parentheses, list_of, the_separator};
ghost use Rattle.mm_lang.specs.steps.Parsing.{NeverLonger, ReadsItems, ReadsPhrase};
ghost use Rattle.mm_value.specs.declared.values.Value.{Value as Val};

use crate::read::keyword::Keyword;
use crate::read::reader::Reader;
use crate::read::token::Symbol;
use mm_value::{Few, Refusal};

/// The separator of the items of a list.
#[derive(Clone, Copy)]
pub(crate) enum Separator {
    /// `,`
    Comma,
    /// `AND`
    And,
}

/// A parser for one item of a list, in a line with the lifetime `'l`.
pub(crate) trait Phrase<'l> {
    /// The parsed item.
    type Item: Drop;

    ghost reading: { Phr Self.Item };

    ghost literals: { Self.Item → List Val };

    /// Reads an item. Fails with `Syntax` if the rest does not begin with one, and with `Memory` if an allocation fails. Records a literal
    /// past its limit in the reader, and continues.
    fn read(&mut self, reader: &mut Reader<'l>) -> Result<Self::Item, Refusal>
        ensures { ReadsPhrase reading literals reader.old reader.new result };

    ghost never_longer: { NeverLonger reading };
}

/// Reads one or more items, separated by `separator`, and appends them to `items`. Fails with `Syntax` if the rest does not begin with an
/// item or a separator is not followed by one, and with `Memory` if an allocation fails.
pub(crate) fn read_list<'l, P: Phrase<'l>>(
    phrase: &mut P,
    separator: Separator,
    reader: &mut Reader<'l>,
    items: &mut Vec<P::Item>,
) -> Result<(), Refusal>
    ensures { ReadsItems (list_of (the_separator separator) P.reading) (flat_map P.literals) reader.old reader.new items.old.items items.new.items result }
{
    loop {
        items.push(phrase.read(reader)?)?;
        if !reader.skip_separator(separator) {
            return Ok(());
        }
    }
}

/// Reads one or more items as [`read_list`] does, and returns their list. A single item needs no allocation for the list.
pub(crate) fn read_items<'l, P: Phrase<'l>>(
    phrase: &mut P,
    separator: Separator,
    reader: &mut Reader<'l>,
) -> Result<Few<P::Item>, Refusal>
    ensures { ReadsPhrase (list_of (the_separator separator) P.reading) (flat_map P.literals) reader.old reader.new result }
{
    let first = phrase.read(reader)?;
    if !reader.skip_separator(separator) {
        return Ok(Few::one(first));
    }
    let mut items = Vec::new(reader.alloc());
    items.push(first)?;
    read_list(phrase, separator, reader, &mut items)?;
    Ok(Few::from_vec(items))
}

/// Reads a keyword and the items after it as [`read_items`] does. Returns an empty list if the rest does not begin with the keyword.
pub(crate) fn read_clause<'l, P: Phrase<'l>>(
    keyword: Keyword,
    phrase: &mut P,
    separator: Separator,
    reader: &mut Reader<'l>,
) -> Result<Few<P::Item>, Refusal>
    ensures { ReadsPhrase (clause keyword (the_separator separator) P.reading) (flat_map P.literals) reader.old reader.new result }
{
    if !reader.skip_keyword(keyword) {
        return Ok(Few::from_vec(Vec::new(reader.alloc())));
    }
    read_items(phrase, separator, reader)
}

/// Reads a list with commas in parentheses as [`read_list`] does. Fails with `Syntax` also if a parenthesis is missing.
pub(crate) fn read_in_parentheses<'l, P: Phrase<'l>>(
    phrase: &mut P,
    reader: &mut Reader<'l>,
    items: &mut Vec<P::Item>,
) -> Result<(), Refusal>
    ensures { ReadsItems (in_parentheses (comma_list P.reading)) (flat_map P.literals) reader.old reader.new items.old.items items.new.items result }
{
    reader.symbol(Symbol::Open)?;
    read_list(phrase, Separator::Comma, reader, items)?;
    reader.symbol(Symbol::Close)
}
