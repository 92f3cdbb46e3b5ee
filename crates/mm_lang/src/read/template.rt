//! Lines with holes, which later values fill.
ghost use Rattle.std.specs.Prelude.{◌≡◌, ◌≢◌, ◌≤◌, ◌&&◌, ℕ, List, Some, length, false, Ok};
ghost use Rattle.mm_query.specs.declared.command.Command.{Command as Com};
ghost use Rattle.mm_query.specs.declared.command.Command.TheVariants.{Define};
ghost use Rattle.mm_query.specs.declared.command.Definition.{Definition};
ghost use Rattle.mm_lang.specs.Grammar.{command_of};
ghost use Rattle.mm_lang.specs.Reading.{is_nothing, literals_of, read_as, reading};
ghost use Rattle.mm_lang.specs.Templates.{Prepares, holes_of, template_of};
ghost use Rattle.mm_lang.specs.Tokens.{has_hole, tokens};
ghost use Rattle.mm_lang.specs.steps.Parsing.{begins_definition, is_definition_keyword};

use crate::read::hole::{has_hole, holes_among};
use crate::read::keyword::Keyword;
use crate::read::lookahead::Lookahead;
use crate::read::reading::{MAX_LINE_BYTES, is_nothing, read_command};
use mm_query::Command;
use mm_value::Refusal;
use std::alloc::Global;

/// The parsed form of a line with holes, with the lifetime `'l`.
#[derive(Debug, Drop)]
pub struct Template<'l> {
    /// The command, with a 0 in place of each hole, and with a 1 or -1 in place of a hole after the sign of a shift.
    pub command: Command<'l>,
    /// For each literal of the command, in written order, whether it is a hole.
    pub holes: Vec<bool>,
}

/// Returns the command and the holes of a line, without its line feed and carriage return. A `?` may replace a literal in the tuples of an
/// INSERT, in a SET and in a WHERE, and the digits of a shift. Otherwise the line is read as [`crate::parse`] does. Fails with
/// `LineTooLong` if the line has more than 4,096 bytes. Fails with `Syntax` if it has no such form, or if a change of the catalog has a
/// `?`, such as in the query of a WATCH. Otherwise fails with `NumberOutOfRange` or `TextTooLong` if the first literal past its limit is a
/// number or a text. May instead fail with `Memory`.
pub fn prepare(alloc: Global, line: &[u8]) -> Result<Template<'_>, Refusal>
    ensures { Prepares line.now result }
{
    if line.len() > MAX_LINE_BYTES {
        return Err(Refusal::LineTooLong);
    }
    if is_nothing(line) {
        return Ok(Template {
            command: Command::Nothing,
            holes: Vec::new(alloc),
        });
    }
    if defines_with_hole(line) {
        return Err(Refusal::Syntax);
    }
    let command = read_command(alloc, line)?;
    let holes = holes_among(alloc, line)?;
    Ok(Template { command, holes })
}

// Returns whether a line has a hole and begins as a change of the catalog.
fn defines_with_hole(line: &[u8]) -> bool
    ensures { result ≡ (has_hole (tokens line.now) && begins_definition (tokens line.now)) }
{
    has_hole(line) && begins_definition(line)
}

// Returns whether a line begins with the keyword of a change of the catalog.
fn begins_definition(line: &[u8]) -> bool
    ensures { result ≡ begins_definition (tokens line.now) }
{
    match Lookahead::new(line).word() {
        Some((word, _)) => Keyword::named(word).is_some_and(is_definition_keyword),
        None => false,
    }
}

fn is_definition_keyword(keyword: Keyword) -> bool
    ensures { result ≡ is_definition_keyword keyword }
{
    matches!(
        keyword,
        Keyword::Drop | Keyword::Index | Keyword::Table | Keyword::Unwatch | Keyword::Watch
    )
}

/// A line without holes is read as [`crate::parse`] does, and a line has one flag for each literal of its command.
pub fn templates_read_as_lines()
    ensures plain { (line : List ℕ) → has_hole (tokens line) ≡ false → template_of line ≡ reading line }
    ensures places { (line : List ℕ) (command : Com) → template_of line ≡ Ok command → length (holes_of line) ≡ length (literals_of command) }
{}

/// A line with a hole never reads as a change of the catalog. Any other command may have holes: a line of at most 4,096 bytes whose tokens
/// spell one reads as it, unless a literal is past its limit.
pub fn holes_are_in_no_definition()
    ensures definitions { (line : List ℕ) (definition : Definition) → template_of line ≡ Ok (Define definition) → has_hole (tokens line) ≡ false }
    ensures others { (line : List ℕ) (command : Com) → length line ≤ 4096 → is_nothing line ≡ false → command_of (tokens line) ≡ Some command
        → ((definition : Definition) → command ≢ Define definition) → template_of line ≡ read_as (Some command) }
{}
