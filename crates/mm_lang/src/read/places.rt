//! Offsets in a refused line for error messages.
ghost use Rattle.std.specs.Prelude.{◌≤◌, All, IfOk, length};

use crate::read::keyword::Keyword;
use crate::read::reader::{Reader, is_limit, literal};
use crate::read::reading::read_behind;
use crate::read::token::{Token, is_blank, split_token};
use mm_schema::NameRef;
use mm_value::Refusal;
use std::alloc::{AllocError, Global};

/// Returns the byte offset at which parsing of a line stops: that of the token that no command continues with, or the length of the line.
/// The offset is a hint; the contract says only that it is at most the length of the line.
pub fn place_of_syntax_error(alloc: Global, line: &[u8]) -> usize
    ensures { result ≤ length line.now }
{
    let mut reader = Reader::new(alloc, line);
    let Ok(keyword) = reader.keyword() else {
        return place_of_next(line, line);
    };
    let _stopped = read_on(keyword, &mut reader);
    place_of_next(line, reader.rest())
}

/// Reads the rest of a command after its first keyword, and checks that nothing follows.
fn read_on(keyword: Keyword, reader: &mut Reader<'_>) -> Result<(), Refusal> {
    read_behind(keyword, reader)?;
    reader.finish()
}

/// Returns the byte offset of the first literal of a line that is past its limit, or 0. The offset is a hint; the contract says only that
/// it is at most the length of the line.
pub fn place_of_limit(alloc: Global, line: &[u8]) -> usize
    ensures { result ≤ length line.now }
{
    let mut rest = line;
    while let Some((token, behind)) = split_token(rest) {
        if is_past_limit(alloc, token) {
            return place_of_next(line, rest);
        }
        rest = behind;
    }
    0
}

/// Returns whether a token is a literal past its limit.
fn is_past_limit(alloc: Global, token: Token<'_>) -> bool {
    matches!(literal(alloc, token), Err(refusal) if is_limit(refusal))
}

/// A name in a line, and its byte offset.
#[derive(Debug, Drop)]
pub struct PlacedName<'l> {
    /// The name.
    pub name: NameRef<'l>,
    /// The byte offset of the name.
    pub place: usize,
}

/// Returns the names of a line, from left to right, with their byte offsets. Fails with `AllocError` if an allocation fails. The offsets
/// are hints; the contract says only that each is at most the length of the line.
pub fn names_in(alloc: Global, line: &[u8]) -> Result<Vec<PlacedName<'_>>, AllocError>
    ensures { IfOk result (λ names. All (λ found. found.place ≤ length line.now) names.items) }
{
    let mut names = Vec::new(alloc);
    let mut rest = line;
    while let Some((token, behind)) = split_token(rest) {
        if let Token::Word(word) = token
            && let Some(name) = NameRef::new(word)
        {
            let place = place_of_next(line, rest);
            names.push(PlacedName { name, place })?;
        }
        rest = behind;
    }
    Ok(names)
}

/// Returns the byte offset in a line of the first token of its rest.
fn place_of_next(line: &[u8], rest: &[u8]) -> usize
    ensures { result ≤ length line.now }
{
    let blanks = rest.iter().take_while(|byte| is_blank(**byte)).count();
    line.len()
        .saturating_sub(rest.len())
        .saturating_add(blanks)
        .min(line.len())
}
