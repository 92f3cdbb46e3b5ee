//! Holes: the parameters of a statement.
ghost use Rattle.std.specs.Prelude.{◌≡◌, IfOk};
ghost use Rattle.std.specs.Char.{is_ascii_digit};
ghost use Rattle.std.specs.List.{list_all};
ghost use Rattle.mm_lang.specs.Templates.{hole_flag, holes_among};
ghost use Rattle.mm_lang.specs.Tokens.{Token as Tok, has_hole, is_hole, tokens};
ghost use Rattle.mm_lang.specs.steps.Splitting.{Shows};
ghost use Rattle.mm_value.specs.Literal.{is_numeral};

use crate::read::token::{Token, split_token};
use std::alloc::{AllocError, Global};

/// Returns whether a line has a hole. Splits the line into tokens only if it contains a `?`.
pub(crate) fn has_hole(line: &[u8]) -> bool
    ensures { result ≡ has_hole (tokens line.now) }
{
    if !line.contains(&b'?') {
        return false;
    }
    has_hole_token(line)
}

fn has_hole_token(line: &[u8]) -> bool
    ensures { result ≡ has_hole (tokens line.now) }
{
    let mut rest = line;
    while let Some((token, behind)) = split_token(rest) {
        if is_hole(token) {
            return true;
        }
        rest = behind;
    }
    false
}

fn is_hole(token: Token<'_>) -> bool
    ensures { (t : Tok) → Shows token.entry t → result ≡ is_hole t }
{
    matches!(token, Token::Hole)
}

/// Returns for each literal of a line, in written order, whether it is a hole. Fails with `AllocError` if an allocation fails.
pub(crate) fn holes_among(alloc: Global, line: &[u8]) -> Result<Vec<bool>, AllocError>
    ensures { IfOk result (λ holes. holes.items ≡ holes_among (tokens line.now)) }
{
    let mut holes = Vec::new(alloc);
    let mut rest = line;
    while let Some((token, behind)) = split_token(rest) {
        if let Some(flag) = hole_flag(token) {
            holes.push(flag)?;
        }
        rest = behind;
    }
    Ok(holes)
}

// Returns whether a token is a hole, or `None` if the token is not a literal.
fn hole_flag(token: Token<'_>) -> Option<bool>
    ensures { (t : Tok) → Shows token.entry t → result ≡ hole_flag t }
{
    match token {
        Token::Word(word) => is_numeral(word).then_some(false),
        Token::Signed(signed) => is_numeral(signed.get(1..)?).then_some(false),
        Token::Quoted(_) => Some(false),
        Token::Mark(_) | Token::Unreadable => None,
        Token::Hole => Some(true),
    }
}

// Returns whether bytes are one or more digits.
fn is_numeral(bytes: &[u8]) -> bool
    ensures { result ≡ is_numeral bytes.now }
{
    !bytes.is_empty() && are_digits(bytes)
}

fn are_digits(bytes: &[u8]) -> bool
    ensures { result ≡ list_all is_ascii_digit bytes.now }
{
    bytes.iter().all(|byte| byte.is_ascii_digit())
}
