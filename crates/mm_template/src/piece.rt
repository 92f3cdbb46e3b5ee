//! The pieces of a line: bytes that a cut keeps, operators, and the lengths of literals.
ghost use Rattle.std.specs.Prelude.{◌≡◌, ◌<◌, ◌≤◌, IfSome, drop, false, length, slice_index, slice_index_or, true};
ghost use Rattle.std.specs.List.{prefix_len};
ghost use Rattle.mm_lang.specs.Tokens.{is_blank};
ghost use Rattle.mm_template.specs.steps.Pieces.{IsOneOf, IsOperator, MayBeCut, begins_text, is_kept_byte, is_passed};

use mm_lang::{blank_len, word_len};

/// An operator at the front of some bytes.
#[derive(Clone, Copy)]
pub(crate) struct Operator {
    /// Whether any literal may be cut after it: it is a comparison, or in an INSERT a comma or an opening parenthesis. Otherwise it is a
    /// sign, or a minus and the word directly after it, and only a number without a minus may be cut.
    pub(crate) takes_any: bool,
    pub(crate) len: usize,
}

/// Whether each byte remains in the template if it is outside texts, operators and the literals after them: a letter, a digit, `_`, a
/// blank, `.`, `,`, `(` or `)`.
static KEPT_BYTES: [bool; 256] = [
    false, false, false, false, false, false, false, false, false, true, false, false, false,
    false, false, false, false, false, false, false, false, false, false, false, false, false,
    false, false, false, false, false, false, true, false, false, false, false, false, false,
    false, true, true, false, false, true, false, true, false, true, true, true, true, true, true,
    true, true, true, true, false, false, false, false, false, false, false, true, true, true,
    true, true, true, true, true, true, true, true, true, true, true, true, true, true, true, true,
    true, true, true, true, true, true, true, false, false, false, false, true, false, true, true,
    true, true, true, true, true, true, true, true, true, true, true, true, true, true, true, true,
    true, true, true, true, true, true, true, true, false, false, false, false, false, false,
    false, false, false, false, false, false, false, false, false, false, false, false, false,
    false, false, false, false, false, false, false, false, false, false, false, false, false,
    false, false, false, false, false, false, false, false, false, false, false, false, false,
    false, false, false, false, false, false, false, false, false, false, false, false, false,
    false, false, false, false, false, false, false, false, false, false, false, false, false,
    false, false, false, false, false, false, false, false, false, false, false, false, false,
    false, false, false, false, false, false, false, false, false, false, false, false, false,
    false, false, false, false, false, false, false, false, false, false, false, false, false,
    false, false, false, false, false, false, false, false, false, false, false, false, false,
    false, false, false, false, false, false, false, false, false, false,
];

/// Returns the rest of some bytes after names, keywords, other words, blanks, points, closing parentheses and, except in an INSERT, commas
/// and opening parentheses. Most of a line is skipped here, so four bytes are tested at a time.
pub(crate) fn skip_kept(bytes: &[u8], is_insert: bool) -> &[u8]
    ensures rest { result.now ≡ drop (prefix_len (is_passed is_insert) bytes.now) bytes.now }
    ensures shorter { length result.now ≤ length bytes.now }
{
    let mut rest = bytes;
    while let [first, second, third, fourth, behind @ ..] = rest {
        let are_kept = is_passed(*first, is_insert)
            & is_passed(*second, is_insert)
            & is_passed(*third, is_insert)
            & is_passed(*fourth, is_insert);
        if !are_kept {
            break;
        }
        rest = behind;
    }
    &rest[passed_len(rest, is_insert)..]
}

/// Returns the rest of some bytes after blanks.
#[inline(always)]
pub(crate) fn skip_blanks(bytes: &[u8]) -> &[u8]
    ensures rest { result.now ≡ drop (prefix_len is_blank bytes.now) bytes.now }
    ensures shorter { length result.now ≤ length bytes.now }
{
    &bytes[blank_len(bytes)..]
}

/// Returns the operator at the front of some bytes. Returns `None` if the line is not cut: at a `?`, a text that follows no comparison, and
/// a byte that is part of no token.
#[inline(always)]
pub(crate) fn operator_at(bytes: &[u8]) -> Option<Operator>
    requires { 0 < length bytes.now }
    ensures { IfSome result (λ operator. IsOperator bytes.now operator.takes_any operator.len) }
{
    match bytes[0] {
        b'=' => Some(Operator {
            takes_any: true,
            len: 1,
        }),
        b'<' | b'>' => Some(comparison(bytes)),
        b'+' => Some(Operator {
            takes_any: false,
            len: 1,
        }),
        b'-' => Some(minus(bytes)),
        b',' => Some(Operator {
            takes_any: true,
            len: 1,
        }),
        b'(' => Some(Operator {
            takes_any: true,
            len: 1,
        }),
        _ => None,
    }
}

/// Returns the length of the literal at the front of some bytes that follow an operator and blanks: 0 if none is to be cut there. Returns
/// `None` if no quote closes a text.
#[inline(always)]
pub(crate) fn literal_len(bytes: &[u8], takes_any: bool) -> Option<usize>
    ensures { IfSome result (λ len. MayBeCut bytes.now takes_any len) }
{
    match bytes {
        [b'0'..=b'9', ..] => Some(word_len(bytes)),
        _ if takes_any => compared_len(bytes),
        _ => Some(0),
    }
}

/// Returns whether some bytes begin with a quote.
pub(crate) fn begins_text(bytes: &[u8]) -> bool
    ensures { result ≡ begins_text bytes.now }
{
    matches!(bytes, [b'\'', ..])
}

// Returns the length of the longest run of skipped bytes at the front.
fn passed_len(bytes: &[u8], is_insert: bool) -> usize
    ensures run { result ≡ prefix_len (is_passed is_insert) bytes.now }
    ensures in_range { result ≤ length bytes.now }
{
    bytes
        .iter()
        .take_while(|byte| is_passed(**byte, is_insert))
        .count()
}

// Returns whether a byte is kept and skipped. In an INSERT a value follows a comma or an opening parenthesis, so these are not skipped.
#[inline(always)]
fn is_passed(byte: u8, is_insert: bool) -> bool
    ensures { result ≡ is_passed is_insert byte }
{
    is_kept_byte(byte) && !(is_insert && matches!(byte, b',' | b'('))
}

// Returns whether a byte is kept.
#[inline(always)]
fn is_kept_byte(byte: u8) -> bool
    ensures { result ≡ is_kept_byte byte }
{
    is_marked(&KEPT_BYTES, byte)
}

// Returns whether a table of all bytes marks this one.
#[inline(always)]
fn is_marked(table: &[bool; 256], byte: u8) -> bool
    ensures { result ≡ slice_index_or table.now byte false }
{
    table[byte as usize]
}

// Returns the operator of bytes that begin with `<` or `>`.
fn comparison(bytes: &[u8]) -> Operator
    requires some { 0 < length bytes.now }
    requires comparison { IsOneOf 60 62 (slice_index bytes.now 0) }
    ensures { IsOperator bytes.now result.takes_any result.len }
{
    match bytes {
        [_, b'=', ..] => Operator {
            takes_any: true,
            len: 2,
        },
        _ => Operator {
            takes_any: true,
            len: 1,
        },
    }
}

// Returns the operator of bytes that begin with a minus.
fn minus(bytes: &[u8]) -> Operator
    requires some { 0 < length bytes.now }
    requires minus { slice_index bytes.now 0 ≡ 45 }
    ensures { IsOperator bytes.now result.takes_any result.len }
{
    let word = word_len(&bytes[1..]);
    Operator {
        takes_any: false,
        len: 1 + word,
    }
}

// Returns the length of the text, or of the number with a minus, at the front of bytes that follow a comparison.
fn compared_len(bytes: &[u8]) -> Option<usize>
    ensures { IfSome result (λ len. len ≤ length bytes.now) }
{
    match bytes {
        [b'\'', ..] => text_len(bytes),
        [b'-', digits @ ..] => match word_len(digits) {
            0 => Some(0),
            word => Some(1 + word),
        },
        _ => Some(0),
    }
}

// Returns the length of a text in quotes at the front, each quote in it doubled. Returns `None` if no quote closes it.
fn text_len(bytes: &[u8]) -> Option<usize>
    requires { 0 < length bytes.now }
    ensures { IfSome result (λ len. (0 < len) × (len ≤ length bytes.now)) }
{
    let mut end = 1;
    loop {
        match &bytes[end..] {
            [] => return None,
            [b'\'', b'\'', ..] => end += 2,
            [b'\'', ..] => return Some(end + 1),
            _ => end += 1,
        }
    }
}
