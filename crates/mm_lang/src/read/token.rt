//! The tokens of a line.
ghost use Rattle.std.specs.Prelude.{◌≡◌, ◌<◌, ◌≤◌, ◌+◌, false, [], length, drop, slice_index, slice_index_or, MatchOption};
ghost use Rattle.std.specs.List.{prefix_len};
ghost use Rattle.mm_lang.specs.steps.Splitting.{GoesOn, Splits, begins_blank};
ghost use Rattle.mm_lang.specs.Tokens.{Inside, tokens, lexed, is_blank, is_word_byte, begins_word, begins_equal, onto_equal, onto_minus, onto_symbol};

/// A symbol of the language.
#[derive(Clone, Copy, Debug, PartialEq, Eq)]
pub enum Symbol {
    /// `(`
    Open,
    /// `)`
    Close,
    /// `,`
    Comma,
    /// `.`
    Dot,
    /// `=`
    Equal,
    /// `<`
    Less,
    /// `<=`
    AtMost,
    /// `>`
    Greater,
    /// `>=`
    AtLeast,
    /// `+`
    Plus,
    /// `-`
    Minus,
}

/// A token, as written in the line.
#[derive(Clone, Copy)]
pub enum Token<'a> {
    /// Letters, digits and `_`.
    Word(&'a [u8]),
    /// A minus and the word directly after it.
    Signed(&'a [u8]),
    /// A text with its quotes, in which each quote is doubled.
    Quoted(&'a [u8]),
    /// A symbol.
    Mark(Symbol),
    /// `?`, a parameter.
    Hole,
    /// A byte or an unclosed quote that no command contains.
    Unreadable,
}

/// For each byte, whether a word may contain it: a letter, a digit or `_`.
static WORD_BYTES: [bool; 256] = [
    false, false, false, false, false, false, false, false, false, false, false, false, false,
    false, false, false, false, false, false, false, false, false, false, false, false, false,
    false, false, false, false, false, false, false, false, false, false, false, false, false,
    false, false, false, false, false, false, false, false, false, true, true, true, true, true,
    true, true, true, true, true, false, false, false, false, false, false, false, true, true,
    true, true, true, true, true, true, true, true, true, true, true, true, true, true, true, true,
    true, true, true, true, true, true, true, true, false, false, false, false, true, false, true,
    true, true, true, true, true, true, true, true, true, true, true, true, true, true, true, true,
    true, true, true, true, true, true, true, true, true, false, false, false, false, false, false,
    false, false, false, false, false, false, false, false, false, false, false, false, false,
    false, false, false, false, false, false, false, false, false, false, false, false, false,
    false, false, false, false, false, false, false, false, false, false, false, false, false,
    false, false, false, false, false, false, false, false, false, false, false, false, false,
    false, false, false, false, false, false, false, false, false, false, false, false, false,
    false, false, false, false, false, false, false, false, false, false, false, false, false,
    false, false, false, false, false, false, false, false, false, false, false, false, false,
    false, false, false, false, false, false, false, false, false, false, false, false, false,
    false, false, false, false, false, false, false, false, false, false, false, false, false,
    false, false, false, false, false, false, false, false, false, false,
];

/// Returns the first token and the bytes after it, or `None` if there are only blanks. No bytes follow an unreadable token.
pub fn split_token(bytes: &[u8]) -> Option<(Token<'_>, &[u8])>
    ensures { MatchOption result (tokens bytes.now ≡ []) (λ r. Splits (tokens bytes.now) (length bytes.now) r.0 r.1.now) }
{
    let bytes = skip_blanks(bytes);
    if bytes.is_empty() {
        return None;
    }
    Some(split_first_token(bytes))
}

fn skip_blanks(bytes: &[u8]) -> &[u8]
    ensures tokens { tokens result.now ≡ tokens bytes.now }
    ensures visible { begins_blank result.now ≡ false }
    ensures shorter { length result.now ≤ length bytes.now }
{
    &bytes[blank_len(bytes)..]
}

/// Returns the length of the longest run of blanks at the front.
pub fn blank_len(bytes: &[u8]) -> usize
    ensures run { result ≡ prefix_len is_blank bytes.now }
    ensures in_range { result ≤ length bytes.now }
{
    bytes.iter().take_while(|b| is_blank(**b)).count()
}

fn split_first_token(bytes: &[u8]) -> (Token<'_>, &[u8])
    requires nonempty { 0 < length bytes.now }
    requires visible { begins_blank bytes.now ≡ false }
    ensures { Splits (tokens bytes.now) (length bytes.now) result.0 result.1.now }
{
    if bytes[0] == b'\'' {
        return split_text(bytes);
    }
    if !is_word_byte(bytes[0]) {
        return split_symbol(bytes);
    }
    let (word, rest) = bytes.split_at(word_len(bytes));
    (Token::Word(word), rest)
}

/// Returns the length of the longest run of letters, digits and `_` at the front.
pub fn word_len(bytes: &[u8]) -> usize
    ensures run { result ≡ prefix_len is_word_byte bytes.now }
    ensures in_range { result ≤ length bytes.now }
{
    bytes.iter().take_while(|b| is_word_byte(**b)).count()
}

/// Returns whether bytes begin with a letter, a digit or `_`.
pub fn begins_word(bytes: &[u8]) -> bool
    ensures { result ≡ begins_word bytes.now }
{
    match bytes.first() {
        Some(byte) => is_word_byte(*byte),
        None => false,
    }
}

// Splits off the first token of bytes that begin with neither a blank, a quote nor a byte of a word.
fn split_symbol(bytes: &[u8]) -> (Token<'_>, &[u8])
    requires { 0 < length bytes.now }
    ensures { Splits (onto_symbol (slice_index bytes.now 0) (drop 1 bytes.now) (tokens (drop 1 bytes.now))) (length bytes.now) result.0 result.1.now }
{
    let rest = &bytes[1..];
    let symbol = match bytes[0] {
        b'(' => Symbol::Open,
        b')' => Symbol::Close,
        b',' => Symbol::Comma,
        b'.' => Symbol::Dot,
        b'=' => Symbol::Equal,
        b'<' => return split_comparison(rest, Symbol::Less, Symbol::AtMost),
        b'>' => return split_comparison(rest, Symbol::Greater, Symbol::AtLeast),
        b'+' => Symbol::Plus,
        b'-' => return split_minus(bytes),
        b'?' => return (Token::Hole, rest),
        _ => return (Token::Unreadable, &[]),
    };
    (Token::Mark(symbol), rest)
}

// Returns `joined` if an equals sign follows directly, and otherwise `alone`.
fn split_comparison(rest: &[u8], alone: Symbol, joined: Symbol) -> (Token<'_>, &[u8])
    ensures { Splits (onto_equal alone joined (begins_equal rest.now) (tokens rest.now)) (length rest.now + 1) result.0 result.1.now }
{
    match rest {
        [b'=', behind @ ..] => (Token::Mark(joined), behind),
        _ => (Token::Mark(alone), rest),
    }
}

// Splits off the first token of bytes that begin with a minus.
fn split_minus(bytes: &[u8]) -> (Token<'_>, &[u8])
    requires nonempty { 0 < length bytes.now }
    requires minus { slice_index bytes.now 0 ≡ 45 }
    ensures { Splits (onto_minus (begins_word (drop 1 bytes.now)) (tokens (drop 1 bytes.now))) (length bytes.now) result.0 result.1.now }
{
    let word = word_len(&bytes[1..]);
    let (front, rest) = bytes.split_at(1 + word);
    if word == 0 {
        (Token::Mark(Symbol::Minus), rest)
    } else {
        (Token::Signed(front), rest)
    }
}

// Splits off the first token of bytes that begin with a quote.
fn split_text(bytes: &[u8]) -> (Token<'_>, &[u8])
    requires nonempty { 0 < length bytes.now }
    requires quote { slice_index bytes.now 0 ≡ 39 }
    ensures { Splits (lexed Inside (drop 1 bytes.now)) (length bytes.now) result.0 result.1.now }
{
    let mut end = 1;
    loop {
        match text_piece(&bytes[end..]) {
            Piece::Bytes(len) => end += len,
            Piece::End => {
                let (text, rest) = bytes.split_at(end + 1);
                return (Token::Quoted(text), rest);
            }
            Piece::Fault => return (Token::Unreadable, &[]),
        }
    }
}

/// The next piece inside a text.
#[derive(Clone, Copy)]
enum Piece {
    /// This many bytes, which spell one byte of the text.
    Bytes(usize),
    /// The closing quote.
    End,
    /// A line feed or the end of the line, without a closing quote.
    Fault,
}

fn text_piece(rest: &[u8]) -> Piece
    ensures { GoesOn rest.now result }
{
    match rest {
        [b'\'', b'\'', ..] => Piece::Bytes(2),
        [b'\'', ..] => Piece::End,
        [] | [b'\n', ..] => Piece::Fault,
        _ => Piece::Bytes(1),
    }
}

pub(crate) fn is_blank(byte: u8) -> bool
    ensures { result ≡ is_blank byte }
{
    matches!(byte, b' ' | b'\t')
}

fn is_word_byte(byte: u8) -> bool
    ensures { result ≡ is_word_byte byte }
{
    is_marked(&WORD_BYTES, byte)
}

// Returns whether a table of all bytes marks this one.
#[inline(always)]
fn is_marked(table: &[bool; 256], byte: u8) -> bool
    ensures { result ≡ slice_index_or table.now byte false }
{
    table[byte as usize]
}
