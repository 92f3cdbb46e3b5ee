//! The rest of a line, with its first token split off.
ghost use Rattle.std.specs.Prelude.{◌≡◌, [], length, MatchOption};
ghost use Rattle.mm_lang.specs.steps.Parsing.{BeginsNoHole, BeginsNoMark, BeginsNoWord, BeginsNot, BeginsNotSigned, Follows};
ghost use Rattle.mm_lang.specs.steps.Splitting.{Splits};
ghost use Rattle.mm_lang.specs.Tokens.{Word, Signed, Mark as MarkToken, Hole as HoleToken, tokens};

use crate::read::token::{Symbol, Token, split_token};
use std::marker::Model;

/// The rest of a line. Its first token is split off once, and kept until it is consumed.
#[derive(Drop)]
pub(crate) struct Lookahead<'a> {
    bytes: &'a [u8],
    /// The first token, and the bytes after it.
    first: Option<(Token<'a>, &'a [u8])>,
}

impl<'a> Model for Lookahead<'a> {
    ghost use Rattle.std.specs.Prelude.{◌≡◌, List, ℕ, [], length, MatchOption};
    ghost use Rattle.mm_lang.specs.steps.Splitting.{Splits};
    ghost use Rattle.mm_lang.specs.Tokens.{tokens};

    ghost Value = { List ℕ };

    ghost view = { λ f. f.bytes.now };

    ghost invariant = { λ f. MatchOption f.first (tokens f.bytes.now ≡ []) (λ r. Splits (tokens f.bytes.now) (length f.bytes.now) r.0 r.1.now) };
}

impl<'a> Lookahead<'a> {
    /// Returns a lookahead over these bytes.
    pub(crate) fn new(bytes: &'a [u8]) -> Lookahead<'a>
        ensures { result ≡ bytes.now }
    {
        Lookahead {
            bytes,
            first: split_token(bytes),
        }
    }

    /// Returns the bytes.
    pub(crate) fn bytes(&self) -> &'a [u8]
        ensures { result.now ≡ self.now }
    {
        self.bytes
    }

    /// Returns the first token and the bytes after it, or `None` if there are only blanks.
    pub(crate) fn token(&self) -> Option<(Token<'a>, &'a [u8])>
        ensures { MatchOption result (tokens self.now ≡ []) (λ r. Splits (tokens self.now) (length self.now) r.0 r.1.now) }
    {
        self.first
    }

    /// Returns the word at the front and the bytes after it, or `None` if the first token is not a word.
    pub(crate) fn word(&self) -> Option<(&'a [u8], &'a [u8])>
        ensures { MatchOption result (BeginsNoWord (tokens self.now)) (λ r. Follows self.now (Word r.0.now) r.1.now) }
    {
        match self.token() {
            Some((Token::Word(word), behind)) => Some((word, behind)),
            _ => None,
        }
    }

    /// Returns the bytes after this symbol, or `None` if it is not the first token.
    pub(crate) fn behind(&self, symbol: Symbol) -> Option<&'a [u8]>
        ensures { MatchOption result (BeginsNot symbol (tokens self.now)) (λ r. Follows self.now (MarkToken symbol) r.now) }
    {
        match self.token() {
            Some((Token::Mark(mark), behind)) if mark == symbol => Some(behind),
            _ => None,
        }
    }

    /// Returns the bytes after a hole, or `None` if the first token is not a hole.
    pub(crate) fn behind_hole(&self) -> Option<&'a [u8]>
        ensures { MatchOption result (BeginsNoHole (tokens self.now)) (λ r. Follows self.now HoleToken r.now) }
    {
        match self.token() {
            Some((Token::Hole, behind)) => Some(behind),
            _ => None,
        }
    }

    /// Returns the symbol at the front and the bytes after it, or `None` if the first token is not a symbol.
    pub(crate) fn symbol(&self) -> Option<(Symbol, &'a [u8])>
        ensures { MatchOption result (BeginsNoMark (tokens self.now)) (λ r. Follows self.now (MarkToken r.0) r.1.now) }
    {
        match self.token() {
            Some((Token::Mark(symbol), behind)) => Some((symbol, behind)),
            _ => None,
        }
    }

    /// Returns the word after a minus and the bytes after that word, or `None` if the first token is not a word with a minus.
    pub(crate) fn signed(&self) -> Option<(&'a [u8], &'a [u8])>
        ensures { MatchOption result (BeginsNotSigned (tokens self.now)) (λ r. Follows self.now (Signed r.0.now) r.1.now) }
    {
        match self.token() {
            Some((Token::Signed(signed), behind)) => Some((signed.get(1..)?, behind)),
            _ => None,
        }
    }
}
