//! Parsing of a line from left to right.
ghost use Rattle.std.specs.Prelude.{◌≡◌, None, MatchResult};
ghost use Rattle.mm_lang.specs.Grammar.{col_type, comparison, comparison_of, digits, index_kind, literal_of, name, numbered, position};
ghost use Rattle.mm_lang.specs.Grammar.{behind_sign, shift, unit_shift};
ghost use Rattle.mm_lang.specs.Phrases.{in_parentheses, one, one_word, the_keyword, the_separator, the_symbol, word_of};
ghost use Rattle.mm_lang.specs.Words.{keyword_named};
ghost use Rattle.mm_lang.specs.steps.Parsing.{AnswersOrMemory, Finds, Finishes, Gives, IsMissing, ReadsPhrase, ReadsWithoutMemory, Skips};
ghost use Rattle.mm_lang.specs.steps.Parsing.{is_limit, no_literals, only_literal, shift_literals, the_hole};
ghost use Rattle.mm_lang.specs.steps.Splitting.{Shows};
ghost use Rattle.mm_lang.specs.Reading.{checked, literal_fault, position_literals};
ghost use Rattle.mm_lang.specs.Tokens.{Token as Tok};

use crate::read::keyword::Keyword;
use crate::read::lookahead::Lookahead;
use crate::read::phrase::Separator;
use crate::read::token::{Symbol, Token};
use mm_query::Comparison;
use mm_schema::{IndexKind, Name, NameRef};
use mm_value::{ColType, Refusal, Value, read_int, read_literal};
use std::alloc::Global;

/// The rest of a line, and the refusal of the first literal past its limit. Its methods read from the front of the rest. They fail with
/// `Syntax` if the rest does not begin with what they read; parsing ends then.
#[derive(Drop)]
pub(crate) struct Reader<'a> {
    alloc: Global,
    rest: Lookahead<'a>,
    fault: Option<Refusal>,
}

impl<'a> Reader<'a> {
    /// Returns a reader of a whole line, with no literal past its limit so far.
    pub(crate) fn new(alloc: Global, line: &'a [u8]) -> Reader<'a>
        ensures rest { result.rest ≡ line.now }
        ensures fault { result.fault ≡ None }
    {
        Reader {
            alloc,
            rest: Lookahead::new(line),
            fault: None,
        }
    }

    /// Returns the rest of the line.
    pub(crate) fn rest(&self) -> &'a [u8]
        ensures { result.now ≡ self.now.rest }
    {
        self.rest.bytes()
    }

    /// Returns the allocator for what is read.
    pub(crate) fn alloc(&self) -> Global {
        self.alloc
    }

    /// Consumes this symbol if it is next, and returns whether it was. Otherwise consumes nothing.
    pub(crate) fn skip(&mut self, symbol: Symbol) -> bool
        ensures { Skips (the_symbol symbol) self.old self.new result }
    {
        match self.rest.behind(symbol) {
            Some(rest) => {
                self.rest = Lookahead::new(rest);
                true
            }
            None => false,
        }
    }

    /// Consumes this keyword if it is next, and returns whether it was. Otherwise consumes nothing.
    pub(crate) fn skip_keyword(&mut self, keyword: Keyword) -> bool
        ensures { Skips (the_keyword keyword) self.old self.new result }
    {
        match self.rest.word() {
            Some((word, rest)) if keyword.is_word(word) => {
                self.rest = Lookahead::new(rest);
                true
            }
            _ => false,
        }
    }

    /// Consumes this separator if it is next, and returns whether it was. Otherwise consumes nothing.
    pub(crate) fn skip_separator(&mut self, separator: Separator) -> bool
        ensures { Skips (the_separator separator) self.old self.new result }
    {
        match separator {
            Separator::Comma => self.skip(Symbol::Comma),
            Separator::And => self.skip_keyword(Keyword::And),
        }
    }

    /// Consumes a literal if it is next, and returns its value. Otherwise returns `None` and consumes nothing. Records a literal past its
    /// limit, and returns a zero in its place. Fails with `Memory` if an allocation for a text fails.
    pub(crate) fn skip_literal(&mut self) -> Result<Option<Value>, Refusal>
        ensures { Finds (one literal_of) only_literal self.old self.new result }
    {
        let Some((token, rest)) = self.rest.token() else {
            return Ok(None);
        };
        match literal(self.alloc, token) {
            Ok(value) => {
                self.rest = Lookahead::new(rest);
                Ok(Some(value))
            }
            Err(fault) if is_limit(fault) => {
                self.rest = Lookahead::new(rest);
                self.fault = self.fault.or(Some(fault));
                Ok(Some(Value::Int(0)))
            }
            Err(Refusal::Syntax) => Ok(None),
            Err(refusal) => Err(refusal),
        }
    }

    /// Reads this symbol. Fails with `Syntax` if it is not next.
    pub(crate) fn symbol(&mut self, symbol: Symbol) -> Result<(), Refusal>
        ensures { ReadsPhrase (the_symbol symbol) no_literals self.old self.new result }
    {
        if self.skip(symbol) {
            Ok(())
        } else {
            Err(Refusal::Syntax)
        }
    }

    /// Reads this keyword. Fails with `Syntax` if it is not next.
    pub(crate) fn expect_keyword(&mut self, keyword: Keyword) -> Result<(), Refusal>
        ensures { ReadsPhrase (the_keyword keyword) no_literals self.old self.new result }
    {
        if self.skip_keyword(keyword) {
            Ok(())
        } else {
            Err(Refusal::Syntax)
        }
    }

    /// Reads a keyword, and returns it. Fails with `Syntax` if the next token is not a keyword. Allocates nothing.
    pub(crate) fn keyword(&mut self) -> Result<Keyword, Refusal>
        ensures { ReadsWithoutMemory (one_word keyword_named) no_literals self.old self.new result }
    {
        let word = self.word()?;
        Keyword::named(word).ok_or(Refusal::Syntax)
    }

    /// Reads a name, and returns a copy of it. Fails with `Syntax` if the next token is not a name. Allocates nothing.
    pub(crate) fn name(&mut self) -> Result<Name, Refusal>
        ensures { ReadsWithoutMemory name no_literals self.old self.new result }
    {
        let word = self.word()?;
        Name::new(word).ok_or(Refusal::Syntax)
    }

    /// Reads a name, and returns a reference to it in the line. Fails with `Syntax` if the next token is not a name. Allocates nothing.
    pub(crate) fn name_ref(&mut self) -> Result<NameRef<'a>, Refusal>
        ensures { ReadsWithoutMemory name no_literals self.old self.new result }
    {
        let word = self.word()?;
        NameRef::new(word).ok_or(Refusal::Syntax)
    }

    /// Reads a name in parentheses, and returns it. Fails with `Syntax` if one of the three is missing.
    pub(crate) fn name_in_parentheses(&mut self) -> Result<Name, Refusal>
        ensures { ReadsPhrase (in_parentheses name) no_literals self.old self.new result }
    {
        self.symbol(Symbol::Open)?;
        let name = self.name()?;
        self.symbol(Symbol::Close)?;
        Ok(name)
    }

    /// Reads `TREE` or `HASH`, and returns the kind of index. Fails with `Syntax` if neither is next.
    pub(crate) fn index_kind(&mut self) -> Result<IndexKind, Refusal>
        ensures { ReadsPhrase index_kind no_literals self.old self.new result }
    {
        match self.keyword()? {
            Keyword::Tree => Ok(IndexKind::Tree),
            Keyword::Hash => Ok(IndexKind::Hash),
            _ => Err(Refusal::Syntax),
        }
    }

    /// Reads `INT` or `TEXT`, and returns the type. Fails with `Syntax` if neither is next.
    pub(crate) fn col_type(&mut self) -> Result<ColType, Refusal>
        ensures { ReadsPhrase col_type no_literals self.old self.new result }
    {
        match self.keyword()? {
            Keyword::Int => Ok(ColType::Int),
            Keyword::Text => Ok(ColType::Text),
            _ => Err(Refusal::Syntax),
        }
    }

    /// Reads `=`, `<`, `<=`, `>` or `>=`, and returns the comparison. Fails with `Syntax` if none is next.
    pub(crate) fn comparison(&mut self) -> Result<Comparison, Refusal>
        ensures { ReadsPhrase comparison no_literals self.old self.new result }
    {
        let (symbol, rest) = self.rest.symbol().ok_or(Refusal::Syntax)?;
        let comparison = comparison_of(symbol).ok_or(Refusal::Syntax)?;
        self.rest = Lookahead::new(rest);
        Ok(comparison)
    }

    /// Reads a sign and the digits after it, and returns the number. Returns `None` and consumes nothing if no sign is next. A hole in
    /// place of the digits reads as 1. Records a number past its limit, and returns a zero in its place. Fails with `Syntax` if the sign is
    /// followed by neither digits nor a hole.
    pub(crate) fn shift(&mut self) -> Result<Option<i64>, Refusal>
        ensures { ReadsPhrase shift shift_literals self.old self.new result }
    {
        if self.skip(Symbol::Plus) {
            return self.behind_sign(false);
        }
        if self.skip(Symbol::Minus) {
            return self.behind_sign(true);
        }
        match self.rest.signed() {
            Some((word, rest)) => {
                self.rest = Lookahead::new(rest);
                self.number(true, word)
            }
            None => Ok(None),
        }
    }

    /// Reads a literal, and returns its value. Records a literal past its limit, and returns a zero in its place. Fails with `Syntax` if no
    /// literal is next, and with `Memory` if an allocation for a text fails.
    pub(crate) fn literal(&mut self) -> Result<Value, Refusal>
        ensures { ReadsPhrase (one literal_of) only_literal self.old self.new result }
    {
        self.skip_literal()?.ok_or(Refusal::Syntax)
    }

    /// Reads digits, and returns their value. Records a number past its limit, and returns a zero in its place. Fails with `Syntax` if no
    /// digits are next.
    pub(crate) fn position(&mut self) -> Result<usize, Refusal>
        ensures { ReadsPhrase position position_literals self.old self.new result }
    {
        let word = self.word()?;
        match read_int(false, word) {
            Ok(number) => Ok(number as usize),
            Err(limit) if is_limit(limit) => {
                self.fault = self.fault.or(Some(limit));
                Ok(0)
            }
            Err(refusal) => Err(refusal),
        }
    }

    /// Checks that the whole line was read. Fails with `Syntax` if tokens remain, and otherwise with `NumberOutOfRange` or `TextTooLong` if
    /// the first literal past its limit is a number or a text.
    pub(crate) fn finish(&self) -> Result<(), Refusal>
        ensures { Finishes self.now result }
    {
        if self.rest.token().is_some() {
            return Err(Refusal::Syntax);
        }
        match self.fault {
            Some(fault) => Err(fault),
            None => Ok(()),
        }
    }

    // Consumes a hole if it is next, and returns whether it was. Otherwise consumes nothing.
    fn skip_hole(&mut self) -> bool
        ensures { Skips the_hole self.old self.new result }
    {
        match self.rest.behind_hole() {
            Some(rest) => {
                self.rest = Lookahead::new(rest);
                true
            }
            None => false,
        }
    }

    // Reads the number of a shift after its sign, as [`Reader::shift`] returns it.
    fn behind_sign(&mut self, is_negative: bool) -> Result<Option<i64>, Refusal>
        ensures { ReadsPhrase (behind_sign is_negative) shift_literals self.old self.new result }
    {
        if self.skip_hole() {
            return Ok(Some(unit_shift(is_negative)));
        }
        self.digits(is_negative)
    }

    // Reads digits, and returns their value. Records a number past its limit, and returns a zero in its place. Fails with `Syntax` if no
    // digits are next.
    fn digits(&mut self, is_negative: bool) -> Result<Option<i64>, Refusal>
        ensures { ReadsPhrase (digits is_negative) shift_literals self.old self.new result }
    {
        let word = self.word()?;
        self.number(is_negative, word)
    }

    // Returns the value of a word of digits that was consumed, as [`Reader::digits`] does.
    fn number(&mut self, is_negative: bool, word: &[u8]) -> Result<Option<i64>, Refusal>
        ensures { ReadsPhrase (numbered is_negative word.now) shift_literals self.old self.new result }
    {
        match read_int(is_negative, word) {
            Ok(number) => Ok(Some(number)),
            Err(past) if is_limit(past) => {
                self.fault = self.fault.or(Some(past));
                Ok(Some(0))
            }
            Err(refusal) => Err(refusal),
        }
    }

    // Reads a word, and returns its bytes. Fails with `Syntax` if no word is next. Allocates nothing.
    fn word(&mut self) -> Result<&'a [u8], Refusal>
        ensures { MatchResult result (λ word. Gives (one word_of) no_literals self.old self.new word.now) (IsMissing (one word_of) self.old) }
    {
        match self.rest.word() {
            Some((word, rest)) => {
                self.rest = Lookahead::new(rest);
                Ok(word)
            }
            None => Err(Refusal::Syntax),
        }
    }
}

// Returns a shift by one, up or down.
fn unit_shift(is_negative: bool) -> i64
    ensures { result ≡ unit_shift is_negative }
{
    if is_negative { -1 } else { 1 }
}

// Returns the comparison that a symbol denotes.
fn comparison_of(symbol: Symbol) -> Option<Comparison>
    ensures { result ≡ comparison_of symbol }
{
    match symbol {
        Symbol::Equal => Some(Comparison::Equal),
        Symbol::Less => Some(Comparison::Less),
        Symbol::AtMost => Some(Comparison::LessOrEqual),
        Symbol::Greater => Some(Comparison::Greater),
        Symbol::AtLeast => Some(Comparison::GreaterOrEqual),
        _ => None,
    }
}

// Returns the value of a literal; a hole is 0. Fails with `Syntax` if the token is not a literal, and otherwise with `NumberOutOfRange` or
// `TextTooLong` if it is past its limit. May instead fail with `Memory`.
pub(crate) fn literal(alloc: Global, token: Token<'_>) -> Result<Value, Refusal>
    ensures { (t : Tok) → Shows token.entry t → AnswersOrMemory (checked literal_fault (literal_of t)) result }
{
    match token {
        Token::Word(bytes) | Token::Signed(bytes) | Token::Quoted(bytes) => {
            read_literal(alloc, bytes)
        }
        Token::Hole => Ok(Value::Int(0)),
        Token::Mark(_) | Token::Unreadable => Err(Refusal::Syntax),
    }
}

// Returns whether a literal past its limit has this refusal.
pub(crate) fn is_limit(refusal: Refusal) -> bool
    ensures { result ≡ is_limit refusal }
{
    matches!(refusal, Refusal::NumberOutOfRange | Refusal::TextTooLong)
}
