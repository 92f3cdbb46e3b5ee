//! The keywords.
ghost use Rattle.std.specs.Prelude.{◌≡◌};
ghost use Rattle.std.specs.List.{filter, find};
ghost use Rattle.mm_lang.specs.Words.{is_word, keyword_named, keyword_text};
ghost use Rattle.mm_lang.specs.steps.Letters.{begins_keyword};
ghost use Rattle.mm_lang.specs.declared.read.keyword.TheConstants.{KEYWORDS};

/// A reserved word, in upper case. No name is a keyword, since names are in lower case.
#[derive(Clone, Copy, Debug, PartialEq, Eq)]
pub enum Keyword {
    And,
    Begin,
    Cascade,
    Commit,
    Delete,
    Distinct,
    Drop,
    Explain,
    From,
    Hash,
    Index,
    Insert,
    Int,
    Key,
    On,
    Order,
    Ref,
    Rollback,
    Savepoint,
    Scan,
    Select,
    Set,
    Show,
    Table,
    Tables,
    Text,
    To,
    Tree,
    Unwatch,
    Update,
    Watch,
    Where,
}

/// All keywords, in alphabetical order.
pub(crate) const KEYWORDS: [Keyword; 32] = [
    Keyword::And,
    Keyword::Begin,
    Keyword::Cascade,
    Keyword::Commit,
    Keyword::Delete,
    Keyword::Distinct,
    Keyword::Drop,
    Keyword::Explain,
    Keyword::From,
    Keyword::Hash,
    Keyword::Index,
    Keyword::Insert,
    Keyword::Int,
    Keyword::Key,
    Keyword::On,
    Keyword::Order,
    Keyword::Ref,
    Keyword::Rollback,
    Keyword::Savepoint,
    Keyword::Scan,
    Keyword::Select,
    Keyword::Set,
    Keyword::Show,
    Keyword::Table,
    Keyword::Tables,
    Keyword::Text,
    Keyword::To,
    Keyword::Tree,
    Keyword::Unwatch,
    Keyword::Update,
    Keyword::Watch,
    Keyword::Where,
];

impl Keyword {
    /// Returns the word of the keyword, in upper case.
    pub fn text(self) -> &'static [u8]
        ensures { result.now ≡ keyword_text self }
    {
        match self {
            Keyword::And => b"AND",
            Keyword::Begin => b"BEGIN",
            Keyword::Cascade => b"CASCADE",
            Keyword::Commit => b"COMMIT",
            Keyword::Delete => b"DELETE",
            Keyword::Distinct => b"DISTINCT",
            Keyword::Drop => b"DROP",
            Keyword::Explain => b"EXPLAIN",
            Keyword::From => b"FROM",
            Keyword::Hash => b"HASH",
            Keyword::Index => b"INDEX",
            Keyword::Insert => b"INSERT",
            Keyword::Int => b"INT",
            Keyword::Key => b"KEY",
            Keyword::On => b"ON",
            Keyword::Order => b"ORDER",
            Keyword::Ref => b"REF",
            Keyword::Rollback => b"ROLLBACK",
            Keyword::Savepoint => b"SAVEPOINT",
            Keyword::Scan => b"SCAN",
            Keyword::Select => b"SELECT",
            Keyword::Set => b"SET",
            Keyword::Show => b"SHOW",
            Keyword::Table => b"TABLE",
            Keyword::Tables => b"TABLES",
            Keyword::Text => b"TEXT",
            Keyword::To => b"TO",
            Keyword::Tree => b"TREE",
            Keyword::Unwatch => b"UNWATCH",
            Keyword::Update => b"UPDATE",
            Keyword::Watch => b"WATCH",
            Keyword::Where => b"WHERE",
        }
    }

    /// Returns the keyword with this word, or `None` if there is none.
    pub(crate) fn named(word: &[u8]) -> Option<Keyword>
        ensures { result ≡ keyword_named word.now }
    {
        if word.is_empty() {
            return None;
        }
        written_as(beginning_with(word[0]), word)
    }

    /// Returns whether a word is this keyword.
    pub(crate) fn is_word(self, word: &[u8]) -> bool
        ensures { result ≡ is_word self word.now }
    {
        word == self.text()
    }
}

// Returns the keywords that begin with a letter, in alphabetical order.
fn beginning_with(letter: u8) -> &'static [Keyword]
    ensures { result.now ≡ filter (begins_keyword letter) KEYWORDS }
{
    match letter {
        b'A' => &[Keyword::And],
        b'B' => &[Keyword::Begin],
        b'C' => &[Keyword::Cascade, Keyword::Commit],
        b'D' => &[Keyword::Delete, Keyword::Distinct, Keyword::Drop],
        b'E' => &[Keyword::Explain],
        b'F' => &[Keyword::From],
        b'H' => &[Keyword::Hash],
        b'I' => &[Keyword::Index, Keyword::Insert, Keyword::Int],
        b'K' => &[Keyword::Key],
        b'O' => &[Keyword::On, Keyword::Order],
        b'R' => &[Keyword::Ref, Keyword::Rollback],
        b'S' => &[
            Keyword::Savepoint,
            Keyword::Scan,
            Keyword::Select,
            Keyword::Set,
            Keyword::Show,
        ],
        b'T' => &[
            Keyword::Table,
            Keyword::Tables,
            Keyword::Text,
            Keyword::To,
            Keyword::Tree,
        ],
        b'U' => &[Keyword::Unwatch, Keyword::Update],
        b'W' => &[Keyword::Watch, Keyword::Where],
        _ => &[],
    }
}

// Returns the first of some keywords with this word.
fn written_as(keywords: &[Keyword], word: &[u8]) -> Option<Keyword>
    ensures { result ≡ find (λ keyword. is_word keyword word.now) keywords.now }
{
    keywords
        .iter()
        .copied()
        .find(|keyword| keyword.is_word(word))
}
