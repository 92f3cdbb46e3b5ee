//! Names.
ghost use Rattle.std.specs.Prelude.{◌≡◌, ◌↔◌, IsSome, IfSome};
ghost use Rattle.std.specs.List.{list_all};
ghost use Rattle.mm_schema.specs.Name.{IsName, is_name, is_name_byte, is_name_text};

use arrayvec::ArrayVec;
use std::marker::Model;

/// The maximum length of a name in bytes.
const MAX_NAME_BYTES: usize = 32;

/// A name: `a` to `z`, followed by `a` to `z`, `0` to `9` and `_`, at most 32 bytes in all. Stored inline.
#[derive(Debug, PartialEq, Eq, Hash, Drop)]
pub struct Name {
    bytes: ArrayVec<u8, 32>,
}

impl Model for Name {
    ghost use Rattle.std.specs.Prelude.{List, ℕ};
    ghost use Rattle.mm_schema.specs.Name.{IsName};

    ghost Value = { List ℕ };

    ghost view = { λ n. n.bytes.items };

    ghost invariant = { λ n. IsName n.bytes.items };

    ghost inverse = { λ bytes. record { bytes = record { items = bytes } } };
}

/// A reference to a name, for example in a line: `a` to `z`, followed by `a` to `z`, `0` to `9` and `_`, at most 32 bytes in all.
#[derive(Debug, Drop)]
pub struct NameRef<'l> {
    bytes: &'l [u8],
}

impl<'l> Model for NameRef<'l> {
    ghost use Rattle.std.specs.Prelude.{List, ℕ};
    ghost use Rattle.mm_schema.specs.Name.{IsName};

    ghost Value = { List ℕ };

    ghost view = { λ n. n.bytes.now };

    ghost invariant = { λ n. IsName n.bytes.now };
}

impl<'l> PartialEq for NameRef<'l> {
    ghost use Rattle.std.specs.Cmp.{partial_equiv_from_equiv};
    ghost use Rattle.std.specs.Cmp.Lexicographic.{nat_list_eq_equiv};
    ghost use Rattle.mm_schema.specs.Name.{same_name};

    ghost eq = { same_name };

    ghost laws = { partial_equiv_from_equiv nat_list_eq_equiv };

    fn eq(&self, other: &NameRef<'l>) -> bool {
        self.bytes == other.bytes
    }
}

impl<'l> NameRef<'l> {
    /// Returns a reference to the name with these bytes, or `None` if they are not a name. Copies nothing.
    pub fn new(bytes: &'l [u8]) -> Option<NameRef<'l>>
        ensures variant { IsSome result ↔ IsName bytes.now }
        ensures value { IfSome result (λ name. name ≡ bytes.now) }
    {
        if !is_name(bytes) {
            return None;
        }
        Some(NameRef { bytes })
    }

    /// Returns the bytes of the name: 1 to 32.
    pub fn bytes(&self) -> &'l [u8]
        ensures value { result.now ≡ self.now }
        ensures is_name { IsName self.now }
    {
        self.bytes
    }

    /// Returns a copy of the name. Allocates nothing.
    pub fn to_name(&self) -> Name
        ensures { result ≡ self.now }
    {
        let bytes = ArrayVec::try_from(self.bytes()).unwrap();
        Name { bytes }
    }
}

impl Name {
    /// Returns the name with these bytes, or `None` if they are not a name.
    pub fn new(bytes: &[u8]) -> Option<Name>
        ensures variant { IsSome result ↔ IsName bytes.now }
        ensures value { IfSome result (λ name. name ≡ bytes.now) }
    {
        let name = NameRef::new(bytes)?;
        Some(name.to_name())
    }

    /// Returns a reference to the name.
    pub fn as_ref(&self) -> NameRef<'_>
        ensures { result ≡ self.now }
    {
        NameRef {
            bytes: self.bytes(),
        }
    }

    /// Returns a copy of the name. Allocates nothing.
    pub fn copy(&self) -> Name
        ensures { result ≡ self.now }
    {
        self.as_ref().to_name()
    }

    /// Returns the bytes of the name: 1 to 32.
    pub fn bytes(&self) -> &[u8]
        ensures value { result.now ≡ self.now }
        ensures is_name { IsName self.now }
    {
        self.bytes.as_slice()
    }
}

/// Returns whether bytes are a name.
fn is_name(bytes: &[u8]) -> bool
    ensures { result ≡ is_name bytes.now }
{
    is_name_text(bytes) && bytes.len() <= MAX_NAME_BYTES
}

/// Returns whether bytes are a letter followed by letters, digits and `_`.
#[tactic(auto, using(crate::proofs::NameLemmas::text_of_parts))]
fn is_name_text(bytes: &[u8]) -> bool
    ensures { result ≡ is_name_text bytes.now }
{
    match bytes {
        [] => false,
        [first, others @ ..] => first.is_ascii_lowercase() && are_name_bytes(others),
    }
}

/// Returns whether a name may contain each byte after its first.
fn are_name_bytes(bytes: &[u8]) -> bool
    ensures { result ≡ list_all is_name_byte bytes.now }
{
    bytes.iter().all(|b| is_name_byte(*b))
}

/// Returns whether a name may contain a byte after its first.
fn is_name_byte(byte: u8) -> bool
    ensures { result ≡ is_name_byte byte }
{
    matches!(byte, b'a'..=b'z' | b'0'..=b'9' | b'_')
}
