//! Texts.
ghost use Rattle.std.specs.Prelude.{◌≡◌, ◌≢◌, ◌⊎◌, ◌<◌, ◌≤◌, ◌↔◌, [], length, All, Any, IfOk, IfErr, IsErrOf, IsOk};
ghost use Rattle.mm_value.specs.Text.{IsText};
ghost use Rattle.mm_value.specs.declared.refusal.Refusal.TheVariants.{Syntax, TextTooLong, Memory};

use crate::refusal::Refusal;
use smallvec::SmallVec;
use std::alloc::{AllocError, Global};
use std::marker::Model;

/// A text: 0 to 64 bytes, any except a line feed. Up to 16 bytes are stored inline.
#[derive(Debug, Drop)]
pub struct Text {
    bytes: SmallVec<u8, 16>,
}

impl Model for Text {
    ghost use Rattle.std.specs.Prelude.{List, ℕ};
    ghost use Rattle.mm_value.specs.Text.{IsText};

    ghost Value = { List ℕ };

    ghost view = { λ t. t.bytes.items };

    ghost invariant = { λ t. IsText t.bytes.items };
}

/// The maximum length of a text in bytes.
pub const MAX_TEXT_BYTES: usize = 64;

impl Text {
    /// Returns a text of these bytes. Fails with `TextTooLong` if there are more than 64, and otherwise with `Syntax` if one is a line
    /// feed. Fails with `Memory` only for more than 16 bytes.
    pub fn new(alloc: Global, bytes: &[u8]) -> Result<Text, Refusal>
        ensures ok { IfOk result (λ text. text ≡ bytes.now) }
        ensures too_long { IsErrOf result Refusal.TextTooLong ↔ (64 < length bytes.now) }
        ensures line_feed { IsErrOf result Refusal.Syntax
            ↔ ((length bytes.now ≤ 64) × Any (λ b. b ≡ 10) bytes.now) }
        ensures refusals { IfErr result (λ e. (e ≡ TextTooLong) ⊎ ((e ≡ Syntax) ⊎ (e ≡ Memory))) }
        ensures short { length bytes.now ≤ 16 → All (λ b. b ≢ 10) bytes.now → IsOk result }
    {
        if bytes.len() > MAX_TEXT_BYTES {
            return Err(Refusal::TextTooLong);
        }
        if bytes.contains(&b'\n') {
            return Err(Refusal::Syntax);
        }
        Ok(Text {
            bytes: SmallVec::from_slice(alloc, bytes)?,
        })
    }

    /// Returns the empty text. Allocates nothing.
    pub fn empty(alloc: Global) -> Text
        ensures { result ≡ [] }
    {
        Text {
            bytes: SmallVec::new(alloc),
        }
    }

    /// Returns the bytes of the text: at most 64, and no line feed.
    pub fn bytes(&self) -> &[u8]
        ensures value { result.now ≡ self.now }
        ensures is_text { IsText self.now }
    {
        self.bytes.as_slice()
    }

    /// Returns a copy of the text. Fails with `AllocError` if an allocation fails; only more than 16 bytes need one.
    pub fn copy(&self, alloc: Global) -> Result<Text, AllocError>
        ensures ok { IfOk result (λ text. text ≡ self.now) }
        ensures short { length self.now ≤ 16 → IsOk result }
    {
        Ok(Text {
            bytes: SmallVec::from_slice(alloc, self.bytes())?,
        })
    }
}
