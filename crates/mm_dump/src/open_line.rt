//! The length of a line that is being written.
ghost use Rattle.std.specs.Prelude.{◌≡◌, ◌≤◌, ◌+◌, ◌&&◌, nat_le, nat_lt};

use mm_lang::MAX_LINE_BYTES;
use std::marker::Model;

/// The greatest length that is counted: one byte more than a line has.
pub(crate) const MAX_COUNTED_BYTES: usize = MAX_LINE_BYTES + 1;

/// The number of bytes of the open line: 0 if no line is open, and 4,097 if the line is longer than 4,096 bytes.
#[derive(Drop)]
pub(crate) struct OpenLine {
    used: usize,
}

impl Model for OpenLine {
    ghost use Rattle.std.specs.Prelude.{◌≤◌, ℕ};

    ghost Value = { ℕ };

    ghost view = { λ l. l.used };

    ghost invariant = { λ l. l.used ≤ 4097 };
}

impl OpenLine {
    /// Returns a line of `used` bytes.
    pub(crate) fn of(used: usize) -> OpenLine
        requires { used ≤ 4097 }
        ensures { result ≡ used }
    {
        OpenLine { used }
    }

    /// Returns whether a line is open.
    pub(crate) fn is_open(&self) -> bool
        ensures { result ≡ nat_lt 0 self.now }
    {
        self.used > 0
    }

    /// Returns whether a row of `len` bytes fits into the line, after a comma and a space.
    pub(crate) fn has_room(&self, len: usize) -> bool
        requires { len ≤ 4097 }
        ensures { result ≡ (nat_lt 0 self.now && nat_le (self.now + len + 2) 4096) }
    {
        self.used > 0 && self.used + len + 2 <= MAX_LINE_BYTES
    }

    /// Counts a row of `len` bytes, with a comma and a space before it.
    pub(crate) fn count_row(&mut self, len: usize)
        requires { self.old + len + 2 ≤ 4096 }
        ensures { self.new ≡ self.old + len + 2 }
    {
        self.used += len + 2;
    }
}
