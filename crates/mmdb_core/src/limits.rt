//! The limits of a run, and its totals.
ghost use Rattle.std.specs.Prelude.{◌≡◌, ◌^◌, ◌≤◌, ◌↔◌, IsSome, IfSome};

use std::marker::Model;

/// The largest limit of an input, in bytes: 2^40.
pub const MAX_MAX_INPUT: u64 = 1_099_511_627_776;

/// The limit of an input's length.
#[derive(Clone, Copy, Debug)]
pub struct Limits {
    max_input: u64,
}

impl Model for Limits {
    ghost use Rattle.std.specs.Prelude.{ℕ, ◌^◌, ◌≤◌};

    ghost Value = { ℕ };

    ghost view = { λ l. l.max_input };

    ghost invariant = { λ l. l.max_input ≤ 2 ^ 40 };

    ghost inverse = { λ n. record { max_input = n } };
}

impl Limits {
    /// Returns a limit of `max_input` bytes, or `None` if `max_input` exceeds 2^40.
    pub fn new(max_input: u64) -> Option<Limits>
        ensures variant { IsSome result ↔ (max_input ≤ 2 ^ 40) }
        ensures value { IfSome result (λ limits. limits ≡ max_input) }
    {
        if max_input > MAX_MAX_INPUT {
            return None;
        }
        Some(Limits { max_input })
    }

    /// Returns the most bytes of an input.
    pub fn max_input(self) -> u64
        ensures value { result ≡ self }
        ensures bound { result ≤ 2 ^ 40 }
    {
        self.max_input
    }
}

/// The totals of a run.
#[derive(Clone, Copy, Debug, PartialEq, Eq)]
pub struct Totals {
    /// The number of lines of the input.
    pub lines: u64,
    /// The number of lines whose reply is an `error`.
    pub refused: u64,
}
