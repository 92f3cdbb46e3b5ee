//! Assertions of tests, proved once instead of at each use.
ghost use Rattle.std.specs.Prelude.{◌≡◌, true};

use std::fmt::Debug;
use std::process::Abort;

/// Ends the test with both values printed, unless they are equal.
pub fn assert_same<T: Copy + PartialEq + Debug>(rt: &impl Abort, got: T, want: T)
    ensures { T.eq got want ≡ true }
{
    assert_eq!(rt; got, want);
}

/// Ends the test unless the condition holds.
pub fn assert_that(rt: &impl Abort, condition: bool)
    ensures { condition ≡ true }
{
    assert!(rt; condition);
}
