//! Each allocation of a call fails in turn. Then everything that the call could have changed is as before, and the call succeeds when it is
//! repeated.
//!
//! One allocation fails in each run, or it and all later ones until a line is written, since some calls try again. If it is before or after
//! the call, the test ends, since other runs fail those of the call. A call that only passes its arguments on is tested with the call that
//! does so.
mod changes;
mod definitions;
mod reads;
mod shows;

use std::io;

/// Writes that an allocation of a call failed and the call is repeated. A run with failed allocations looks for this line.
pub fn asked_again(rt: &impl Print) -> io::Result<()> {
    rt.println("refused")
}
