//! Reads commands from standard input, one a line, and writes their replies to standard output.
//!
//! Its status is 0 at the end of the input, 2 where a device failed or no buffer could be had, and 3 where the input has
//! more than 2^30 bytes.
#![tactic(auto)]

use mm_value::Watched;
use mmdb_core::{Limits, RunError, Totals, exit_status, run};
use std::io::{self, BufWriter};
use std::process::ExitCode;

/// The most bytes of an input: 2^30.
const MAX_INPUT: u64 = 1_073_741_824;

fn main(rt: HostRuntime) -> ExitCode {
    ExitCode::from(exit_status(&serve(&rt)))
}

fn serve(rt: &HostRuntime) -> Result<Totals, RunError> {
    let limits = Limits::new(MAX_INPUT).ok_or(RunError::TooLong)?;
    let output = BufWriter::new(rt.alloc(), io::writer(rt)).map_err(|_| RunError::Write)?;
    run(
        rt.alloc(),
        &mut Watched::new(rt.reader()),
        &mut Watched::new(output),
        limits,
    )
}
