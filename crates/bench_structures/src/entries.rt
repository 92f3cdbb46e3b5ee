//! The inserted entries: number n has a pseudorandom key and the reference of slot n.
ghost use Rattle.std.specs.Prelude.{◌<◌};

use mm_value::RowRef;
use std::alloc::{AllocError, Global};

/// The factor and the addend of a shuffle that visits each number below 10^k or 2^k once (Hull and Dobell, SIAM Review 1962: 4 and 5 divide
/// the factor minus 1, and neither 2 nor 5 divides the addend).
const FACTOR: usize = 1_664_521;

const ADDEND: usize = 1_013_904_223;

/// A key and its reference.
#[derive(Clone, Copy, Drop)]
pub(crate) struct Entry {
    pub(crate) key: u64,
    pub(crate) reference: RowRef,
}

/// Returns the key of a number (the finalizer of SplitMix64).
pub(crate) fn key_of(n: u32) -> u64 {
    let a = u64::from(n).wrapping_add(0x9E37_79B9_7F4A_7C15);
    let b = (a ^ (a >> 30)).wrapping_mul(0xBF58_476D_1CE4_E5B9);
    let c = (b ^ (b >> 27)).wrapping_mul(0x94D0_49BB_1331_11EB);
    c ^ (c >> 31)
}

/// Returns the number below `n` that follows in the shuffle.
pub(crate) fn after(number: usize, n: usize) -> usize
    requires { 0 < n }
    ensures { result < n }
{
    number.wrapping_mul(FACTOR).wrapping_add(ADDEND) % n
}

/// Returns the entries of the numbers below `n`, shuffled.
pub(crate) fn shuffled(alloc: Global, n: u32) -> Result<Vec<Entry>, AllocError> {
    let mut entries = Vec::with_capacity(alloc, n as usize)?;
    let mut number = 0;
    for _ in 0..n {
        entries.push(Entry {
            key: key_of(number),
            reference: RowRef { slot: number },
        })?;
        number = after(number as usize, n as usize) as u32;
    }
    Ok(entries)
}
