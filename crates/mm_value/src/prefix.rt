//! Order-preserving prefixes of values.
ghost use Rattle.std.specs.Prelude.{◌≡◌, ◌<◌, ◌≤◌, ◌^◌};
ghost use Rattle.std.specs.declared.cmp.Ordering.TheVariants.{Less};
ghost use Rattle.mm_value.specs.declared.values.Value.{Value as Val};
ghost use Rattle.mm_value.specs.Order.{value_cmp};
ghost use Rattle.mm_value.specs.Prefix.{big_endian, order_prefix};

use crate::as_value::AsValue;
use crate::value_ref::ValueRef;

/// Returns a 64-bit number by which most values can be ordered without reading them. A value with a smaller number precedes in the value
/// order, and values with equal numbers must be compared. Whole numbers from -2^62 to 2^62 - 1 have distinct numbers, and numbers beyond
/// share that of the nearer end. A text has 2^63 plus half of its first 8 bytes in big-endian (the normalized keys of Graefe, Modern B-Tree
/// Techniques, 2011).
pub fn order_prefix<V: AsValue>(value: &V) -> u64
    ensures { result ≡ order_prefix (V.value value.now) }
{
    match value.as_value() {
        ValueRef::Int(number) => (number.clamp(-HALF, HALF - 1) + HALF) as u64,
        ValueRef::Text(text) => TEXTS + first_bytes(text.bytes()) / 2,
    }
}

/// Whole numbers from `-HALF` to `HALF - 1` have distinct prefixes.
const HALF: i64 = 1 << 62;

/// The least prefix of a text.
const TEXTS: u64 = 1 << 63;

/// The number of bytes of a text in its prefix.
const PREFIX_BYTES: usize = 8;

/// If the prefixes of two values differ, their order is that of the values.
pub fn prefixes_keep_order()
    ensures keeps { (a b : Val) → value_cmp a b ≡ Less → order_prefix a ≤ order_prefix b }
    ensures tells { (a b : Val) → order_prefix a < order_prefix b → value_cmp a b ≡ Less }
{}

// Returns the first 8 bytes in big-endian, with a 0 for each missing byte.
fn first_bytes(bytes: &[u8]) -> u64
    ensures value { result ≡ big_endian 8 bytes.now }
    ensures bound { result < 2 ^ 64 }
{
    let mut number: u64 = 0;
    for i in 0..PREFIX_BYTES {
        let byte = bytes.get(i).copied().unwrap_or(0);
        number = 256 * number + u64::from(byte);
    }
    number
}
