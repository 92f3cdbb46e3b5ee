//! Hashes of templates.

/// An odd number with irregular bits, by which a hash is multiplied.
const MULTIPLIER: u64 = 0x9e37_79b9_7f4a_7c15;

/// Returns a hash of a template's bytes, read 8 at a time. Templates with equal hashes may differ.
pub(crate) fn template_hash(template: &[u8]) -> u64 {
    let mut hash = template.len() as u64;
    let mut left = template;
    while let [a, b, c, d, e, f, g, h, rest @ ..] = left {
        let word = u64::from_le_bytes([*a, *b, *c, *d, *e, *f, *g, *h]);
        hash = mixed(hash, word);
        left = rest;
    }
    let mut word = 0;
    for byte in left {
        word = (word << 8) | u64::from(*byte);
    }
    mixed(hash, word)
}

/// Returns a hash with a further word.
fn mixed(hash: u64, word: u64) -> u64 {
    let product = (hash ^ word).wrapping_mul(MULTIPLIER);
    product ^ (product >> 32)
}
