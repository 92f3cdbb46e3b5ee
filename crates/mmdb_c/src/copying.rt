//! Copying bytes into the caller's memory.
ghost use Rattle.mmdb_c.specs.Copying.{CopiesFront};

/// Copies as many bytes as fit. The rest of `out` is unchanged.
pub(crate) fn copy_front(bytes: &[u8], out: &mut [u8])
    ensures { CopiesFront bytes.now out.old out.new }
{
    let count = bytes.len().min(out.len());
    out[..count].copy_from_slice(&bytes[..count]);
}
