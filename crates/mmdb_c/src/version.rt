//! The version of the library.
ghost use Rattle.std.specs.Prelude.{◌≡◌};
ghost use Rattle.mmdb_c.specs.Versions.{version};

/// The version, as MMDB_VERSION of the header: major * 1000000 + minor * 1000 + patch.
const VERSION: u32 = 1_001_000;

/// Returns the version of the library.
#[unsafe(no_mangle)]
pub extern "C" fn mmdb_version() -> u32
    ensures { result ≡ version }
{
    VERSION
}
