//! Places in a dump.
ghost use Rattle.std.specs.Prelude.{◌≡◌};
ghost use Rattle.mm_dump.specs.Places.{dump_start};

/// A place between two lines of a dump: the number of a part, and the number of a row in a part of rows. Any two numbers are a place.
#[derive(Clone, Copy, Debug)]
pub struct DumpPlace {
    pub part: usize,
    pub row: usize,
}

impl DumpPlace {
    /// Returns the start of a dump.
    pub fn start() -> DumpPlace
        ensures { result ≡ dump_start }
    {
        DumpPlace { part: 0, row: 0 }
    }
}
