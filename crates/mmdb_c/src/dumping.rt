//! The exported calls that write a dump, piece by piece, and single lines of it.
ghost use Rattle.std.specs.Prelude.{◌≡◌, true};
ghost use Rattle.mm_dump.specs.Places.{dump_start};
ghost use Rattle.mmdb_c.specs.Calls.{OnOpen};
ghost use Rattle.mmdb_c.specs.Definitions.{TellsDefinition};
ghost use Rattle.mmdb_c.specs.Dumping.{Dumps, place_in};
ghost use Rattle.mmdb_c.specs.Lent.{held};
ghost use Rattle.mmdb_c.specs.Statuses.{misuse};

use crate::handle::Handle;
use crate::status::MISUSE;
use mm_session::DumpPlace;
use std::alloc::Global;

/// The least number of bytes for a piece: a line of 4,096 bytes and its line feed.
pub(crate) const DUMP_ROOM: usize = 4097;

/// A place in a dump in its C layout, and the version of the database that is dumped.
#[repr(C)]
#[derive(Clone, Copy)]
pub struct DumpCell {
    part: usize,
    row: usize,
    version: u64,
}

impl DumpCell {
    /// Returns a place in the dump of a version.
    pub(crate) fn of(place: DumpPlace, version: u64) -> DumpCell
        ensures { place_in result ≡ place }
    {
        DumpCell {
            part: place.part,
            row: place.row,
            version,
        }
    }

    /// Returns the place.
    pub(crate) fn place(&self) -> DumpPlace
        ensures { result ≡ place_in self.now }
    {
        DumpPlace {
            part: self.part,
            row: self.row,
        }
    }

    /// Returns whether a dump of the version can continue here, or start.
    pub(crate) fn continues(&self, version: u64) -> bool
        ensures { place_in self.now ≡ dump_start → result ≡ true }
    {
        (self.part == 0 && self.row == 0) || self.version == version
    }
}

/// Copies the next piece of the dump, writes its length, and moves the place after it. Returns `DONE`; the number of `Memory`; or `MISUSE`
/// if `bytes` has less than [`DUMP_ROOM`] bytes, a command has changed the database since the dump began, or the handle is closed. If it
/// fails, nothing is written.
#[unsafe(no_mangle)]
pub extern "C" fn mmdb_dump(
    alloc: Global,
    db: &mut Handle,
    place: &mut DumpCell,
    bytes: &mut [u8],
    length: &mut usize,
) -> u8
    ensures { OnOpen (Dumps place.old place.new bytes.old bytes.new length.old length.new result)
        ((result ≡ misuse) × (place.new ≡ place.old) × (bytes.new ≡ bytes.old) × (length.new ≡ length.old)) (held db.old) (held db.new) }
{
    if !db.is_open() {
        return MISUSE;
    }
    db.as_mut().dump(alloc, place, bytes, length)
}

/// Copies as many bytes as fit of the line that defines a table, an index or a standing query, and writes its full length. Returns `DONE`;
/// the number of `Syntax` if the bytes are not a name, of the refusal if no object of the kind has the name, or of `Memory`; or `MISUSE` if
/// the number is not that of a kind or the handle is closed. If it fails, nothing is written.
#[unsafe(no_mangle)]
pub extern "C" fn mmdb_definition(
    alloc: Global,
    db: &mut Handle,
    kind: u8,
    name: &[u8],
    bytes: &mut [u8],
    needed: &mut usize,
) -> u8
    ensures { OnOpen (TellsDefinition kind name.now bytes.old bytes.new needed.old needed.new result)
        ((result ≡ misuse) × (bytes.new ≡ bytes.old) × (needed.new ≡ needed.old)) (held db.old) (held db.new) }
{
    if !db.is_open() {
        return MISUSE;
    }
    db.as_mut().definition(alloc, kind, name, bytes, needed)
}
