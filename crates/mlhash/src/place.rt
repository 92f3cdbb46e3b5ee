//! Addresses: the bucket of a hash, and how the number of buckets grows and shrinks.
ghost use Rattle.std.specs.Prelude.{◌≡◌, ◌+◌, ◌*◌, ◌^◌, ◌<◌};
ghost use Rattle.mlhash.specs.Address.{bucket_of, place_after};

/// The progress of splitting (Litwin, VLDB 1980): level i began with 4 * 2^i buckets, and those below `split` have been split since.
#[derive(Clone, Copy, Drop)]
pub(crate) struct Place {
    /// The level.
    pub(crate) level: u32,
    /// The bucket that is split next.
    pub(crate) split: usize,
}

/// Returns the bucket of a hash.
pub(crate) fn bucket_of(place: Place, hash: u64) -> usize
    requires { place.level < 32 }
    ensures { result ≡ bucket_of place hash }
{
    let low = (hash & ((4 << place.level) - 1)) as usize;
    if low < place.split {
        (hash & ((8 << place.level) - 1)) as usize
    } else {
        low
    }
}

/// Returns the place after one more split.
pub(crate) fn place_after(place: Place) -> Place
    requires level { place.level < 32 }
    requires split { place.split < 4 * 2 ^ place.level }
    ensures { result ≡ place_after place }
{
    if place.split + 1 == 4 << place.level {
        Place {
            level: place.level + 1,
            split: 0,
        }
    } else {
        Place {
            level: place.level,
            split: place.split + 1,
        }
    }
}

/// Returns the place before the latest split. Requires that there was one.
pub(crate) fn place_before(place: Place) -> Place
    requires level { place.level < 32 }
    requires split { place.split < 4 * 2 ^ place.level }
    requires some { 0 < place.level + place.split }
    ensures { place_after result ≡ place }
{
    if place.split == 0 {
        let level = place.level - 1;
        Place {
            level,
            split: (4 << level) - 1,
        }
    } else {
        Place {
            level: place.level,
            split: place.split - 1,
        }
    }
}
