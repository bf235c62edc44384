// Where a sector, a record or a granule of a file lies in the image, and how much of a sector is left: document 01's "Where a record lies".
#![tactic(auto)]

ghost use Rattle.std.specs.Prelude.{◌≡◌, ◌+◌, ◌-◌, ◌*◌};
ghost use Rattle.geometry.specs.Places.{place_of, byte_of};
ghost use Rattle.geometry.specs.Sizes as Sizes;
ghost use Rattle.steps.specs.Effects.{sector_at};

use directory::Entry;
use geometry::Geometry;

// The byte of the image at which sector k of an entry's extent begins.
pub fn sector_at(e: Entry, k: u32) -> usize
    ensures { result ≡ sector_at e k }
{
    Geometry::SECTOR * ((e.first as usize) + (k as usize))
}

// The byte of the image at which record or granule k of an entry begins, as a file of that kind has it.
pub fn record_at(e: Entry, kind: u16, k: u32) -> usize
    ensures { result ≡ Sizes.sector * e.first + byte_of (place_of kind e.length k) }
{
    let sector = Geometry::sector_of_record(kind, e.length, k);
    let byte = Geometry::byte_of_record(kind, e.length, k);
    Geometry::SECTOR * ((e.first as usize) + sector) + byte
}

// How many bytes a sector has from that byte on.
pub fn room_behind(byte: usize) -> usize
    ensures { result ≡ Sizes.sector - byte }
{
    if byte <= Geometry::SECTOR {
        Geometry::SECTOR - byte
    } else {
        0
    }
}
