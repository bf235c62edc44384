// Compressed records in the sectors of an extent: document 01's "Compressed records". Where a coded record goes, and where reading leads; how it
// leads there is a definition here (specs/Reading.antt).
#![tactic(auto)]

ghost use Rattle.std.specs.Prelude.{◌≡◌};
ghost use Rattle.packing.specs.Placing.{fits_here, goes_to, has_room};

use geometry::{Geometry, Place};

// Why reading leads nowhere: the place of the byte at which a code is bad.
#[derive(Clone, Copy)]
pub struct BadPlace {
    pub place: Place,
}

// Whether a coded record of e bytes goes at the place p itself.
pub fn fits_here(p: Place, e: usize) -> bool
    ensures { result ≡ fits_here p e }
{
    if Geometry::SECTOR < e {
        return false;
    }
    (p.byte as usize) + e <= Geometry::SECTOR
}

// The sector that a coded record of e bytes goes to from the place p.
// Stays: a Place's u32 may not hold the next sector's number, so one function for both would give a struct of two usize that its caller takes apart.
pub fn goes_to_sector(p: Place, e: usize) -> usize
    ensures { result ≡ (goes_to p e).sector }
{
    let s = p.sector as usize;
    if fits_here(p, e) { s } else { s + 1 }
}

// The byte of that sector that it goes at.
pub fn goes_to_byte(p: Place, e: usize) -> usize
    ensures { result ≡ (goes_to p e).byte }
{
    if fits_here(p, e) { p.byte as usize } else { 0 }
}

// Whether a coded record of e bytes has room at the place p of an extent of so many sectors.
pub fn has_room(sectors: u16, p: Place, e: usize) -> bool
    ensures { result ≡ has_room sectors p e }
{
    goes_to_sector(p, e) < (sectors as usize)
}
