// Sizes and places: document 01's "Sizes and the directory" and "Where a record lies". The laws of bytes, parts and laying stand here too, as
// definitions and proofs; `moving` has their code.
#![tactic(auto)]

ghost use Rattle.std.specs.Prelude.{◌≡◌, ◌/◌, ◌%◌};
ghost use Rattle.geometry.specs.Sizes.{sectors_of, lawful_length};
ghost use Rattle.geometry.specs.Places.{sectors_for, per_sector, place_of, bytes_for};
ghost use Rattle.geometry.specs.Places as Places;

// A place in an extent: one of its sectors, from 0 on, and a byte 0 to 360 of that sector.
#[derive(Clone, Copy)]
pub struct Place {
    pub sector: u32,
    pub byte: u32,
}

// How often q goes into p; 0 where q is 0.
fn quotient(p: u32, q: u32) -> u32
    ensures { result ≡ p / q }
{
    p.checked_div(q).unwrap_or(0)
}

// What is left of p behind that; p where q is 0.
fn remainder(p: u32, q: u32) -> u32
    ensures { result ≡ p % q }
{
    p.checked_rem(q).unwrap_or(p)
}

// The sizes that everything is measured by, and what follows from a length.
#[derive(Drop)]
pub struct Geometry {}

impl Geometry {
    // The bytes of a sector.
    pub const SECTOR: usize = 360;
    // The words of a sector.
    pub const WORDS: usize = 180;
    // The entries of a directory.
    pub const ENTRIES: usize = 18;
    // The bytes of an entry.
    pub const ENTRY: usize = 20;
    // The most sectors that an image has.
    pub const MOST_SECTORS: usize = 4096;
    // The most files that are open.
    pub const MOST_OPEN: usize = 4;
    // The most records that a file has.
    pub const MOST_RECORDS: u32 = 65535;
    // The byte behind a sector's last, where a place may stand.
    pub const SECTOR_END: u32 = 360;
    // The longest record, that of a blocked file, and that of a compressed file, with its code.
    pub const LONGEST: u16 = 3600;

    pub const LONGEST_BLOCKED: u16 = 360;

    pub const LONGEST_COMPRESSED: u16 = 132;

    pub const LONGEST_CODE: usize = 135;
    // The longest granule that shares its sector.
    pub const LONGEST_SHARED: u16 = 180;
    // The control byte that says: go on in the next sector.
    pub const GO_ON: u8 = 128;
    // A blank in EBCDIC.
    pub const BLANK: u8 = 0x40;
    // The kinds of entries.
    // Stays: numbers, since the bytes of an entry hold any (`entry_from`), and the public functions that take a kind are promised for all.
    pub const FREE: u16 = 0;

    pub const UNBLOCKED: u16 = 1;

    pub const BLOCKED: u16 = 2;

    pub const COMPRESSED: u16 = 3;

    pub const RANDOM: u16 = 4;

    // The sectors of an image.
    pub fn sectors_of(image: &[u8]) -> usize
        ensures { result ≡ sectors_of image.now }
    {
        image.len() / Geometry::SECTOR
    }

    // Whether an image is made of whole sectors, as many as an image may have.
    pub fn lawful_length(image: &[u8]) -> bool
        ensures { result ≡ lawful_length image.now }
    {
        let n = Geometry::sectors_of(image);
        (Geometry::SECTOR * n == image.len()) & ((1 <= n) & (n <= Geometry::MOST_SECTORS))
    }

    // The sectors that a record or granule of that length takes, where it takes whole ones.
    pub fn sectors_for(length: u16) -> u32
        ensures { result ≡ sectors_for length }
    {
        ((length as usize + 359) / Geometry::SECTOR) as u32
    }

    // The records or granules of that length in a sector, where they share it.
    pub fn per_sector(length: u16) -> u32
        ensures { result ≡ per_sector length }
    {
        quotient(Geometry::SECTOR as u32, length as u32)
    }

    // Whether records or granules of that kind and length share sectors.
    fn shares(kind: u16, length: u16) -> bool
        ensures { result ≡ Places.shares kind length }
    {
        (kind == Geometry::BLOCKED)
            | ((kind == Geometry::RANDOM) & (length <= Geometry::LONGEST_SHARED))
    }

    // The records or granules that an extent holds.
    pub fn capacity(kind: u16, length: u16, sectors: u16) -> u32
        ensures { result ≡ Places.capacity kind length sectors }
    {
        if Geometry::shares(kind, length) {
            let all = Geometry::per_sector(length) * (sectors as u32);
            if (kind == Geometry::BLOCKED) & (Geometry::MOST_RECORDS < all) {
                Geometry::MOST_RECORDS
            } else {
                all
            }
        } else {
            quotient(sectors as u32, Geometry::sectors_for(length))
        }
    }

    // The sector of the extent that record or granule k begins in.
    pub fn sector_of_record(kind: u16, length: u16, k: u32) -> usize
        ensures { result ≡ (place_of kind length k).sector }
    {
        if Geometry::shares(kind, length) {
            quotient(k, Geometry::per_sector(length)) as usize
        } else {
            (Geometry::sectors_for(length) as usize) * (k as usize)
        }
    }

    // The byte of that sector that it begins at.
    pub fn byte_of_record(kind: u16, length: u16, k: u32) -> usize
        ensures { result ≡ (place_of kind length k).byte }
    {
        if Geometry::shares(kind, length) {
            (remainder(k, Geometry::per_sector(length)) as usize) * (length as usize)
        } else {
            0
        }
    }

    // The bytes that a record or granule takes where it is written straight in the image.
    pub fn bytes_for(kind: u16, length: u16) -> usize
        ensures { result ≡ bytes_for kind length }
    {
        if Geometry::shares(kind, length) {
            length as usize
        } else {
            Geometry::SECTOR * (Geometry::sectors_for(length) as usize)
        }
    }
}
