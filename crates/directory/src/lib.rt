// The directory: document 01's "Sizes and the directory".
#![tactic(auto)]

ghost use Rattle.std.specs.Prelude.{◌≡◌};
ghost use Rattle.geometry.specs.Bytes.{padded};
ghost use Rattle.geometry.specs.Bytes as Bytes;
ghost use Rattle.directory.specs.Entries.{entry_from, entry_bytes, one_word, free_entry, table_of, entry_at, is_marked, is_protected};
ghost use Rattle.directory.specs.Search.{matches};
ghost use Rattle.directory.specs.Stamp.{stamp_bytes, stamped};

use geometry::Geometry;
use moving::{lay, part, word_at};

// A directory entry: bytes 0-7 name, then kind, R, first sector, number of sectors, count of records, flags.
#[derive(Clone, Copy)]
pub struct Entry {
    pub name: [u8; 8],
    pub kind: u16,
    pub length: u16,
    pub first: u16,
    pub sectors: u16,
    pub count: u32,
    pub flags: u16,
}

// ---- an entry and its 20 bytes

// The name in the first 8 bytes of an entry, with zeros past the end.
fn name_from(b: &[u8]) -> [u8; 8]
    ensures { result ≡ padded 0 8 (Bytes.part b.now 0 8) }
{
    let mut name = [0; 8];
    lay(&mut name, 0, part(b, 0, 8));
    name
}

// The entry that 20 bytes hold.
pub fn entry_from(b: &[u8]) -> Entry
    ensures { result ≡ entry_from b.now }
{
    let name = name_from(b);
    let kind = word_at(b, 8);
    let length = word_at(b, 10);
    let first = word_at(b, 12);
    let sectors = word_at(b, 14);
    let count = word_at(b, 16);
    let flags = word_at(b, 18);
    Entry {
        name: name,
        kind: kind,
        length: length,
        first: first,
        sectors: sectors,
        count: count as u32,
        flags: flags,
    }
}

// The 20 bytes of an entry, which have room for the last 16 bits of its count.
pub fn entry_bytes(e: Entry) -> [u8; 20]
    ensures { result ≡ entry_bytes (one_word e) }
{
    let mut b = [0; 20];
    lay(&mut b, 0, &e.name);
    lay(&mut b, 8, &e.kind.to_be_bytes());
    lay(&mut b, 10, &e.length.to_be_bytes());
    lay(&mut b, 12, &e.first.to_be_bytes());
    lay(&mut b, 14, &e.sectors.to_be_bytes());
    lay(&mut b, 16, &((e.count % 65536) as u16).to_be_bytes());
    lay(&mut b, 18, &e.flags.to_be_bytes());
    b
}

// ---- the table

// An entry of 20 zero bytes.
// Stays: a function, since its clause names `free_entry`; the clause of a derived Default would name no definition.
pub fn free_entry() -> Entry
    ensures { result ≡ free_entry }
{
    Entry {
        name: [0; 8],
        kind: 0,
        length: 0,
        first: 0,
        sectors: 0,
        count: 0,
        flags: 0,
    }
}

// Entry i of an image's directory; a free one where there is none.
pub fn entry_at(image: &[u8], i: usize) -> Entry
    ensures { result ≡ entry_at (table_of image.now) i }
{
    if i < Geometry::ENTRIES {
        entry_from(part(image, Geometry::ENTRY * i, Geometry::ENTRY))
    } else {
        free_entry()
    }
}

// Whether an entry's file is marked.
pub fn is_marked(e: Entry) -> bool
    ensures { result ≡ is_marked e }
{
    e.flags % 2 == 1
}

// Whether an entry's file is write protected.
pub fn is_protected(e: Entry) -> bool
    ensures { result ≡ is_protected e }
{
    2 <= e.flags
}

// ---- an entry found by name

// Whether a used entry has that name.
pub fn is_named(e: Entry, name: &[u8]) -> bool
    ensures { result ≡ matches name.now e }
{
    if (name.len() == 8) & (e.kind != Geometry::FREE) {
        e.name.as_slice() == name
    } else {
        false
    }
}

// ---- what closing a file writes

// Count and flags as four bytes.
fn stamp_bytes(count: u32, flags: u16) -> [u8; 4]
    ensures { result ≡ stamp_bytes count flags }
{
    let [a, b] = ((count % 65536) as u16).to_be_bytes();
    let [c, d] = flags.to_be_bytes();
    [a, b, c, d]
}

// Writes count and flags to bytes 16 to 19 of entry i, if there is such an entry.
pub fn stamp(image: &mut [u8], i: usize, count: u32, flags: u16)
    ensures { image.new ≡ stamped image.old i count flags }
{
    if i < Geometry::ENTRIES {
        let b = stamp_bytes(count, flags);
        lay(image, Geometry::ENTRY * i + 16, &b);
    }
}
