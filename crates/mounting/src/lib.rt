// Mounting an image: document 01's "Sizes and the directory". The directory is judged where it lies.
#![tactic(auto)]

ghost use Rattle.std.specs.Prelude.{◌≡◌, ◌≤◌, length};
ghost use Rattle.geometry.specs.Lists.{every};
ghost use Rattle.geometry.specs.Sizes.{sector};
ghost use Rattle.directory.specs.Entries.{entry_at, table_of};
ghost use Rattle.mounting.specs.Mounting.{count_decodes, mounts};

use directory::Entry;
use geometry::Geometry;
use tables::{Width, entry_in, table_good};

// Whether a compressed file's first count records decode one after another inside the extent; any other entry has none to decode.
fn count_decodes(image: &[u8], e: Entry) -> bool
    ensures { result ≡ count_decodes image.now e }
{
    if e.kind != Geometry::COMPRESSED {
        return true;
    }
    let at = Geometry::SECTOR * (e.first as usize);
    let n = Geometry::SECTOR * (e.sectors as usize);
    let bytes = moving::part(image, at, n);
    walking::walk(bytes, e.sectors, e.length, e.count).is_ok()
}

// Entry i of the directory.
fn entry_of(image: &[u8], i: usize) -> Entry
    requires { sector ≤ length image.now }
    ensures { result ≡ entry_at (table_of image.now) i }
{
    entry_in(image, Width::ONE, Geometry::ENTRIES, i)
}

// Whether every entry of the directory keeps the decoding rule.
fn all_decode(image: &[u8]) -> bool
    requires { sector ≤ length image.now }
    ensures { result ≡ every (count_decodes image.now) (table_of image.now) }
{
    (0..Geometry::ENTRIES).all(|i| count_decodes(image, entry_of(image, i)))
}

// Whether an image has a lawful length and a good directory.
pub fn mounts(image: &[u8]) -> bool
    ensures { result ≡ mounts image.now }
{
    if !Geometry::lawful_length(image) {
        return false;
    }
    let n = Geometry::sectors_of(image) as u32;
    table_good(image, Width::ONE, Geometry::ENTRIES, n) && all_decode(image)
}
