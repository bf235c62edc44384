// The rules of one entry of a good directory, but that of its name: document 01's "Sizes and the directory".
#![tactic(auto)]

ghost use Rattle.std.specs.Prelude.{◌≡◌};
ghost use Rattle.geometry.specs.Sizes.{unblocked, blocked, compressed, random};
ghost use Rattle.directory.specs.Rules.{extent_fits};
ghost use Rattle.directory.specs.Grouped.{length_up_to, sizes_good, used_good};

use directory::{Entry, is_marked};
use geometry::Geometry;

// An entry's extent lies in an image of n sectors, behind the directory.
fn extent_inside(e: Entry, n: u32) -> bool
    ensures { result ≡ extent_fits n e }
{
    (1 <= e.first) & ((1 <= e.sectors) & ((e.first as u32) + (e.sectors as u32) <= n))
}

// R is even, and from 2 to the most that there may be.
fn length_good(e: Entry, most: u16) -> bool
    ensures { result ≡ length_up_to most e }
{
    (e.length % 2 == 0) & ((2 <= e.length) & (e.length <= most))
}

// R and the count of an unblocked file. As many records as the count take no more sectors than there are: that spares a division.
fn unblocked_good(e: Entry) -> bool
    requires { e.kind ≡ unblocked }
    ensures { result ≡ sizes_good e }
{
    if !length_good(e, Geometry::LONGEST) {
        return false;
    }
    (e.count as usize) * (Geometry::sectors_for(e.length) as usize) <= (e.sectors as usize)
}

// Those of a blocked file.
fn blocked_good(e: Entry) -> bool
    requires { e.kind ≡ blocked }
    ensures { result ≡ sizes_good e }
{
    if !length_good(e, Geometry::LONGEST_BLOCKED) {
        return false;
    }
    e.count <= Geometry::capacity(e.kind, e.length, e.sectors)
}

// Those of a compressed file.
fn compressed_good(e: Entry) -> bool
    requires { e.kind ≡ compressed }
    ensures { result ≡ sizes_good e }
{
    if !length_good(e, Geometry::LONGEST_COMPRESSED) {
        return false;
    }
    e.count <= Geometry::MOST_RECORDS
}

// Those of a random file, which has no count and no mark.
fn random_good(e: Entry) -> bool
    requires { e.kind ≡ random }
    ensures { result ≡ sizes_good e }
{
    if !length_good(e, Geometry::LONGEST) {
        return false;
    }
    (e.count == 0) & !is_marked(e)
}

// Whether an entry is a used one and keeps the rules of one but that of its name, in an image of n sectors.
pub fn used_good(e: Entry, n: u32) -> bool
    ensures { result ≡ used_good n e }
{
    if !extent_inside(e, n) {
        return false;
    }
    if 3 < e.flags {
        return false;
    }
    if Geometry::BLOCKED < e.kind {
        match e.kind {
            Geometry::COMPRESSED => compressed_good(e),
            Geometry::RANDOM => random_good(e),
            _ => false,
        }
    } else {
        match e.kind {
            Geometry::UNBLOCKED => unblocked_good(e),
            Geometry::BLOCKED => blocked_good(e),
            _ => false,
        }
    }
}
