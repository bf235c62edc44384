// The directory listing: document 01's "Listing".
#![tactic(auto)]

ghost use Rattle.std.specs.Prelude.{◌≡◌, [], ◌∷◌, ◌++◌, ◌<◌, ◌==◌, min, length};
ghost use Rattle.std.specs.List.{position};
ghost use Rattle.std.proofs.lemmas.List.Edits.{sets};
ghost use Rattle.directory.specs.Entries.{table_of};
ghost use Rattle.texts.specs.Texts.{decimal, spaced, Wrote};
ghost use Rattle.listing.specs.Listing.{name_text, line, lines_from, is_short, listing};

use characters::translate;
use directory::Entry;
use geometry::Geometry;
use texts::{put_all, put_byte, put_number};

// Where the first blank stands, if there is one.
// Stays: a function of its own; `names::is_name` goes over a name's bytes too, and asks for no place.
fn blank_in(x: &[u8]) -> Option<usize>
    ensures { result ≡ position (λ c. c == Geometry.BLANK) x.now }
{
    x.iter().position(|c| *c == Geometry::BLANK)
}

// Puts a name in ASCII without its trailing blanks.
fn put_letters(out: &mut [u8], at: usize, x: [u8; 8]) -> usize
    ensures { Wrote out.old at (name_text x) out.new result }
{
    let mut letters = x;
    translate(&mut letters, 8);
    let end = blank_in(&x).unwrap_or(8);
    put_all(out, at, &letters[..end])
}

// Puts a name, and a blank behind it.
fn put_name(out: &mut [u8], at: usize, x: [u8; 8]) -> usize
    ensures { Wrote out.old at (name_text x ++ (32 ∷ [])) out.new result }
{
    let a = put_letters(out, at, x);
    put_byte(out, a, b' ')
}

// Puts the words of a line behind the kind.
fn put_sizes(out: &mut [u8], at: usize, e: Entry) -> usize
    ensures { Wrote out.old at (spaced (decimal e.length ∷ decimal e.first ∷ decimal e.sectors ∷ decimal e.count ∷ decimal e.flags ∷ [])) out.new result }
{
    let a = put_number(out, at, e.length as u32, b' ');
    let b = put_number(out, a, e.first as u32, b' ');
    let c = put_number(out, b, e.sectors as u32, b' ');
    let d = put_number(out, c, e.count, b' ');
    put_number(out, d, e.flags as u32, b'\n')
}

// Puts the line of entry i.
fn put_line(out: &mut [u8], at: usize, i: u32, e: Entry) -> usize
    ensures { Wrote out.old at (line i e) out.new result }
{
    let x = e.name;
    let a = put_number(out, at, i, b' ');
    let b = put_name(out, a, x);
    let c = put_number(out, b, e.kind as u32, b' ');
    put_sizes(out, c, e)
}

// Puts the line of entry i, if it is used.
fn put_entry(out: &mut [u8], at: usize, i: usize, e: Entry) -> usize
    requires { i < 18 }
    ensures { Wrote out.old at (lines_from i (e ∷ [])) out.new result }
{
    if e.kind == Geometry::FREE {
        at
    } else {
        put_line(out, at, i as u32, e)
    }
}

// Puts a line for each used entry, in entry order.
fn put_lines(out: &mut [u8], at: usize, image: &[u8]) -> usize
    ensures { Wrote out.old at (lines_from 0 (table_of image.now)) out.new result }
{
    let mut a = at;
    for i in 0..Geometry::ENTRIES {
        let e = directory::entry_at(image, i);
        a = put_entry(out, a, i, e);
    }
    a
}

// The most sectors of an image that is listed.
const MOST_LISTED: usize = 180;

// Whether an image is not too long to be listed.
pub fn is_short(image: &[u8]) -> bool
    ensures { result ≡ is_short image.now }
{
    Geometry::sectors_of(image) <= MOST_LISTED
}

// Puts the listing of an image into out, as far as there is room. How many bytes that is.
pub fn write_listing(image: &[u8], out: &mut [u8]) -> usize
    ensures ends { result ≡ min (length (listing image.now)) (length out.old) }
    ensures puts { out.new ≡ sets out.old 0 (listing image.now) }
{
    if is_short(image) & mounting::mounts(image) {
        let a = put_all(out, 0, b"FILE NAME KIND RECORD FIRST SECTORS COUNT FLAGS\n");
        put_lines(out, a, image)
    } else {
        put_all(out, 0, b"BAD IMAGE\n")
    }
}
