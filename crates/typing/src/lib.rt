// What is typed to describe a file: its name, its kind, a number.
#![tactic(auto)]

ghost use Rattle.std.specs.Prelude.{◌≡◌, map};
ghost use Rattle.texts.specs.Texts.{Wrote};
ghost use Rattle.typing.specs.Typing.{typed_code, name_of, number_of, kind_of};

use characters::{to_ascii, to_ebcdic};
use geometry::Geometry;
use moving::part;
use texts::{number_in, put_all, put_byte};

// ---- names

// A typed character in EBCDIC; 0 for one that does not come back as itself through both tables.
fn typed_code(c: u8) -> u8
    ensures { result ≡ typed_code c }
{
    let e = to_ebcdic(c);
    if to_ascii(e) == c { e } else { 0 }
}

// Puts a text in EBCDIC. The place behind it.
fn put_letters(out: &mut [u8], text: &[u8]) -> usize
    ensures { Wrote out.old 0 (map typed_code text.now) out.new result }
{
    let mut a = 0;
    for &c in text {
        a = put_byte(out, a, typed_code(c));
    }
    a
}

// Puts the bytes of a typed name, as far as there is room; how many there are. A text that is no name is not refused here: its bytes are no
// name either (`names-alone`, in proofs/Names.antt), and whoever takes them says so.
pub fn put_name(text: &[u8], out: &mut [u8]) -> usize
    ensures { Wrote out.old 0 (name_of text.now) out.new result }
{
    let blanks = [Geometry::BLANK; 8];
    let a = put_letters(out, text);
    put_all(out, a, part(&blanks, text.len(), 8))
}

// ---- numbers and kinds

// The number that a text says, 65,535 for a greater one; none if it says none.
#[tactic(auto, unfolding(crate::specs::Typing::number_of))]
pub fn number_of(text: &[u8]) -> Option<u16>
    ensures { result ≡ number_of text.now }
{
    number_in(text).map(|n| n.min(65535) as u16)
}

// The kind that a text says, by its word or its number.
// Stays: no match on the words, which was tried and did not close: it is checked byte by byte, in 36 ways that are no equation of texts.
pub fn kind_of(text: &[u8]) -> Option<u16>
    ensures { result ≡ kind_of text.now }
{
    if text == b"unblocked".as_slice() {
        return Some(Geometry::UNBLOCKED);
    }
    if text == b"blocked".as_slice() {
        return Some(Geometry::BLOCKED);
    }
    if text == b"compressed".as_slice() {
        return Some(Geometry::COMPRESSED);
    }
    if text == b"random".as_slice() {
        return Some(Geometry::RANDOM);
    }
    number_of(text)
}
