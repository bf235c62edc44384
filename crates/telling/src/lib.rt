// What a caller is told besides the answers to requests: an entry by its name, a field of an entry, the words of an answer's number.
#![tactic(auto)]

ghost use Rattle.std.specs.Prelude.{◌≡◌};
ghost use Rattle.texts.specs.Texts.{Wrote};
ghost use Rattle.telling.specs.Told.{found, told_of, field_of, field_in, words_of};

use directory::Entry;
use geometry::Geometry;
use knowing::is_session;
use requests::Refusal;
use storing::has_buffers;
use tables::{Width, entry_in, search_in};
use texts::put_all;

// ---- entries of a session in lent bytes

// Searches the session's table for a name: the entry's number; refused where no entry has it, and where the bytes are no session.
// It is put in the place of its call, where its result is told apart at once.
#[inline(always)]
pub fn find_named(b: &[u8], name: &[u8]) -> Result<usize, Refusal>
    ensures { told_of result ≡ found b.now name.now }
{
    if !is_session(b, has_buffers(b)) {
        return Err(Refusal::NotLegal);
    }
    search_in(b, Width::TWO, Geometry::ENTRIES, name).ok_or(Refusal::NotThere)
}

// A field of an entry by its number; 0 where there is none of that number, and of a free entry.
// Stays: a number for the field, and 0 for none, since C gives and reads them (lleuadrys_field).
#[tactic(auto, unfolding(crate::specs::Told::field_of))]
fn field_of(e: Entry, field: u16) -> u32
    ensures { result ≡ field_of e field }
{
    if e.kind == Geometry::FREE {
        return 0;
    }
    match field {
        1 => e.kind as u32,
        2 => e.length as u32,
        3 => e.first as u32,
        4 => e.sectors as u32,
        5 => e.count,
        6 => e.flags as u32,
        _ => 0,
    }
}

// A field of entry i of the session that bytes are; 0 where they are none.
pub fn field_in(b: &[u8], i: usize, field: u16) -> u32
    ensures { result ≡ field_in b.now i field }
{
    if is_session(b, has_buffers(b)) {
        field_of(entry_in(b, Width::TWO, Geometry::ENTRIES, i), field)
    } else {
        0
    }
}

// ---- answers in words

// The words of an answer's number.
// Stays: by the number, since C may ask for the words of any (lleuadrys_words).
#[tactic(auto, unfolding(crate::specs::Told::words_of, crate::specs::Told::words, texts::specs::Texts::spelled))]
fn words_at(number: u16) -> &'static [u8]
    ensures { result.now ≡ words_of number }
{
    match number {
        0 => b"done",
        1 => b"end of file met",
        2 => b"beginning of tape met",
        3 => b"no room",
        4 => b"write or mark on a protected file",
        5 => b"odd byte count in a write",
        6 => b"write of 0 or over R bytes, or read buffer under R",
        7 => b"wrong kind for the request, or out of sequence",
        8 => b"no such entry, or not open",
        9 => b"opening or deleting an open file",
        10 => b"a fifth open file",
        11 => b"bad image, or bad code met",
        12 => b"session not legal for this image",
        13 => b"bad name",
        14 => b"name in use",
        15 => b"no free entry",
        16 => b"no gap of that many sectors",
        17 => b"bad kind, length or sector count 0",
        _ => b"no such number",
    }
}

// Puts the words of an answer's number into out, as far as there is room. How many bytes that is.
pub fn put_words(number: u16, out: &mut [u8]) -> usize
    ensures { Wrote out.old 0 (words_of number) out.new result }
{
    put_all(out, 0, words_at(number))
}
