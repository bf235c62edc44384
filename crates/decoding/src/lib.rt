// Reading one compressed record: document 01's "Compressed records". The reader is two functions that call each other, one for each sort of run.
#![tactic(auto)]

ghost use Rattle.std.specs.Prelude.{◌≡◌, ◌+◌, ◌≤◌, ◌<◌, length, drop, get_or};
ghost use Rattle.geometry.specs.Sizes as Sizes;
ghost use Rattle.decoding.specs.Decode.{decode_from, stopped, answer, given, Awaited, filled};
ghost use Rattle.decoding.specs.Decode as Decode;

use geometry::Geometry;
use moving::{byte_at, fill, lay, part};

// A code that is bad: the offset of the control byte that cannot be obeyed.
#[derive(Clone, Copy)]
pub struct BadCode {
    pub at: usize,
}

// Runs of characters in a sector's bytes, the control byte at offset at, with room for so many; a run of blanks is given over to.
// Returns the offset of the control byte at which the record stops: the 0, or one that cannot be obeyed.
// The slice itself is lent, so that a call hands on one address and the compiler can make a loop of the calls.
#[cycle(blanks_characters)]
fn characters(sector: &&[u8], at: usize, room: usize) -> usize
    requires { length sector.now.now ≤ Sizes.sector }
    ensures { stopped sector.now.now result ≡ answer (decode_from room at (drop at sector.now.now)) }
{
    let s = *sector;
    if s.len() <= at {
        return at;
    }
    let c = s[at] as usize;
    if c == 0 {
        return at;
    }
    if 128 <= c {
        return blanks(sector, at, c - 128, room);
    }
    if room < c {
        return at;
    }
    if s.len() - at <= c {
        return at;
    }
    characters(sector, at + 1 + c, room - c)
}

// A run of n blanks, with its control byte at offset at; it gives back to runs of characters.
#[cycle(blanks_characters)]
fn blanks(sector: &&[u8], at: usize, n: usize, room: usize) -> usize
    requires { (length sector.now.now ≤ Sizes.sector) × (at < length sector.now.now) × (get_or sector.now.now at 0 ≡ 128 + n) }
    ensures { stopped sector.now.now result ≡ answer (decode_from room at (drop at sector.now.now)) }
{
    if n == 0 {
        return at;
    }
    if room < n {
        return at;
    }
    characters(sector, at + 1, room - n)
}

// The number of bytes of the code, if it is good, of the record of that length that s begins with. No character is moved, and of s a sector's bytes are
// looked at and no more.
pub fn measure(s: &[u8], length: usize) -> Result<usize, BadCode>
    ensures { result ≡ answer (Decode.decode length s.now) }
{
    let sector = part(s, 0, Geometry::SECTOR);
    let k = characters(&sector, 0, length);
    if (k < sector.len()) & (byte_at(sector, k) == 0) {
        Ok(k + 1)
    } else {
        Err(BadCode { at: k })
    }
}

// Moves the characters of the good code that s begins with to their places in out, which has blanks.
// Stays: i and j step by the lengths that the code's runs have, which no iterator of std does.
fn place(s: &[u8], out: &mut [u8])
    requires { Awaited (decode_from (length out.old) 0 s.now) out.old 0 }
    ensures { out.new ≡ filled (decode_from (length out.old) 0 s.now) out.old 0 }
{
    let mut i = 0;
    let mut j = 0;
    while s[i] != 0 {
        let c = s[i] as usize;
        i += 1;
        if c < 128 {
            let end = i + c;
            lay(out, j, &s[i..end]);
            i = end;
            j += c;
        } else {
            j += c - 128;
        }
    }
}

// Decodes the record that s begins with into out, whose length is the record's; the number of bytes of its code. A bad code leaves out as it was.
pub fn decode(s: &[u8], out: &mut [u8]) -> Result<usize, BadCode>
    ensures { (result ≡ answer (Decode.decode (length out.old) s.now))
        × (out.new ≡ given (Decode.decode (length out.old) s.now) out.old) }
{
    let r = out.len();
    let e = measure(s, r)?;
    fill(out, 0, r, Geometry::BLANK);
    place(s, out);
    Ok(e)
}
