// Scripts of requests: what a row asks for, and the sums of words. docs/PLAY.md has the form of a script.
#![tactic(auto, unfolding(crate::specs::Script::is_edit, crate::specs::Script::used_by, crate::specs::Script::takes_granule, crate::specs::Script::granule_in, crate::specs::Script::row_in, crate::specs::Script::is_misshapen, crate::specs::Script::missing_for))]

ghost use Rattle.std.specs.Prelude.{◌≡◌};
ghost use Rattle.scripts.specs.Script.{is_edit, used_by, takes_granule, granule_in, row_in, is_misshapen, row_of, missing_for};
ghost use Rattle.scripts.specs.Sums.{sums_of};

use moving::word_at;
use requests::by_code;

// ---- rows

// A row that is in order.
// Stays: its code is a number, since the calls from C take numbers (`lleuadrys_request`), and so does the row's bytes' definition `row_in`.
#[derive(Clone, Copy)]
pub struct Row {
    pub code: u16,
    pub entry: u16, // of an adding: its kind
    pub granule: u32, // of an adding: its record length
    pub length: u16, // the bytes of a write or of a name, the buffer of a read
    pub sectors: u16, // of an adding
    pub uses: u16, // how many of the bytes given it uses up
}

// Why a row is not in order.
#[derive(Clone, Copy, PartialEq, Eq, Debug)]
pub enum Fault {
    Cut(u32), // only so many of its bytes are there
    Shape, // word 7 is not zero, or word 6 where no granule is taken
    Code(u16), // there is no request of this code
    Missing(u16), // it is a write of so many bytes, and fewer are left
    NoName(u16), // it adds a file whose name has so many bytes, and fewer are left
    Unread, // a file failed where it was to be read
}

// How many of the bytes given a row of that code and length uses up.
fn used_by(code: u16, length: u16) -> u16
    ensures { result ≡ used_by code length }
{
    if matches!(code, 3 | 5 | 14) {
        length
    } else {
        0
    }
}

// Whether a code, which then names no request, adds or deletes a file.
pub fn is_edit(code: u16) -> bool
    ensures { result ≡ is_edit code }
{
    matches!(code, 14 | 15)
}

// Whether a code asks for a granule.
fn takes_granule(code: u16) -> bool
    ensures { result ≡ takes_granule code }
{
    matches!(code, 4 | 5 | 6)
}

// Whether a word of a row that is not used is not zero.
fn is_misshapen(bytes: &[u8]) -> bool
    ensures { result ≡ is_misshapen bytes.now }
{
    let six = word_at(bytes, 12);
    let seven = word_at(bytes, 14);
    (seven != 0) | ((six != 0) & !takes_granule(word_at(bytes, 0)))
}

// The number of a row's granule, in two words.
// Stays: two words that lie apart, so no array of four bytes.
fn granule_in(bytes: &[u8]) -> u32
    ensures { result ≡ granule_in bytes.now }
{
    let high = word_at(bytes, 12);
    let low = word_at(bytes, 6);
    65536 * u32::from(high) + u32::from(low)
}

// The words of a row.
fn row_in(bytes: &[u8]) -> Row
    ensures { result ≡ row_in bytes.now }
{
    let code = word_at(bytes, 0);
    let length = word_at(bytes, 4);
    Row {
        code,
        entry: word_at(bytes, 2),
        granule: granule_in(bytes),
        length,
        sectors: word_at(bytes, 8),
        uses: used_by(code, length),
    }
}

// The row that some bytes are, or why it is not in order.
#[tactic(auto, unfolding(crate::specs::Script::row_of))]
pub fn row_of(bytes: &[u8]) -> Result<Row, Fault>
    ensures { result ≡ row_of bytes.now }
{
    if bytes.len() < 16 {
        return Err(Fault::Cut(bytes.len() as u32));
    }
    if is_misshapen(bytes) {
        return Err(Fault::Shape);
    }
    let row = row_in(bytes);
    if by_code(row.code, row.granule).is_none() & !is_edit(row.code) {
        return Err(Fault::Code(row.code));
    }
    Ok(row)
}

// Why a row is not in order for which too few bytes are left.
pub fn missing_for(row: Row) -> Fault
    ensures { result ≡ missing_for row }
{
    if row.code == 14 {
        Fault::NoName(row.uses)
    } else {
        Fault::Missing(row.uses)
    }
}

// ---- sums

// The sum of some words, and the sum of those sums behind each word, both modulo 65,535.
#[derive(Clone, Copy)]
pub struct Sums {
    pub words: u32,
    pub running: u32,
}

// The sums of the words that some bytes are. An odd last byte counts as the high byte of a word.
pub fn sums_of(s: &[u8]) -> Sums
    ensures { result ≡ sums_of s.now }
{
    let mut a: u32 = 0;
    let mut b: u32 = 0;
    for word in s.chunks(2) {
        a = (a + u32::from(word_at(word, 0))) % 65535;
        b = (b + a) % 65535;
    }
    Sums {
        words: a,
        running: b,
    }
}

// ---- what is said

// What is said of a row.
// Stays: number and standing are as the calls from C answer them (`lleuadrys_request`, `lleuadrys_position`).
#[derive(Clone, Copy)]
pub struct Played {
    pub number: u16, // its request's
    pub sum: u32, // of the words moved
    pub standing: u16, // its file: 0 not open, 1 open, 2 open and beyond the mark
    pub position: u32, // of its file, if that is open
}
