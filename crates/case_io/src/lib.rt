// The files of cases that the second program writes: a case's header, its image, the patches of an image or a session, and the line that
// tells which case it is. What a file gives and what is printed, no contract can say.
#![tactic(auto)]

ghost use Rattle.std.specs.Prelude.{◌≡◌, ◌+◌, ◌*◌};
ghost use Rattle.arguments.specs.Counts.{IsPrefixLen};

use arguments::{Opened, read_full};
use moving::{lay, put, word_at};
use std::io::{Seek, SeekFrom};

// The bytes of a patch, and of a row.
pub const PATCH: u32 = 6;

pub const ROW: u32 = 16;

// A proved loop has to end, so cases are counted up to a number that no file has.
pub const MOST: u64 = 1000000;

// A case's image.
#[derive(Clone, Copy)]
pub enum Image {
    Whole(u32), // it is there whole, and has so many bytes
    Patched(u32), // so many patches make it of the last whole one
}

// A case's header.
#[derive(Clone, Copy)]
pub struct Header {
    pub image: Image,
    pub rows: u16,
    pub given: u32, // how many bytes are given
    pub plain: u16, // how many patches there are of the plain engine's session
    pub buffered: u16, // and behind them of the buffered one's
}

// ---- moving in the file

// The place that a file stands at; none where that cannot be told.
pub fn place(file: &mut Opened) -> Option<u64> {
    file.stream_position().ok()
}

// Goes to a place of a file, if there is one.
pub fn go(file: &mut Opened, at: Option<u64>) {
    if let Some(at) = at {
        let _ = file.seek(SeekFrom::Start(at));
    }
}

// Two words as a number, high word first.
// Stays: two words that lie apart, so no array of four bytes.
pub fn number(high: u16, low: u16) -> u32
    ensures { result ≡ high * 65536 + low }
{
    u32::from(high) * 65536 + u32::from(low)
}

// Goes on by that many bytes.
pub fn skip(file: &mut Opened, n: u32) {
    let _ = file.seek_relative(i64::from(n));
}

// ---- a case's line, its image, and patches

// Prints the line of case number k.
pub fn print_case(rt: &impl Print, k: u64) {
    let _ = println!(rt; "CASE {k}");
}

// Prints the line of the engine that plays: whether it is the one with buffers.
// Stays: a truth value, since there are two lines.
pub fn print_engine(rt: &impl Print, buffered: bool) {
    let name = if buffered { "BUFFERED" } else { "PLAIN" };
    let _ = println!(rt; "{name}");
}

// The header that stands next; none at the file's end.
pub fn read_header(file: &mut Opened) -> Option<Header> {
    let mut words = [0u8; 16];
    if read_full(file, &mut words) < 16 {
        return None;
    }
    let size = number(word_at(&words, 2), word_at(&words, 4));
    Some(Header {
        image: if word_at(&words, 0) == 1 {
            Image::Whole(size)
        } else {
            Image::Patched(size)
        },
        rows: word_at(&words, 6),
        given: number(word_at(&words, 8), word_at(&words, 10)),
        plain: word_at(&words, 12),
        buffered: word_at(&words, 14),
    })
}

// Reads the next n bytes, if there is room for so many. How many were read.
pub fn read_next(file: &mut Opened, n: usize, room: &mut [u8]) -> usize
    ensures { IsPrefixLen result room.new }
{
    if n <= room.len() {
        return read_full(file, &mut room[..n]);
    }
    0
}

// Reads the image, if it is there whole. The length of the last whole image, which before had n bytes; there is room for each of the cases.
pub fn read_whole(file: &mut Opened, h: Header, n: usize, whole: &mut [u8]) -> usize {
    match h.image {
        Image::Whole(size) => read_next(file, size as usize, whole),
        Image::Patched(_) => n,
    }
}

// Puts the patch that stands next, an offset of two words and a word that is the new byte, into an image or a session.
fn patch_next(file: &mut Opened, bytes: &mut [u8]) {
    let mut patch = [0u8; 6];
    read_full(file, &mut patch);
    let [a, b, c, d, _, new] = patch;
    put(bytes, u32::from_be_bytes([a, b, c, d]) as usize, new);
}

// Puts the next n patches into an image or a session.
pub fn patch(file: &mut Opened, n: usize, bytes: &mut [u8]) {
    for _ in 0..n {
        patch_next(file, bytes);
    }
}

// Makes an image of the last whole one, in a room. The patches stand at a place of the file.
pub fn make_image(file: &mut Opened, at: Option<u64>, h: Header, whole: &[u8], room: &mut [u8]) {
    lay(room, 0, whole);
    go(file, at);
    if let Image::Patched(n) = h.image {
        patch(file, n as usize, room);
    }
}
