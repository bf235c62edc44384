// What is said of a script, line by line: of a mounting, a row, an image, a row that is not in order. docs/PLAY.md has the lines.
// Stays: no Display. What is promised of these functions is `Wrote`, of bytes put into what is lent as far as there is room; a Display beside them would have
// each line a second time.
#![tactic(auto, unfolding(texts::specs::Texts::spelled, texts::specs::Texts::spaced, crate::specs::Said::mount_line, crate::specs::Said::fault_words))]

ghost use Rattle.std.specs.Prelude.{[], ◌∷◌, ◌++◌};
ghost use Rattle.texts.specs.Texts.{decimal, spaced, Wrote};
ghost use Rattle.saying.specs.Said.{mount_line, stand_words, row_line, image_line, fault_words, fault_line};

use scripts::{Fault, Played, Sums};
use texts::{put_all, put_number};

// Puts a text, a number behind it, and the line's end.
fn put_count(out: &mut [u8], at: usize, text: &[u8], k: u16) -> usize
    ensures { Wrote out.old at (text.now ++ (decimal k ++ (10 ∷ []))) out.new result }
{
    let a = put_all(out, at, text);
    put_number(out, a, u32::from(k), b'\n')
}

// Puts what is said of a mounting into out. How many bytes that is.
pub fn write_mount(out: &mut [u8], number: u16) -> usize
    ensures { Wrote out.old 0 (mount_line number) out.new result }
{
    put_count(out, 0, b"MOUNT ", number)
}

// Puts where a file stands, and the line's end.
fn put_stand(out: &mut [u8], at: usize, standing: u16, position: u32) -> usize
    ensures { Wrote out.old at (spaced (stand_words standing position)) out.new result }
{
    if standing == 0 {
        return put_all(out, at, b"- -\n");
    }
    let a = put_number(out, at, position, b' ');
    put_number(out, a, u32::from(standing - 1), b'\n')
}

// Puts what is said of row n into out. How many bytes that is.
pub fn write_row(out: &mut [u8], n: u32, p: Played) -> usize
    ensures { Wrote out.old 0 (row_line n p) out.new result }
{
    let b = put_number(out, 0, n, b' ');
    let c = put_number(out, b, u32::from(p.number), b' ');
    let d = put_number(out, c, p.sum, b' ');
    put_stand(out, d, p.standing, p.position)
}

// Puts what is said of an image into out. How many bytes that is.
pub fn write_image(out: &mut [u8], s: Sums) -> usize
    ensures { Wrote out.old 0 (image_line s) out.new result }
{
    let a = put_all(out, 0, b"IMAGE ");
    let b = put_number(out, a, s.words, b' ');
    put_number(out, b, s.running, b'\n')
}

// Puts that only so many bytes of a row are there, and the line's end.
fn put_cut(out: &mut [u8], at: usize, k: u32) -> usize
    ensures { Wrote out.old at (fault_words (Fault.Cut k)) out.new result }
{
    let a = put_all(out, at, b" cut short at ");
    let b = put_number(out, a, k, b' ');
    put_all(out, b, b"of 16 bytes\n")
}

// Puts why a row is not in order, and the line's end.
fn put_fault(out: &mut [u8], at: usize, f: Fault) -> usize
    ensures { Wrote out.old at (fault_words f) out.new result }
{
    match f {
        Fault::Cut(k) => put_cut(out, at, k),
        Fault::Shape => put_all(
            out,
            at,
            b" unknown shape (word 7 is not zero, or word 6 without a granule)\n",
        ),
        Fault::Code(k) => put_count(out, at, b" unknown code ", k),
        Fault::Missing(k) => put_count(out, at, b" bytes are missing for its write of ", k),
        Fault::NoName(k) => put_count(out, at, b" bytes are missing for its name of ", k),
        Fault::Unread => put_all(out, at, b" cannot be read\n"),
    }
}

// Puts what is said of row n, which is not in order, into out. How many bytes that is.
pub fn write_fault(out: &mut [u8], n: u32, f: Fault) -> usize
    ensures { Wrote out.old 0 (fault_line n f) out.new result }
{
    let a = put_all(out, 0, b"ERROR row ");
    let b = put_number(out, a, n, b':');
    put_fault(out, b, f)
}
