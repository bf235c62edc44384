// The readable pass listing: document 02's item 4, above the file layer. A file is opened by its name as it is typed, and each of its records made a line of
// ASCII.
#![tactic(auto)]

ghost use Rattle.std.specs.Prelude.{◌≡◌, ◌≢◌, IfErr, take};
ghost use Rattle.texts.specs.Texts.{Wrote};
ghost use Rattle.requests.specs.Numbers.{number_of};
ghost use Rattle.requests.specs.declared.Answer.TheVariants.{Done};
ghost use Rattle.typing.specs.Typing.{name_of};
ghost use Rattle.telling.specs.Told.{found, told_of};
ghost use Rattle.showing.specs.Lines.{line_of, answer_line, printed, printed_first};
ghost use Rattle.showing.specs.Showing.{opening, led_to, begun, begun_as, room_for, read_into, room_after, Prints};

use asking::request;
use calling::mount;
use characters::translate;
use coding::keeps;
use geometry::Geometry;
use listing::is_short;
use moving::part;
use requests::{Answer, Edge, Refusal};
use telling::{field_in, find_named};
use texts::{put_all, put_byte, put_number};
use typing::put_name;

// The codes of an opening and of a read.
// Stays: a listing asks for its records by the call that C has (docs/DECISIONS.md, `asking`), which takes a request's code.
const OPEN: u16 = 1;

const READ: u16 = 2;

// A file that a listing opened: its entry, and R, the length of its records.
#[derive(Clone, Copy)]
pub struct Opened {
    pub entry: usize,
    pub length: usize,
}

// How a listing begins: its file opened, or the answer that stops it; and how many bytes of text were put.
#[derive(Clone, Copy)]
pub struct Head {
    pub opened: Result<Opened, Answer>,
    pub size: usize,
}

// A piece of a listing: what its read answered, and how many bytes of text were put. More comes behind it where that is done.
#[derive(Clone, Copy)]
pub struct Piece {
    pub answer: Answer,
    pub size: usize,
}

impl Piece {
    // The most bytes that a line has: the longest record's, and its end.
    pub const LONGEST: usize = 3601;
}

// ---- what is printed

// Makes the record in the first n bytes of out its line; how many bytes that has.
fn put_line(out: &mut [u8], n: usize) -> usize
    ensures { Wrote out.old 0 (line_of (take n out.old)) out.new result }
{
    let m = keeps(part(out, 0, n));
    let a = translate(out, m);
    put_byte(out, a, b'\n')
}

// Puts the line of an answer; how many bytes that has.
fn put_answer(out: &mut [u8], answer: Answer) -> usize
    ensures { Wrote out.old 0 (answer_line (number_of answer)) out.new result }
{
    let a = put_all(out, 0, b"ANSWER ");
    put_number(out, a, u32::from(u16::from(answer)), b'\n')
}

// Puts what a read prints by its answer, whose record stands in the first n bytes of out; how many bytes that has.
#[tactic(auto, unfolding(crate::specs::Lines::printed))]
fn put_printed(out: &mut [u8], n: usize, answer: Answer) -> usize
    ensures { Wrote out.old 0 (printed (number_of answer) (take n out.old)) out.new result }
{
    match answer {
        Answer::Done => put_line(out, n),
        Answer::Met(Edge::EndOfFile) | Answer::Refused(Refusal::WrongSequence) => 0,
        _ => put_answer(out, answer),
    }
}

// ---- a file is opened by its name

// Searches the session's table for a name as it is typed, of which one byte more than a name has is enough.
fn find_typed(session: &[u8], typed: &[u8]) -> Result<usize, Refusal>
    ensures { told_of result ≡ found session.now (name_of typed.now) }
{
    // Stays: a room of fixed size with its length, since nothing is allocated.
    let mut name = [0u8; 9];
    let n = put_name(typed, &mut name);
    find_named(session, part(&name, 0, n))
}

// Mounts an image, if it is no longer than one that lists, and searches its table for a name as it is typed.
fn find_mounted(image: &[u8], session: &mut [u8], typed: &[u8]) -> Result<usize, Refusal>
    ensures { led_to result image.now session.new ≡ begun image.now session.old typed.now }
{
    if !is_short(image) {
        return Err(Refusal::BadImage);
    }
    mount(image, session)?;
    find_typed(session, typed)
}

// Opens entry i if its file is sequential.
fn open_sequential(image: &mut [u8], session: &mut [u8], i: usize) -> Result<Opened, Answer>
    ensures leaves { begun_as result image.new session.new ≡ opening image.old session.old i }
    ensures stopped { IfErr result (λ a. a ≢ Done) }
{
    if field_in(session, i, 1) == (Geometry::RANDOM as u32) {
        return Err(Answer::Refused(Refusal::WrongSequence));
    }
    let length = field_in(session, i, 2) as usize;
    match request(image, session, i, OPEN, 0, b"", &mut [0u8; 0]) {
        Answer::Done => Ok(Opened { entry: i, length }),
        a => Err(a),
    }
}

// Opens the file of that name as it is typed.
fn open_named(image: &mut [u8], session: &mut [u8], typed: &[u8]) -> Result<Opened, Answer>
    ensures leaves { begun_as result image.new session.new ≡ begun image.old session.old typed.now }
    ensures stopped { IfErr result (λ a. a ≢ Done) }
{
    match find_mounted(image, session, typed) {
        Ok(i) => open_sequential(image, session, i),
        Err(x) => Err(Answer::Refused(x)),
    }
}

// Begins the listing of a file: mounts the image, finds the name as it is typed, opens the file. Where that is stopped, the listing is the text that is put.
pub fn begin(image: &mut [u8], session: &mut [u8], typed: &[u8], out: &mut [u8]) -> Head
    ensures leaves { begun_as result.opened image.new session.new ≡ begun image.old session.old typed.now }
    ensures prints { Wrote out.old 0 (printed_first (begun image.old session.old typed.now).number) out.new result.size }
{
    let opened = open_named(image, session, typed);
    let size = match opened {
        Ok(_) => 0,
        Err(a) => put_answer(out, a),
    };
    Head { opened, size }
}

// ---- its next record

// The room for a record of R bytes in a room for its line, which has a byte more; none where that is too small.
fn room_for(length: usize, out: &[u8]) -> usize
    ensures { result ≡ room_for length out.now }
{
    if length < out.len() { length } else { 0 }
}

// Reads the next record of a file that `begin` opened, and puts what is printed of it. Where that is done, it is the record's line.
pub fn next(image: &mut [u8], session: &mut [u8], file: Opened, out: &mut [u8]) -> Piece
    ensures { Prints (read_into image.old session.old file.entry file.length out.old)
        (room_after image.old session.old file.entry file.length out.old)
        (number_of result.answer) result.size image.new session.new out.new }
{
    let n = room_for(file.length, out);
    let answer = request(image, session, file.entry, READ, 0, b"", &mut out[..n]);
    let size = put_printed(out, n, answer);
    Piece { answer, size }
}
