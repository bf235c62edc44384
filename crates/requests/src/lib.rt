// Requests, edits, their codes, what the tests of one ask about, answers and their numbers: document 01's "The tape a file is" and "Answer numbers",
// document 02's item 1. The tests are definitions here (specs/Judge.antt).
#![tactic(auto)]

ghost use Rattle.std.specs.Prelude.{◌≡◌};
ghost use Rattle.requests.specs.Numbers.{number_of};
ghost use Rattle.requests.specs.Codes.{asked_for};

use geometry::Place;

// A position order, one of seven.
#[derive(Clone, Copy, PartialEq, Eq, Debug)]
pub enum Order {
    WriteMark,
    RewindOnline,
    RewindOffline,
    RecordForward,
    RecordBack,
    FileForward,
    FileBack,
}

// A read, a write, a granule read, write or look, an opening, or a position order.
#[derive(Clone, Copy, PartialEq, Eq, Debug)]
pub enum Request {
    Open,
    Read,
    Write,
    GranuleRead(u32),
    GranuleWrite(u32),
    GranuleLook(u32),
    Position(Order),
}

// What the directory is asked, the RAD Editor's ADD and DELETE: a file is added, with its kind, its record or granule length and its number of
// sectors, the bytes given being its name; or the file of an entry is deleted.
#[derive(Clone, Copy, PartialEq, Eq, Debug)]
pub enum Edit {
    Add {
        kind: u16,
        length: u16,
        sectors: u16,
    },
    Delete,
}

// What a request may meet: answers 1 and 2.
#[derive(Clone, Copy, PartialEq, Eq, Debug)]
pub enum Edge {
    EndOfFile = 1,
    BeginningOfTape = 2,
}

// Answers 3 to 17, in that order.
#[derive(Clone, Copy, PartialEq, Eq, Debug)]
pub enum Refusal {
    NoRoom = 3,
    Protected = 4,
    OddCount = 5,
    BadSize = 6,
    WrongSequence = 7,
    NotThere = 8,
    AlreadyOpen = 9,
    FifthFile = 10,
    BadImage = 11,
    NotLegal = 12,
    BadName = 13,
    NameInUse = 14,
    NoEntry = 15,
    NoGap = 16,
    BadShape = 17,
}

// An answer: done, an edge met, or a refusal.
#[derive(Clone, Copy, PartialEq, Eq, Debug)]
pub enum Answer {
    Done,
    Met(Edge),
    Refused(Refusal),
}

// What the tests ask about: the session, the entry, its file, and what the caller lends.
#[derive(Clone, Copy)]
pub struct Facts {
    pub legal: bool, // the session is legal for this image
    pub files: u32, // how many files are open
    pub kind: u16, // 0 where there is no such entry
    pub length: u16,
    pub sectors: u16,
    pub protected: bool,
    pub opened: bool, // this file is open
    pub position: u32,
    pub count: u32,
    pub marked: bool,
    pub beyond: bool,
    pub here: Place, // of a compressed file: behind the last record read or written
    pub bad: bool, // a record that this request decodes is bad
    pub given: usize, // how many bytes are to be written
    pub code: usize, // how many bytes their code has
    pub buffer: usize, // the size of the buffer to be read into
}

// Documents 01 and 02's number of an answer.
impl From<Answer> for u16 {
    ghost from_gives = { λ a n. n ≡ number_of a };

    fn from(a: Answer) -> u16 {
        match a {
            Answer::Done => 0,
            Answer::Met(e) => e as u16,
            Answer::Refused(x) => x as u16,
        }
    }
}

// The request of that code, if there is one; g is the granule's number.
#[tactic(auto, unfolding(crate::specs::Codes::asked_for, crate::specs::Codes::codes))]
pub fn by_code(code: u16, g: u32) -> Option<Request>
    ensures { result ≡ asked_for code g }
{
    Some(match code {
        1 => Request::Open,
        2 => Request::Read,
        3 => Request::Write,
        4 => Request::GranuleRead(g),
        5 => Request::GranuleWrite(g),
        6 => Request::GranuleLook(g),
        7 => Request::Position(Order::WriteMark),
        8 => Request::Position(Order::RewindOnline),
        9 => Request::Position(Order::RewindOffline),
        10 => Request::Position(Order::RecordForward),
        11 => Request::Position(Order::RecordBack),
        12 => Request::Position(Order::FileForward),
        13 => Request::Position(Order::FileBack),
        _ => return None,
    })
}
