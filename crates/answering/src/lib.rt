// The tests of a request, made one after another in document 01's order: the answer is the first that holds.
#![tactic(auto, unfolding(requests::specs::Judge::whether, requests::specs::Judge::is_full, requests::specs::Judge::tests, requests::specs::Judge::behind_eleven, requests::specs::Judge::or_else, requests::specs::Judge::first_of, requests::specs::Judge::judge, requests::specs::Judge::behind_code))]

ghost use Rattle.std.specs.Prelude.{◌≡◌, [], ◌∷◌};
ghost use Rattle.requests.specs.Judge.{whether, or_else, first_of, judge, behind_code, is_full, not_legal, no_entry, not_open, not_sequential, not_random, is_protected, is_beyond, odd_count, bad_size, bad_code, meets_mark, at_end, no_granule};
ghost use Rattle.steps.specs.Next.{facts_but};
ghost use Rattle.requests.specs.declared.Answer.TheVariants.{Refused};
ghost use Rattle.requests.specs.declared.Request.TheVariants.{Open, Read, Write, GranuleRead, GranuleWrite, GranuleLook, Position};
ghost use Rattle.requests.specs.declared.Order.TheVariants.{WriteMark, RecordForward, RecordBack, FileForward, FileBack};

use directory::{Entry, is_marked, is_protected};
use geometry::Geometry;
use requests::{Answer, Edge, Facts, Order, Refusal, Request};
use sessions::OpenFile;

// What the tests ask about.
// Stays: eight parameters. `Facts` is the struct that they make, and half of them come from an entry and its state, which the tests do not take whole.
pub fn facts(
    bad: bool,
    legal: bool,
    files: u32,
    e: Entry,
    f: OpenFile,
    given: usize,
    code: usize,
    buffer: usize,
) -> Facts
    ensures { result ≡ facts_but bad legal files e f given code buffer }
{
    Facts {
        legal,
        files,
        kind: e.kind,
        length: e.length,
        sectors: e.sectors,
        protected: is_protected(e),
        opened: f.used,
        position: f.position,
        count: e.count,
        marked: is_marked(e),
        beyond: f.beyond,
        here: f.here,
        bad,
        given,
        code,
        buffer,
    }
}

// The answer of a test that holds, and what the later tests say where it does not.
// Stays: no Option, of which `or` takes the first. So written, a request took some 50 instructions more (a blocked write 1,544 in place of 1,492, where 1.2 times
// the plain C is 1,509).
fn first(holds: bool, a: Answer, later: Answer) -> Answer
    ensures { result ≡ whether holds a later }
{
    if holds { a } else { later }
}

// The same of a refusal.
fn refuse(holds: bool, x: Refusal, later: Answer) -> Answer
    ensures { result ≡ whether holds (Refused x) later }
{
    first(holds, Answer::Refused(x), later)
}

// 12 and 8, the first tests of every request: a legal session, and a used entry.
fn entered(f: Facts, later: Answer) -> Answer
    ensures { result ≡ or_else (not_legal ∷ no_entry ∷ []) f later }
{
    let free = f.kind == Geometry::FREE;
    refuse(
        !f.legal,
        Refusal::NotLegal,
        refuse(free, Refusal::NotThere, later),
    )
}

// And an open file, which every request but an opening asks for.
fn running(f: Facts, later: Answer) -> Answer
    ensures { result ≡ or_else (not_legal ∷ no_entry ∷ not_open ∷ []) f later }
{
    entered(f, refuse(!f.opened, Refusal::NotThere, later))
}

// And one that is a tape.
fn sequential(f: Facts, later: Answer) -> Answer
    ensures { result ≡ or_else (not_legal ∷ no_entry ∷ not_open ∷ not_sequential ∷ []) f later }
{
    let random = f.kind == Geometry::RANDOM;
    running(f, refuse(random, Refusal::WrongSequence, later))
}

// And one that may be written: it is not protected, and does not stand beyond its mark.
fn writable(f: Facts, later: Answer) -> Answer
    ensures { result ≡ or_else (not_legal ∷ no_entry ∷ not_open ∷ not_sequential ∷ is_protected ∷ is_beyond ∷ []) f later }
{
    let beyond = refuse(f.beyond, Refusal::WrongSequence, later);
    sequential(f, refuse(f.protected, Refusal::Protected, beyond))
}

// And one that is a row of granules.
fn granular(f: Facts, later: Answer) -> Answer
    ensures { result ≡ or_else (not_legal ∷ no_entry ∷ not_open ∷ not_random ∷ []) f later }
{
    let tape = f.kind != Geometry::RANDOM;
    running(f, refuse(tape, Refusal::WrongSequence, later))
}

// 5 and 6 of a write: an even count of bytes, from 2 to R.
fn measured(f: Facts, later: Answer) -> Answer
    ensures { result ≡ or_else (odd_count ∷ bad_size ∷ []) f later }
{
    let odd = f.given % 2 == 1;
    let size = (f.given == 0) | ((f.length as usize) < f.given);
    refuse(
        odd,
        Refusal::OddCount,
        refuse(size, Refusal::BadSize, later),
    )
}

// 1 and 7 of a request that goes forward by a record: the mark, the unmarked end.
fn at_end(f: Facts) -> Answer
    ensures { result ≡ first_of (meets_mark ∷ at_end ∷ []) f }
{
    let end = f.count <= f.position;
    let over = refuse(end, Refusal::WrongSequence, Answer::Done);
    first(end & f.marked, Answer::Met(Edge::EndOfFile), over)
}

// And 11 before them: its code.
fn ahead(f: Facts) -> Answer
    ensures { result ≡ first_of (bad_code ∷ meets_mark ∷ at_end ∷ []) f }
{
    refuse(f.bad, Refusal::BadImage, at_end(f))
}

// 3 of a write: no room for one more record.
fn full(f: Facts) -> bool
    ensures { result ≡ is_full f }
{
    if f.kind == Geometry::COMPRESSED {
        !packing::has_room(f.sectors, f.here, f.code)
    } else {
        Geometry::capacity(f.kind, f.length, f.sectors) <= f.position
    }
}

// 3 of a granule's requests: the granule's number is at or over capacity.
fn within(f: Facts, g: u32) -> Answer
    ensures { result ≡ first_of (no_granule g ∷ []) f }
{
    let capacity = Geometry::capacity(f.kind, f.length, f.sectors);
    refuse(capacity <= g, Refusal::NoRoom, Answer::Done)
}

fn judge_open(f: Facts) -> Answer
    ensures { result ≡ judge Open f }
{
    let full = Geometry::MOST_OPEN <= (f.files as usize);
    let bad = refuse(f.bad, Refusal::BadImage, Answer::Done);
    let fifth = refuse(full, Refusal::FifthFile, bad);
    entered(f, refuse(f.opened, Refusal::AlreadyOpen, fifth))
}

fn judge_read(f: Facts) -> Answer
    ensures { result ≡ judge Read f }
{
    let small = refuse(f.buffer < (f.length as usize), Refusal::BadSize, ahead(f));
    sequential(f, refuse(f.beyond, Refusal::WrongSequence, small))
}

fn judge_write(f: Facts) -> Answer
    ensures { result ≡ judge Write f }
{
    let last = Geometry::MOST_RECORDS <= f.position;
    let long = (f.kind == Geometry::COMPRESSED) & (Geometry::SECTOR < f.code);
    let room = refuse(last | full(f), Refusal::NoRoom, Answer::Done);
    writable(f, measured(f, refuse(long, Refusal::BadSize, room)))
}

fn judge_granule_read(f: Facts, g: u32) -> Answer
    ensures { result ≡ judge (GranuleRead g) f }
{
    let small = f.buffer < (f.length as usize);
    granular(f, refuse(small, Refusal::BadSize, within(f, g)))
}

fn judge_granule_write(f: Facts, g: u32) -> Answer
    ensures { result ≡ judge (GranuleWrite g) f }
{
    let size = measured(f, within(f, g));
    granular(f, refuse(f.protected, Refusal::Protected, size))
}

// The answer to a look at granule g.
pub fn judge_granule_look(f: Facts, g: u32) -> Answer
    ensures { result ≡ judge (GranuleLook g) f }
{
    granular(f, within(f, g))
}

fn judge_record_forward(f: Facts) -> Answer
    ensures { result ≡ judge (Position RecordForward) f }
{
    sequential(f, refuse(f.beyond, Refusal::WrongSequence, ahead(f)))
}

fn judge_record_back(f: Facts) -> Answer
    ensures { result ≡ judge (Position RecordBack) f }
{
    let kind = (f.kind == Geometry::RANDOM) | (f.kind == Geometry::COMPRESSED);
    let start = first(
        f.position == 0,
        Answer::Met(Edge::BeginningOfTape),
        Answer::Done,
    );
    let mark = first(f.beyond, Answer::Met(Edge::EndOfFile), start);
    running(f, refuse(kind, Refusal::WrongSequence, mark))
}

fn judge_file_forward(f: Facts) -> Answer
    ensures { result ≡ judge (Position FileForward) f }
{
    let unmarked = refuse(!f.marked, Refusal::WrongSequence, Answer::Done);
    sequential(f, refuse(f.beyond, Refusal::WrongSequence, unmarked))
}

fn judge_file_back(f: Facts) -> Answer
    ensures { result ≡ judge (Position FileBack) f }
{
    let start = Answer::Met(Edge::BeginningOfTape);
    sequential(f, first(!f.beyond, start, Answer::Done))
}

fn judge_order(o: Order, f: Facts) -> Answer
    ensures { result ≡ judge (Position o) f }
{
    match o {
        Order::WriteMark => writable(f, Answer::Done),
        Order::RewindOnline => sequential(f, Answer::Done),
        Order::RewindOffline => running(f, Answer::Done),
        Order::RecordForward => judge_record_forward(f),
        Order::RecordBack => judge_record_back(f),
        Order::FileForward => judge_file_forward(f),
        Order::FileBack => judge_file_back(f),
    }
}

// The answer to a request: the first of its tests, in document 01's order, that holds; 0 where none does.
pub fn judge(q: Request, f: Facts) -> Answer
    ensures { result ≡ judge q f }
{
    match q {
        Request::Open => judge_open(f),
        Request::Read => judge_read(f),
        Request::Write => judge_write(f),
        Request::GranuleRead(g) => judge_granule_read(f, g),
        Request::GranuleWrite(g) => judge_granule_write(f, g),
        Request::GranuleLook(g) => judge_granule_look(f, g),
        Request::Position(o) => judge_order(o, f),
    }
}

// The answer to a request whose turn to decode has come, where the code is good: the first of the tests behind 11 that holds.
pub fn past_code(q: Request, f: Facts) -> Answer
    ensures { result ≡ behind_code q f }
{
    match q {
        Request::Read | Request::Position(Order::RecordForward) => at_end(f),
        _ => Answer::Done,
    }
}
