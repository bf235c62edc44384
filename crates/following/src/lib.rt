// The next entry and the next state of a file, by the answer to a request: document 01's "The tape a file is". `judging` finds the answer, and the
// place that the next state is made from.
#![tactic(auto, unfolding(steps::specs::Next::counted, steps::specs::Next::file_met, crate::specs::Following::one_more, crate::specs::Following::counted_from, crate::specs::Following::order_from, crate::specs::Following::done_from, crate::specs::Following::entry_from, crate::specs::Following::file_from))]

ghost use Rattle.std.specs.Prelude.{◌≡◌, cond};
ghost use Rattle.geometry.specs.Places.{origin};
ghost use Rattle.steps.specs.Next.{moved, counted, file_met};
ghost use Rattle.following.specs.Following.{counted_from, order_from, done_from, verdict_from};

use directory::Entry;
use geometry::Place;
use requests::{Answer, Edge, Order, Request};
use sessions::{OpenFile, idle};
use steps::Verdict;

// The place before the first record.
// Stays: a function, since its clause names `origin`; the clause of a derived Default would name no definition.
pub fn start() -> Place
    ensures { result ≡ origin }
{
    Place { sector: 0, byte: 0 }
}

// The file at another position and place.
fn moved(f: OpenFile, position: u32, beyond: bool, here: Place, end: Place) -> OpenFile
    ensures { result ≡ moved f position beyond here end }
{
    OpenFile {
        used: true,
        position,
        beyond,
        here,
        end,
        ..f
    }
}

// The entry with another count and mark.
fn counted(e: Entry, n: u32, marked: bool) -> Entry
    ensures { result ≡ counted e n (cond marked 1 0) }
{
    Entry {
        count: n,
        flags: 2 * (e.flags / 2) + u16::from(marked),
        ..e
    }
}

// The entry behind a request answered 0: a write leaves p + 1 records, unmarked; a write file mark p records, marked. No legal session's position is the
// greatest number.
fn done_entry(q: Request, e: Entry, f: OpenFile) -> Entry
    ensures { result ≡ counted_from q e f }
{
    let past = f.position.wrapping_add(1);
    match q {
        Request::Write => counted(e, past, false),
        Request::Position(Order::WriteMark) => counted(e, f.position, true),
        _ => e,
    }
}

// The state behind an answer 1, which crosses the mark, or 2, which stands at the start.
fn met_file(x: Edge, f: OpenFile) -> OpenFile
    ensures { result ≡ file_met x f }
{
    match x {
        Edge::EndOfFile => moved(f, f.position, !f.beyond, f.here, f.end),
        Edge::BeginningOfTape => moved(f, 0, false, start(), f.end),
    }
}

// The state behind an order answered 0; p is the place behind the record passed over.
fn done_order(o: Order, e: Entry, f: OpenFile, p: Place) -> OpenFile
    ensures { result ≡ order_from o e f p }
{
    match o {
        Order::WriteMark => moved(f, f.position, true, f.here, f.here),
        Order::RewindOnline => moved(f, 0, false, start(), f.end),
        Order::RewindOffline => idle(),
        Order::RecordForward => moved(f, f.position.wrapping_add(1), false, p, f.end),
        Order::RecordBack => moved(f, f.position.saturating_sub(1), false, f.here, f.end),
        Order::FileForward => moved(f, e.count, true, f.end, f.end),
        Order::FileBack => moved(f, f.position, false, f.here, f.end),
    }
}

// The state of file i behind a request answered 0; p is the end place of an opening, or the place behind the record read or written.
fn done_file(q: Request, i: usize, e: Entry, f: OpenFile, p: Place) -> OpenFile
    ensures { result ≡ done_from q i e f p }
{
    let past = f.position.wrapping_add(1);
    match q {
        Request::Open => OpenFile {
            used: true,
            entry: i,
            position: 0,
            beyond: false,
            here: start(),
            end: p,
        },
        Request::Read => moved(f, past, false, p, f.end),
        Request::Write => moved(f, past, false, p, p),
        Request::Position(o) => done_order(o, e, f, p),
        _ => f,
    }
}

// An answer, with the entry and the state behind it; p as above.
// Stays: i, e, f and p apart. They come from three places, the session's table, its states and what was read; a struct of them would be made for this call alone.
pub fn next(a: Answer, q: Request, i: usize, e: Entry, f: OpenFile, p: Place) -> Verdict
    ensures { result ≡ verdict_from a q i e f p }
{
    match a {
        Answer::Done => Verdict {
            answer: a,
            entry: done_entry(q, e, f),
            file: done_file(q, i, e, f, p),
        },
        Answer::Met(x) => Verdict {
            answer: a,
            entry: e,
            file: met_file(x, f),
        },
        Answer::Refused(_) => Verdict {
            answer: a,
            entry: e,
            file: f,
        },
    }
}
