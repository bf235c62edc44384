// A session in lent bytes, judged and searched where it lies: no session is made of it.
// A contract sees such bytes as the session that they are, and those of a state as that state.
#![tactic(auto)]

ghost use Rattle.std.specs.Prelude.{◌≡◌, false, not, ◌+◌, ◌≤◌, ◌<◌, length, get_or, take, MatchOption};
ghost use Rattle.geometry.specs.Bytes as Bytes;
ghost use Rattle.geometry.specs.Lists.{every};
ghost use Rattle.directory.specs.Entries.{entry_at};
ghost use Rattle.tables.specs.Numbers.{number_in};
ghost use Rattle.sessions.specs.Session.{idle, fresh, bare, is_of, slot_of, open_files, spot_of, held_good, saying_good, legal};
ghost use Rattle.sessions.specs.Grouped.{files_good};
ghost use Rattle.storing.specs.Numbers.{is_set, flag_of};
ghost use Rattle.storing.specs.Stored.{place_in, hold_of, no_hold, unlawful, lent_session};
ghost use Rattle.finding.specs.Whole.{IsFirst};
ghost use Rattle.finding.specs.Lent.{if_used, in_use, state_at, lent_in, seen_of, seen_in};

use directory::{Entry, free_entry};
use gaps::none_used;
use geometry::{Geometry, Place};
use knowing::is_session;
use moving::part;
use sessions::{Holding, OpenFile, Spot, file_good, hold_good, idle, stand};
use std::marker::Model;
use storing::{Form, has_buffers, no_hold, state_width};
use tables::{Width, entry_in, table_good};

// What a request asks of a session: whether it is legal for the image, how many files are open, which state is the entry's or is to be,
// the entry, its file, and what that holds.
#[derive(Clone, Copy)]
pub struct Seen {
    pub lawful: bool,
    pub opened: u32,
    // Stays: the state's number, 4 where there is none, as `slot_of` and the clause `seen_in` of `find_in` have it, and `lay_state` for `put_state`.
    pub slot: usize,
    pub entry: Entry,
    pub file: OpenFile,
    pub hold: Holding,
}

// ---- numbers, low byte first

// The number in the four bytes at a place.
// Stays: apart from `tables`, whose numbers have the high byte first, and asking for the bytes that it reads, which a state has by its type.
fn long_at(b: &[u8], at: usize) -> u32
    requires { at + 4 ≤ length b.now }
    ensures { result ≡ number_in (Bytes.part b.now at 4) }
{
    u32::from_le_bytes([b[at], b[at + 1], b[at + 2], b[at + 3]])
}

// The number in eight bytes.
fn wide_at(b: &[u8], at: usize) -> usize
    requires { at + 8 ≤ length b.now }
    ensures { result ≡ number_in (Bytes.part b.now at 8) }
{
    let eight = <[u8; 8]>::try_from(&b[at..at + 8]).unwrap();
    usize::from_le_bytes(eight)
}

fn is_set(b: &[u8], at: usize) -> bool
    requires { at + 1 ≤ length b.now }
    ensures { result ≡ is_set (get_or b.now at 0) }
{
    b[at] == 1
}

fn place_at(b: &[u8], at: usize) -> Place
    requires { at + 8 ≤ length b.now }
    ensures { result ≡ place_in b.now at }
{
    Place {
        sector: long_at(b, at),
        byte: long_at(b, at + 4),
    }
}

// ---- an open-file state

// The bytes of an open-file state, with its buffer or without. The first 30 are the same.
#[derive(Drop)]
struct State<'a> {
    bytes: &'a [u8],
    // Stays: a truth value, since the definitions `width` and `state_in` (storing) have two cases of one.
    buffers: bool,
}

impl<'a> Model for State<'a> {
    ghost use Rattle.std.specs.Prelude.{◌≡◌, ◌≤◌, true, length};
    ghost use Rattle.sessions.specs.declared.BufferedFile.{BufferedFile};
    ghost use Rattle.storing.specs.Stored.{width, state_in, state_flags};

    ghost Value = { BufferedFile };

    ghost view = { λ s. state_in s.buffers s.bytes.now 0 };

    ghost invariant = { λ s. (width s.buffers ≤ length s.bytes.now) × (state_flags s.buffers s.bytes.now 0 ≡ true) };
}

impl State<'_> {
    fn is_used(&self) -> bool
        ensures { result ≡ self.now.file.used }
    {
        is_set(self.bytes, 0)
    }

    // The same as a number, 0 or 1.
    fn used(&self) -> u32
        ensures { (result ≡ flag_of self.now.file.used) × (result ≤ 1) }
    {
        self.bytes[0] as u32
    }

    fn entry(&self) -> usize
        ensures { result ≡ self.now.file.entry }
    {
        wide_at(self.bytes, 1)
    }

    // Whether it is entry i's.
    fn is_of(&self, i: usize) -> bool
        ensures { result ≡ is_of i self.now.file }
    {
        self.is_used() & (self.entry() == i)
    }

    fn file(&self) -> OpenFile
        ensures { result ≡ self.now.file }
    {
        let b = self.bytes;
        OpenFile {
            used: is_set(b, 0),
            entry: wide_at(b, 1),
            position: long_at(b, 9),
            beyond: is_set(b, 13),
            here: place_at(b, 14),
            end: place_at(b, 22),
        }
    }

    // Its file; the idle one where it is not in use.
    // Stays: two functions, this and `used_hold`; one for both would be given the reading and the value in its place, and be no plainer.
    fn used_file(&self) -> OpenFile
        ensures { result ≡ if_used self.now.file }
    {
        if self.is_used() { self.file() } else { idle() }
    }

    // What it holds; nothing without a buffer.
    fn hold(&self) -> Holding
        ensures { result ≡ hold_of self.now }
    {
        if self.buffers {
            let b = self.bytes;
            Holding {
                holds: is_set(b, 30),
                held: long_at(b, 31),
                changed: is_set(b, 35),
            }
        } else {
            no_hold()
        }
    }

    // The same, and nothing where it is not in use.
    fn used_hold(&self) -> Holding
        ensures { result ≡ hold_of (in_use self.now) }
    {
        if self.is_used() {
            self.hold()
        } else {
            no_hold()
        }
    }
}

// ---- a session

// Bytes that are a session, with buffers or with none.
#[derive(Drop)]
struct LentSession<'a> {
    bytes: &'a [u8],
    // Stays: as in `State`; `is_session` and `states_in` have the same two cases.
    buffers: bool,
}

impl<'a> Model for LentSession<'a> {
    ghost use Rattle.std.specs.Prelude.{◌≡◌, true};
    ghost use Rattle.sessions.specs.declared.BufferedSession.{BufferedSession};
    ghost use Rattle.storing.specs.Stored.{is_session};
    ghost use Rattle.finding.specs.Whole.{whole_in};

    ghost Value = { BufferedSession };

    ghost view = { λ s. whole_in s.buffers s.bytes.now };

    ghost invariant = { λ s. is_session s.buffers s.bytes.now ≡ true };
}

impl<'a> LentSession<'a> {
    // The session that bytes are, if they are one.
    fn of(bytes: &'a [u8]) -> Option<LentSession<'a>>
        ensures { MatchOption result (unlawful ≡ lent_session bytes.now) (λ s. s ≡ lent_session bytes.now) }
    {
        let buffers = has_buffers(bytes);
        if is_session(bytes, buffers) {
            Some(LentSession { bytes, buffers })
        } else {
            None
        }
    }

    // How many open-file states it has.
    fn states(&self) -> usize
        ensures { (result ≡ length self.now.files) × (result ≡ 4) }
    {
        // For the proof, which has what a value holds where a field of it is named.
        let _ = &self.bytes;
        Geometry::MOST_OPEN
    }

    // State k.
    fn state(&self, k: usize) -> State<'a>
        requires { k < length self.now.files }
        ensures { result ≡ get_or self.now.files k (fresh idle) }
    {
        let w = state_width(self.buffers);
        let at = Form::FILES + w * k;
        State {
            bytes: &self.bytes[at..at + w],
            buffers: self.buffers,
        }
    }

    // Entry i; a free one where there is none.
    fn entry(&self, i: usize) -> Entry
        ensures { result ≡ entry_at self.now.table i }
    {
        entry_in(self.bytes, Width::TWO, Geometry::ENTRIES, i)
    }

    // Whether it says that it is from a refused mounting.
    fn is_refused(&self) -> bool
        ensures { result ≡ self.now.says.refused }
    {
        is_set(
            self.bytes,
            Form::FILES + state_width(self.buffers) * Geometry::MOST_OPEN,
        )
    }

    // ---- legal sessions

    // Whether no state before number k is entry i's.
    fn none_before(&self, k: usize, i: usize) -> bool
        requires { k ≤ length self.now.files }
        ensures { result ≡ every (λ f. not (is_of i f)) (take k (bare self.now).files) }
    {
        for j in 0..k {
            if self.state(j).is_of(i) {
                return false;
            }
        }
        true
    }

    // Whether the open files keep the rules of files.
    fn files_good(&self) -> bool
        ensures { result ≡ files_good self.now.table (bare self.now).files }
    {
        for k in 0..self.states() {
            let s = self.state(k);
            if s.is_used() {
                let f = s.file();
                let e = self.entry(f.entry);
                if !file_good(e, f) {
                    return false;
                }
                if !self.none_before(k, f.entry) {
                    return false;
                }
            }
        }
        true
    }

    // Whether each held sector lies in its file's extent.
    fn holds_good(&self) -> bool
        ensures { result ≡ every (held_good self.now.table) self.now.files }
    {
        for k in 0..self.states() {
            let s = self.state(k);
            let h = s.hold();
            if s.is_used() & h.holds {
                let e = self.entry(s.entry());
                if !hold_good(e, h.held) {
                    return false;
                }
            }
        }
        true
    }

    // How many files are open.
    fn opened(&self) -> u32
        ensures { result ≡ open_files (bare self.now).files }
    {
        let mut n = 0;
        for k in 0..self.states() {
            n += self.state(k).used();
        }
        n
    }

    // Whether it has no used entry and no open file, if it says that it is from a refused mounting.
    fn saying_good(&self) -> bool
        ensures { result ≡ saying_good (bare self.now) }
    {
        if self.is_refused() {
            none_used(self.bytes, Width::TWO, Geometry::ENTRIES) & (self.opened() == 0)
        } else {
            true
        }
    }

    // Whether it is legal for an image, but for what its buffers hold.
    fn is_lawful(&self, image: &[u8]) -> bool
        ensures { result ≡ legal image.now (bare self.now) }
    {
        if Geometry::lawful_length(image) {
            let n = Geometry::sectors_of(image) as u32;
            table_good(self.bytes, Width::TWO, Geometry::ENTRIES, n)
                & (self.files_good() & self.saying_good())
        } else {
            false
        }
    }

    // ---- finding a file

    // The number of the first state that is entry i's.
    fn own(&self, i: usize) -> Option<usize>
        ensures { IsFirst (is_of i) (bare self.now).files result }
    {
        for k in 0..self.states() {
            if self.state(k).is_of(i) {
                return Some(k);
            }
        }
        None
    }

    // The number of the first state that is not in use.
    fn unused(&self) -> Option<usize>
        ensures { IsFirst (λ f. not f.used) (bare self.now).files result }
    {
        for k in 0..self.states() {
            if !self.state(k).is_used() {
                return Some(k);
            }
        }
        None
    }

    // Which state is entry i's: the one it has, else the first that is not in use; 4 where there is none.
    fn slot(&self, i: usize) -> usize
        ensures { result ≡ slot_of (bare self.now).files i }
    {
        match self.own(i) {
            Some(k) => k,
            None => self.unused().unwrap_or(self.states()),
        }
    }

    // The file of state k; idle where that is not in use, or there is none.
    // Stays: two functions, this and `hold`, as `used_file` and `used_hold` are.
    fn file(&self, k: usize) -> OpenFile
        ensures { result ≡ if_used (get_or self.now.files k (fresh idle)).file }
    {
        if k < self.states() {
            self.state(k).used_file()
        } else {
            idle()
        }
    }

    // What state k holds; nothing where there is none.
    fn hold(&self, k: usize) -> Holding
        ensures { result ≡ hold_of (state_at self.now.files k) }
    {
        if k < self.states() {
            self.state(k).used_hold()
        } else {
            no_hold()
        }
    }

    // What it has of entry i.
    fn seen(&self, image: &[u8], i: usize) -> Seen
        ensures { result ≡ seen_of image.now self.now i }
    {
        let lawful = self.is_lawful(image) & self.holds_good();
        let k = self.slot(i);
        let hold = self.hold(k);
        Seen {
            lawful,
            opened: self.opened(),
            slot: k,
            entry: self.entry(i),
            file: self.file(k),
            hold,
        }
    }
}

// ---- bytes that are no session

// Entry i of a session that is legal for no image.
fn unlawful_at(i: usize) -> Entry
    ensures { result ≡ entry_at unlawful.table i }
{
    if i < Geometry::ENTRIES {
        Entry {
            name: [0; 8],
            kind: 5,
            length: 0,
            first: 0,
            sectors: 0,
            count: 0,
            flags: 0,
        }
    } else {
        free_entry()
    }
}

// What is seen of bytes that are no session.
fn unseen(i: usize) -> Seen
    ensures { result ≡ record { lawful = false; opened = 0; slot = 0; entry = entry_at unlawful.table i; file = idle; hold = no_hold } }
{
    Seen {
        lawful: false,
        opened: 0,
        slot: 0,
        entry: unlawful_at(i),
        file: idle(),
        hold: no_hold(),
    }
}

// ---- any bytes

// What the session that bytes are has of entry i.
pub fn find_in(image: &[u8], b: &[u8], i: usize) -> Seen
    ensures { result ≡ seen_in image.now b.now i }
{
    let Some(session) = LentSession::of(b) else {
        return unseen(i);
    };
    session.seen(image, i)
}

// The 360 bytes of state k's buffer in lent bytes, if it holds a sector; else none.
pub fn lent_in(b: &[u8], k: usize, holds: bool) -> &[u8]
    ensures { result.now ≡ lent_in b.now k holds }
{
    if holds & (k < Geometry::MOST_OPEN) {
        part(
            b,
            Form::FILES + Form::HELD * k + Form::BUFFER,
            Geometry::SECTOR,
        )
    } else {
        part(b, 0, 0)
    }
}

// Where entry i's file stands in the session that bytes are.
pub fn spot_in(b: &[u8], i: usize) -> Option<Spot>
    ensures { result ≡ spot_of (bare (lent_session b.now)) i }
{
    let session = LentSession::of(b)?;
    stand(session.file(session.slot(i)))
}
