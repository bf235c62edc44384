// One request, judged once for both engines: document 01's "The tape a file is" and "Answer numbers". The next entry and the next state of its
// file are made by `following`.
// Decoding happens only in its turn: a request is first judged as if a bad code were met, and only where that gives 11 is anything decoded.
#![tactic(auto)]

ghost use Rattle.std.specs.Prelude.{◌≡◌, ℕ, true, false, ◌&&◌, ◌+◌, ◌*◌, ◌≤◌, eqb, length};
ghost use Rattle.std.proofs.lemmas.List.Edits.{sets};
ghost use Rattle.geometry.specs.Bytes as Bytes;
ghost use Rattle.geometry.specs.Sizes.{blocked, random};
ghost use Rattle.geometry.specs.Sizes as Sizes;
ghost use Rattle.directory.specs.Entries.{is_kind};
ghost use Rattle.sessions.specs.Session.{extent};
ghost use Rattle.finding.specs.Lent.{seen_in};
ghost use Rattle.straight.specs.Straight.{code_given};
ghost use Rattle.judging.specs.Judged.{scene_seen, judged_in, buffer_in};
ghost use Rattle.steps.proofs.Lawful.{Lawful};
ghost use Rattle.judging.specs.Turns.{Ready, Stands, end_led, here_led, here_into, turn_led, turn_into, TurnOf, written_at, Reaches, carried_to, carried_into, CarryOf, Fixed, record_in, scene_of, Ruled};
ghost use Rattle.judging.specs.Sight.{seen_of, blocked_in};

use answering::{facts, judge, past_code};
use directory::Entry;
use finding::{Seen, find_in, lent_in};
use following::{next, start};
use geometry::{Geometry, Place};
use moving::lay;
use packing::{BadPlace, goes_to_byte, goes_to_sector};
use requests::{Answer, Refusal, Request};
use sessions::OpenFile;
use steps::Verdict;
use straight::encode_given;
use walking::{Extent, walk};

// ---- copying

// The place behind the record written, whose code has so many bytes.
fn behind_written(e: Entry, f: OpenFile, code: usize) -> Place
    requires { Reaches code e f }
    ensures { result ≡ written_at code e f }
{
    let p = f.here;
    if e.kind == Geometry::COMPRESSED {
        Place {
            sector: goes_to_sector(p, code) as u32,
            byte: (goes_to_byte(p, code) + code) as u32,
        }
    } else {
        p
    }
}

// Lays the record of n bytes that a part of a sector begins with over the first bytes of the buffer.
fn read_record(part: &[u8], n: usize, buffer: &mut [u8])
    requires { n ≤ length part.now }
    ensures { buffer.new ≡ Bytes.lay buffer.old 0 (Bytes.part part.now 0 n) }
{
    lay(buffer, 0, &part[0..n]);
}

// The same, of a sector, and of those behind it, from the record's byte offset on.
fn lay_part(sector: &[u8], o: usize, n: usize, buffer: &mut [u8])
    requires { o + n ≤ length sector.now }
    ensures { buffer.new ≡ Bytes.lay buffer.old 0 (Bytes.part sector.now o n) }
{
    read_record(&sector[o..], n, buffer);
}

// ---- what a request is answered

// What a request is answered, and the place that its file's next state is made from.
#[derive(Clone, Copy)]
struct Ruling {
    answer: Answer,
    place: Place,
}

// A file as a request finds it: its entry, its state and its extent.
#[derive(Clone, Copy)]
struct Sight<'a> {
    entry: Entry,
    file: OpenFile,
    extent: Extent<'a>,
}

impl<'a> Sight<'a> {
    // The end place of a file that is opened.
    fn end_place(&self) -> Result<Place, BadPlace>
        ensures { result ≡ end_led self.now.entry self.now.extent.bytes.now }
    {
        let e = self.entry;
        if e.kind == Geometry::COMPRESSED {
            walk(self.extent.bytes, e.sectors, e.length, e.count)
        } else {
            Ok(start())
        }
    }

    // Whether a blocked record's sector, of that number, is the held one.
    fn is_held(&self, sector: usize) -> bool
        ensures { result ≡ (is_kind blocked self.now.entry && eqb (length self.now.extent.over.now) Sizes.sector)
            && eqb self.now.extent.held sector }
    {
        ((self.entry.kind == Geometry::BLOCKED) & (self.extent.over.len() == Geometry::SECTOR))
            & ((self.extent.held as usize) == sector)
    }

    // Lays record or granule k of a file that is not compressed over the first bytes of the buffer: its sector's part from the record's byte offset,
    // out of the held sector, if it is that one.
    fn copy_record(&self, k: u32, buffer: &mut [u8])
        requires { Fixed self.now.entry k (length self.now.extent.bytes.now) }
        ensures { buffer.new ≡ Bytes.lay buffer.old 0 (record_in self.now.entry k (blocked_in self.now)) }
    {
        let e = self.entry;
        let s = Geometry::sector_of_record(e.kind, e.length, k);
        let o = Geometry::byte_of_record(e.kind, e.length, k);
        let n = e.length as usize;
        if self.is_held(s) {
            lay_part(self.extent.over, o, n, buffer);
        } else {
            let at = Geometry::SECTOR * s;
            lay_part(&self.extent.bytes[at..], o, n, buffer);
        }
    }

    // Reads the record at the position, if there is one, into the first bytes of the buffer. A bad code leaves the buffer as it was.
    fn read_here(&self, buffer: &mut [u8]) -> Result<Place, BadPlace>
        requires { (Ready self.now.entry self.now.file (length self.now.extent.bytes.now)) × (is_kind random self.now.entry ≡ false)
            × (self.now.entry.length ≤ length buffer.old) }
        ensures { (result ≡ here_led self.now.entry self.now.file (seen_of self.now))
            × (buffer.new ≡ here_into self.now.entry self.now.file (seen_of self.now) buffer.old) }
    {
        let e = self.entry;
        let f = self.file;
        if e.count <= f.position {
            return Ok(f.here);
        }
        if e.kind == Geometry::COMPRESSED {
            let n = e.length as usize;
            return self.extent.read_behind(e.sectors, f.here, &mut buffer[..n]);
        }
        self.copy_record(f.position, buffer);
        Ok(f.here)
    }

    // Passes over the record at the position, if there is one.
    fn skip_here(&self) -> Result<Place, BadPlace>
        requires { self.now.file.used ≡ true }
        ensures { result ≡ here_led self.now.entry self.now.file (seen_of self.now) }
    {
        let e = self.entry;
        let f = self.file;
        if e.count <= f.position {
            return Ok(f.here);
        }
        if e.kind == Geometry::COMPRESSED {
            return self.extent.skip_behind(e.sectors, e.length, f.here);
        }
        Ok(f.here)
    }

    // What a request decodes, where its turn has come: the records counted, or the record at the position.
    fn decode(&self, q: Request, buffer: &mut [u8]) -> Result<Place, BadPlace>
        requires { TurnOf q self.now.entry self.now.file (length self.now.extent.bytes.now) (length buffer.old) }
        ensures { (result ≡ turn_led q self.now.entry self.now.file (seen_of self.now))
            × (buffer.new ≡ turn_into q self.now.entry self.now.file (seen_of self.now) buffer.old) }
    {
        match q {
            Request::Open => self.end_place(),
            Request::Read => self.read_here(buffer),
            Request::Position(_) => self.skip_here(),
            _ => Ok(start()),
        }
    }

    // What a request that decodes nothing and is answered 0 moves: a granule into the buffer, or the place behind a record written.
    fn carry(&self, q: Request, code: usize, buffer: &mut [u8]) -> Place
        requires { CarryOf q code self.now.entry self.now.file (length self.now.extent.bytes.now) }
        ensures { (result ≡ carried_to code q self.now.entry self.now.file)
            × (buffer.new ≡ carried_into q self.now.entry self.now.file (seen_of self.now) buffer.old) }
    {
        match q {
            Request::Write => behind_written(self.entry, self.file, code),
            Request::GranuleRead(g) => {
                self.copy_record(g, buffer);
                start()
            }
            _ => start(),
        }
    }

    // The ruling on a used entry of a legal session.
    fn ruling(&self, files: u32, q: Request, given: &[u8], code: usize, buffer: &mut [u8]) -> Ruling
        requires { (Lawful self.now.entry self.now.file) × (length self.now.extent.bytes.now ≡ Sizes.sector * self.now.entry.sectors) }
        ensures { (i : ℕ) → Ruled true files code q (scene_of i self.now.entry self.now.file (seen_of self.now) given.now)
            buffer.old result.answer result.place buffer.new }
    {
        let known = facts(
            true,
            true,
            files,
            self.entry,
            self.file,
            given.len(),
            code,
            buffer.len(),
        );
        let first = judge(q, known);
        match first {
            Answer::Refused(Refusal::BadImage) => match self.decode(q, buffer) {
                Ok(p) => Ruling {
                    answer: past_code(q, known),
                    place: p,
                },
                Err(bad) => Ruling {
                    answer: first,
                    place: bad.place,
                },
            },
            Answer::Done => Ruling {
                answer: first,
                place: self.carry(q, code, buffer),
            },
            _ => Ruling {
                answer: first,
                place: start(),
            },
        }
    }
}

// The bytes of an entry's extent, which lies in the image.
fn extent_of(image: &[u8], e: Entry) -> &[u8]
    requires { Sizes.sector * (e.first + e.sectors) ≤ length image.now }
    ensures { result.now ≡ extent e image.now }
{
    let at = Geometry::SECTOR * (e.first as usize);
    let end = at + Geometry::SECTOR * (e.sectors as usize);
    &image[at..end]
}

// The ruling on a request on an entry, by what is seen of it, and the caller's buffer behind it. The held sector of its file, if there is one, is
// lent as over; code is the length of the code of the bytes given.
fn ruling_on(
    image: &[u8],
    seen: Seen,
    over: &[u8],
    q: Request,
    given: &[u8],
    code: usize,
    buffer: &mut [u8],
) -> Ruling
    requires { Stands image.now seen.lawful seen.entry seen.file }
    ensures { (i : ℕ) → Ruled seen.lawful seen.opened code q (scene_seen image.now seen over.now i q given.now)
        buffer.old result.answer result.place buffer.new }
{
    if !seen.lawful {
        return Ruling {
            answer: Answer::Refused(Refusal::NotLegal),
            place: start(),
        };
    }
    let e = seen.entry;
    if e.kind == Geometry::FREE {
        return Ruling {
            answer: Answer::Refused(Refusal::NotThere),
            place: start(),
        };
    }
    let sight = Sight {
        entry: e,
        file: seen.file,
        extent: Extent {
            bytes: extent_of(image, e),
            held: seen.hold.held,
            over,
        },
    };
    sight.ruling(seen.opened, q, given, code, buffer)
}

// ---- the verdict

// A verdict, what was seen of the session, and the length of the code of the bytes given.
#[derive(Clone, Copy)]
pub struct Judged {
    pub verdict: Verdict,
    pub seen: Seen,
    pub size: usize,
}

// The verdict on a request on entry i of the session that the lent bytes are; the code of the bytes given goes into code. The held sector of the file,
// if there is one, is read where it lies.
pub fn verdict_in(
    image: &[u8],
    session: &[u8],
    i: usize,
    q: Request,
    given: &[u8],
    code: &mut [u8],
    buffer: &mut [u8],
) -> Judged
    ensures { (result ≡ judged_in image.now session.now i q given.now (length buffer.old))
        × (buffer.new ≡ buffer_in image.now session.now i q given.now buffer.old)
        × (code.new ≡ sets code.old 0 (code_given (seen_in image.now session.now i).entry given.now)) }
{
    let seen = find_in(image, session, i);
    let e = seen.entry;
    let size = encode_given(e, given, code);
    let h = seen.hold;
    let over = lent_in(session, seen.slot, h.holds);
    let r = ruling_on(image, seen, over, q, given, size, buffer);
    let a = r.answer;
    let p = r.place;
    let f = seen.file;
    let v = next(a, q, i, e, f, p);
    Judged {
        verdict: v,
        seen,
        size,
    }
}
