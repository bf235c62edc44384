// Sessions of both engines, and the rules of an open file in a legal one: document 01's "Answer numbers", last paragraph,
// and document 02's item 1.
#![tactic(auto)]

ghost use Rattle.std.specs.Prelude.{◌≡◌};
ghost use Rattle.sessions.specs.Session.{idle, fresh, stand, place_good};
ghost use Rattle.sessions.specs.Grouped.{open_good, hold_good};

use directory::{Entry, is_marked};
use geometry::{Geometry, Place};

// An open file: its entry, its position, and for a compressed file the current place and the end place.
#[derive(Clone, Copy)]
pub struct OpenFile {
    // Stays: no option, since what stands behind a flag of 0 comes back as it was: `file_stored` has it, `file_in` reads it, and a legal session may hold any there.
    pub used: bool,
    pub entry: usize,
    pub position: u32,
    pub beyond: bool,
    pub here: Place,
    pub end: Place,
}

// An open file with its blocking buffer: the sector of the extent that it holds, if it holds one, and whether that is changed.
#[derive(Drop)]
pub struct BufferedFile {
    pub file: OpenFile,
    // Stays: no option, as in `Holding`.
    pub holds: bool,
    pub held: u32,
    pub changed: bool,
    pub buffer: [u8; Geometry::SECTOR],
}

// What an open file holds, without the bytes: a sector of its extent, if it holds one, and whether that is changed.
#[derive(Clone, Copy)]
pub struct Holding {
    // Stays: no option, as in an open file: `hold_of` and `hold_stored` have the two behind it, and `lay_state` lays them.
    pub holds: bool,
    pub held: u32,
    pub changed: bool,
}

// What a session says of itself.
#[derive(Clone, Copy)]
pub struct Saying {
    pub refused: bool, // it is from a refused mounting
}

// A session of the engine with no buffer. In memory a session stands in lent bytes (storing); this is what they are read as.
#[derive(Drop)]
pub struct Session {
    pub says: Saying,
    pub table: [Entry; Geometry::ENTRIES],
    pub files: [OpenFile; Geometry::MOST_OPEN],
}

// A session of the engine with a blocking buffer for each open file.
#[derive(Drop)]
pub struct BufferedSession {
    pub says: Saying,
    pub table: [Entry; Geometry::ENTRIES],
    pub files: [BufferedFile; Geometry::MOST_OPEN],
}

// Where an open file stands: before which record, and whether beyond the mark.
#[derive(Clone, Copy)]
pub struct Spot {
    pub record: u32,
    pub beyond: bool,
}

// ---- states

// A state that is not in use.
// Stays: a function, since its clause names `idle`; the clause of a derived Default would name no definition.
pub fn idle() -> OpenFile
    ensures { result ≡ idle }
{
    let start = Place { sector: 0, byte: 0 };
    OpenFile {
        used: false,
        entry: 0,
        position: 0,
        beyond: false,
        here: start,
        end: start,
    }
}

// An open file with a fresh buffer, which holds nothing yet.
// Stays: as `idle`; its clause names `fresh`, and it is given the file.
pub fn fresh(f: OpenFile) -> BufferedFile
    ensures { result ≡ fresh f }
{
    BufferedFile {
        file: f,
        holds: false,
        held: 0,
        changed: false,
        buffer: [0; 360],
    }
}

// ---- where a file stands

// Where a file stands, if it is open.
pub fn stand(f: OpenFile) -> Option<Spot>
    ensures { result ≡ stand f }
{
    if f.used {
        Some(Spot {
            record: f.position,
            beyond: f.beyond,
        })
    } else {
        None
    }
}

// ---- the rules of a session

// Whether a place lies in the extent, at byte 0 to 360.
fn place_good(e: Entry, p: Place) -> bool
    ensures { result ≡ place_good e p }
{
    (p.sector < (e.sectors as u32)) & (p.byte <= (Geometry::SECTOR as u32))
}

// Whether an open file keeps the rules of one file; e is its entry.
pub fn file_good(e: Entry, f: OpenFile) -> bool
    ensures { result ≡ open_good e f }
{
    let here = f.here;
    let end = f.end;
    (f.entry < Geometry::ENTRIES)
        & ((e.kind != Geometry::FREE)
            & ((f.position <= e.count)
                & ((!f.beyond | (is_marked(e) & (f.position == e.count)))
                    & (!(e.kind == Geometry::COMPRESSED)
                        | (place_good(e, here) & place_good(e, end))))))
}

// Whether a sector that a file holds lies in its extent; e is its entry.
pub fn hold_good(e: Entry, held: u32) -> bool
    ensures { result ≡ hold_good e held }
{
    held < (e.sectors as u32)
}
