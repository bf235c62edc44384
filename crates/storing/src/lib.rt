// A session in bytes that a caller lends: 18 entries of 22 bytes, as tables has them, then four open-file states, numbers low byte first,
// then what the session says of itself.
// With a buffer for each open file, or with none: the number of the bytes says which.
#![tactic(auto)]

ghost use Rattle.std.specs.Prelude.{◌≡◌, ◌≤◌};
ghost use Rattle.storing.specs.Stored.{held_width, width, has_buffers, no_hold, saying_stored, start_saying, start_table, lay_start};

use geometry::Geometry;
use laying::copy_table;
use moving::{fill, lay};
use sessions::{Holding, Saying};
use tables::Width;

// The places and sizes of a session's parts.
#[derive(Drop)]
pub struct Form {}

impl Form {
    // The bytes of an open-file state.
    pub const FILE: usize = 30;
    // The bytes of an open-file state with its buffer.
    pub const HELD: usize = 396;
    // Where the buffer stands in it.
    pub const BUFFER: usize = 36;
    // Where the open-file states begin, behind 18 entries.
    pub const FILES: usize = 396;
    // The bytes of what a session says of itself, which are its last.
    pub const SAYING: usize = 1;
    // The bytes of a session.
    pub const SESSION: usize = 517;
    // The bytes of a session with buffers.
    pub const BUFFERED: usize = 1981;
}

// Whether so many bytes are to be a session with buffers.
pub fn has_buffers(b: &[u8]) -> bool
    ensures { result ≡ has_buffers b.now }
{
    b.len() == Form::BUFFERED
}

// The bytes of an open-file state there.
// Stays: a truth value chooses, since the definition `width` has two cases of one.
pub fn state_width(buffers: bool) -> usize
    ensures { (result ≡ width buffers) × (result ≤ held_width) }
{
    if buffers { Form::HELD } else { Form::FILE }
}

// A buffer that holds nothing.
// Stays: a function, since its clause names `no_hold`; the clause of a derived Default would name no definition.
pub fn no_hold() -> Holding
    ensures { result ≡ no_hold }
{
    Holding {
        holds: false,
        held: 0,
        changed: false,
    }
}

// ---- a session with nothing open

fn saying_bytes(s: Saying) -> [u8; 1]
    ensures { result ≡ saying_stored s }
{
    [u8::from(s.refused)]
}

// What a session with nothing open says of itself.
fn start_saying(mounted: bool) -> Saying
    ensures { result ≡ start_saying mounted }
{
    Saying { refused: !mounted }
}

// Lays a session with nothing open over bytes that are as many as one takes: with the directory of the image, if that is mounted, or with no used
// entry and saying that the mounting was refused.
pub fn put_start(b: &mut [u8], image: &[u8], mounted: bool)
    ensures { b.new ≡ lay_start b.old (start_saying mounted) (start_table mounted image.now) }
{
    let n = b.len();
    if (n == Form::SESSION) | (n == Form::BUFFERED) {
        fill(b, 0, n, 0);
        let says = saying_bytes(start_saying(mounted));
        lay(b, n - Form::SAYING, &says);
        if mounted {
            copy_table(b, Width::TWO, image, Width::ONE, Geometry::ENTRIES);
        }
    }
}
