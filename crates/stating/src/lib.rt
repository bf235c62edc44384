// An open-file state laid in the bytes of a session, with or without a buffer: numbers low byte first.
#![tactic(auto)]

ghost use Rattle.std.specs.Prelude.{◌≡◌, ◌+◌, ◌*◌, ◌≤◌, ◌<◌};
ghost use Rattle.geometry.specs.Sizes.{most_open};
ghost use Rattle.storing.specs.Stored.{files_at, width, has_buffers, place_stored, file_stored, hold_stored, lay_state, lay_fresh};

use geometry::{Geometry, Place};
use moving::lay;
use sessions::{Holding, OpenFile, fresh};
use storing::{Form, has_buffers, no_hold, state_width};

// ---- the bytes of a state

fn place_bytes(p: Place) -> [u8; 8]
    ensures { result ≡ place_stored p }
{
    let s = p.sector.to_le_bytes();
    let b = p.byte.to_le_bytes();
    [s[0], s[1], s[2], s[3], b[0], b[1], b[2], b[3]]
}

fn file_bytes(f: OpenFile) -> [u8; 30]
    ensures { result ≡ file_stored f }
{
    let u = u8::from(f.used);
    let i = f.entry.to_le_bytes();
    let p = f.position.to_le_bytes();
    let y = u8::from(f.beyond);
    let h = place_bytes(f.here);
    let e = place_bytes(f.end);
    [
        u, i[0], i[1], i[2], i[3], i[4], i[5], i[6], i[7], p[0], p[1], p[2], p[3], y, h[0], h[1],
        h[2], h[3], h[4], h[5], h[6], h[7], e[0], e[1], e[2], e[3], e[4], e[5], e[6], e[7],
    ]
}

fn hold_bytes(h: Holding) -> [u8; 6]
    ensures { result ≡ hold_stored h }
{
    let a = u8::from(h.holds);
    let n = h.held.to_le_bytes();
    let c = u8::from(h.changed);
    [a, n[0], n[1], n[2], n[3], c]
}

// ---- a state of a session

// Where state k begins.
// Stays: a truth value chooses the width, since the definition `width` (storing) has two cases of one.
fn state_place(buffers: bool, k: usize) -> usize
    requires { k < most_open }
    ensures { (result ≡ files_at + width buffers * k) × (result ≤ 1584) }
{
    Form::FILES + state_width(buffers) * k
}

// Lays a state over that of number k, if there is one; its buffer, if it has one, stays.
pub fn put_state(b: &mut [u8], k: usize, f: OpenFile, h: Holding)
    ensures { b.new ≡ lay_state (has_buffers b.old) b.old k f h }
{
    let buffers = has_buffers(b);
    let x = file_bytes(f);
    if k < Geometry::MOST_OPEN {
        let at = state_place(buffers, k);
        lay(b, at, &x);
        if buffers {
            let y = hold_bytes(h);
            lay(b, at + Form::FILE, &y);
        }
    }
}

// Lays a state over that of number k, if there is one; its buffer, if it has one, is a fresh one.
pub fn put_fresh(b: &mut [u8], k: usize, f: OpenFile)
    ensures { b.new ≡ lay_fresh (has_buffers b.old) b.old k f }
{
    put_state(b, k, f, no_hold());
    if has_buffers(b) {
        if k < Geometry::MOST_OPEN {
            let state = fresh(f);
            let buffer = state.buffer;
            lay(b, state_place(true, k) + Form::BUFFER, &buffer);
        }
    }
}
