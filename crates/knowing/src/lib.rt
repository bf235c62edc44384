// Whether lent bytes are a session, with buffers or with none: their number, and that each truth value in them is 0 or 1.
#![tactic(auto)]

ghost use Rattle.std.specs.Prelude.{◌≡◌, true, ◌+◌, ◌≤◌, length, get_or};
ghost use Rattle.geometry.specs.Bytes.{is_byte};
ghost use Rattle.geometry.specs.Lists.{every};
ghost use Rattle.storing.specs.Numbers.{is_flag};
ghost use Rattle.storing.specs.Stored.{width, said_width, file_flags, state_flags, saying_flags, is_session};

use geometry::Geometry;
use storing::{Form, state_width};

// Whether a byte is a truth value.
fn is_flag(b: &[u8], at: usize) -> bool
    requires { at + 1 ≤ length b.now }
    ensures { (result ≡ is_flag (get_or b.now at 0)) × (every is_byte b.now ≡ true) }
{
    b[at] <= 1
}

// Whether each truth value of a state is 0 or 1.
fn file_flags(b: &[u8], at: usize) -> bool
    requires { at + 30 ≤ length b.now }
    ensures { (result ≡ file_flags b.now at) × (every is_byte b.now ≡ true) }
{
    is_flag(b, at) & is_flag(b, at + 13)
}

// The same, with what a state with a buffer holds.
// Stays: a truth value chooses, since the definitions `state_flags` and `width` (storing) have two cases of one.
fn state_flags(b: &[u8], buffers: bool, at: usize) -> bool
    requires { at + width buffers ≤ length b.now }
    ensures { (result ≡ state_flags buffers b.now at) × (every is_byte b.now ≡ true) }
{
    if buffers {
        file_flags(b, at) & (is_flag(b, at + 30) & is_flag(b, at + 35))
    } else {
        file_flags(b, at)
    }
}

// Whether each truth value of what a session says of itself is 0 or 1.
fn saying_flags(b: &[u8], at: usize) -> bool
    requires { at + said_width ≤ length b.now }
    ensures { (result ≡ saying_flags b.now at) × (every is_byte b.now ≡ true) }
{
    is_flag(b, at)
}

// Whether bytes are a session, with buffers or with none.
// Stays: with buffers or with none, as the definition is_session has it.
pub fn is_session(b: &[u8], buffers: bool) -> bool
    ensures { result ≡ is_session buffers b.now }
{
    let w = state_width(buffers);
    let says = Form::FILES + Geometry::MOST_OPEN * w;
    if b.len() != says + Form::SAYING {
        return false;
    }
    let mut good = true;
    for k in 0..Geometry::MOST_OPEN {
        good &= state_flags(b, buffers, Form::FILES + w * k);
    }
    good & saying_flags(b, says)
}
