// The state of a request's file in the lent bytes of a session, with buffers or with none: made ready before the request, and the next one laid behind it.
#![tactic(auto)]

ghost use Rattle.std.specs.Prelude.{◌≡◌};
ghost use Rattle.storing.specs.Stored.{has_buffers};
ghost use Rattle.advancing.specs.Advancing.{readied, lay_next};

use geometry::Geometry;
use laying::put_counts;
use sessions::{Holding, idle};
use stating::{put_fresh, put_state};
use steps::Verdict;
use tables::Width;

// Makes state k fresh, if it is not in use.
pub fn make_ready(session: &mut [u8], k: usize, used: bool)
    ensures { session.new ≡ readied (has_buffers session.old) session.old k used }
{
    if !used {
        put_fresh(session, k, idle());
    }
}

// Lays the count and flags of a verdict's entry over those of entry i, and its state over state k, with what it holds.
pub fn put_next(session: &mut [u8], i: usize, k: usize, v: Verdict, h: Holding)
    ensures { session.new ≡ lay_next (has_buffers session.old) session.old i k v h }
{
    let e = v.entry;
    let f = v.file;
    put_counts(session, Width::TWO, Geometry::ENTRIES, i, e.count, e.flags);
    if f.used {
        put_state(session, k, f, h);
    } else {
        put_fresh(session, k, f);
    }
}
