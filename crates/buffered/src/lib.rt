// What a request answered 0 does in the engine with a blocking buffer for each open blocked or compressed file.
#![tactic(auto)]

ghost use Rattle.std.specs.Prelude.{◌≡◌};
ghost use Rattle.straight.specs.Moving.{scene};
ghost use Rattle.blocking.specs.Blocking.{lent};
ghost use Rattle.held.specs.Held.{held_all, effects_with};

use blocking::Held;
use directory::Entry;
use requests::Request;
use sessions::{Holding, OpenFile};

// A request on entry i, with what its file holds; k is the sector that a record read of a compressed file lies in.
// Stays: beside `held::act`, for its clause (`held_all`, `effects_with`).
pub fn act(
    image: &mut [u8],
    i: usize,
    e: Entry,
    f: OpenFile,
    q: Request,
    given: &[u8],
    code: &[u8],
    k: u32,
    h: Holding,
    buffer: &mut [u8],
) -> Holding
    ensures { lent image.new result buffer.new
        ≡ held_all (scene i e) (effects_with q e f given.now code.now k) (lent image.old h buffer.old) }
{
    let mut file = Held {
        image,
        entry: e,
        hold: h,
        buffer,
    };
    held::act(&mut file, i, f, q, given, code, k);
    file.hold
}
