// What a request answered 0 does to the image in the engine with no buffer: every byte is moved straight.
#![tactic(auto)]

ghost use Rattle.std.specs.Prelude.{◌≡◌};
ghost use Rattle.plain.specs.Plain.{acted_with};

use directory::Entry;
use requests::Request;
use sessions::OpenFile;
use straight::Straight;

// A request on entry i. Nothing is held, so no sector is told that a record read lies in.
// Stays: beside `held::act`, for its clause (`acted_with`).
pub fn act(image: &mut [u8], i: usize, e: Entry, f: OpenFile, q: Request, given: &[u8], code: &[u8])
    ensures { image.new ≡ acted_with q i e f given.now code.now image.old }
{
    let mut file = Straight { image, entry: e };
    held::act(&mut file, i, f, q, given, code, 0);
}
