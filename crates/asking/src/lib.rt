// A request by its code, on a session in lent bytes.
#![tactic(auto)]

ghost use Rattle.std.specs.Prelude.{◌≡◌};
ghost use Rattle.requests.specs.Codes.{asked_for};
ghost use Rattle.requests.specs.Numbers.{number_of};
ghost use Rattle.asking.specs.Requested.{left, requested};

use looking::look_answer;
use numbering::unknown;
use requests::{Answer, by_code};

// A request by its code on that entry. One of an unknown code changes nothing.
#[tactic(auto, unfolding(crate::specs::Requested::requested))]
pub fn request(
    image: &mut [u8],
    session: &mut [u8],
    entry: usize,
    code: u16,
    granule: u32,
    given: &[u8],
    buffer: &mut [u8],
) -> Answer
    ensures { left (number_of result) image.new session.new buffer.new
        ≡ requested image.old session.old entry (asked_for code granule) given.now buffer.old }
{
    match by_code(code, granule) {
        Some(q) => engines::request(image, session, entry, q, given, buffer),
        None => unknown(look_answer(image, session, entry, 0)),
    }
}
