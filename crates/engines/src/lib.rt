// A request on a session in lent bytes, in both engines: the number of the bytes says which. One judgement serves both, and each moves bytes in its own way.
#![tactic(auto)]

ghost use Rattle.std.specs.Prelude.{◌≡◌, ◌<◌};
ghost use Rattle.geometry.specs.Sizes.{most_open};
ghost use Rattle.storing.specs.Stored.{has_buffers};
ghost use Rattle.judging.specs.Lent.{after_in};
ghost use Rattle.engines.specs.Engines.{requested};
ghost use Rattle.engines.specs.Parts.{Moved};

use advancing::{make_ready, put_next};
use finding::Seen;
use geometry::Geometry;
use judging::verdict_in;
use moving::part;
use requests::{Answer, Request};
use sessions::Holding;
use storing::{Form, has_buffers};

// ---- what a request answered 0 does

// In a session with buffers, on the buffer of the file's state, which is made fresh first if it is not in use; in one with none, straight in the image. k is the
// sector of the file's next place.
// Stays: image and session side by side, as every call of `lleuadrys` is lent them.
fn act(
    image: &mut [u8],
    session: &mut [u8],
    i: usize,
    seen: Seen,
    q: Request,
    given: &[u8],
    code: &[u8],
    k: u32,
) -> Holding
    requires { seen.slot < most_open }
    ensures { Moved (has_buffers session.old) seen i q given.now code.now k image.old session.old image.new session.new result }
{
    let e = seen.entry;
    let f = seen.file;
    let h = seen.hold;
    if has_buffers(session) {
        let n = seen.slot;
        make_ready(session, n, f.used);
        let at = Form::FILES + Form::HELD * n + Form::BUFFER;
        let end = at + Geometry::SECTOR;
        buffered::act(image, i, e, f, q, given, code, k, h, &mut session[at..end])
    } else {
        plain::act(image, i, e, f, q, given, code);
        h
    }
}

// ---- a request

// A request, with room for a code.
fn request_in(
    image: &mut [u8],
    session: &mut [u8],
    i: usize,
    q: Request,
    given: &[u8],
    code: &mut [u8; Geometry::LONGEST_CODE],
    buffer: &mut [u8],
) -> Answer
    ensures { after_in result image.new session.new buffer.new
        ≡ requested image.old session.old i q given.now buffer.old }
{
    let r = verdict_in(image, session, i, q, given, code, buffer);
    let seen = r.seen;
    let w = r.verdict;
    let a = w.answer;
    match a {
        Answer::Done => {
            let next = w.file;
            let here = next.here;
            let held = act(
                image,
                session,
                i,
                seen,
                q,
                given,
                part(code, 0, r.size),
                here.sector,
            );
            put_next(session, i, seen.slot, w, held);
            a
        }
        Answer::Met(_) => {
            put_next(session, i, seen.slot, w, seen.hold);
            a
        }
        Answer::Refused(_) => a,
    }
}

// One request on entry i of the session that the lent bytes are: a write takes its bytes from what is given, a read lays them in the buffer.
pub fn request(
    image: &mut [u8],
    session: &mut [u8],
    i: usize,
    q: Request,
    given: &[u8],
    buffer: &mut [u8],
) -> Answer
    ensures { after_in result image.new session.new buffer.new
        ≡ requested image.old session.old i q given.now buffer.old }
{
    // Stays: a room of fixed size with its length, since nothing is allocated.
    let mut code = [0u8; Geometry::LONGEST_CODE];
    request_in(image, session, i, q, given, &mut code, buffer)
}
