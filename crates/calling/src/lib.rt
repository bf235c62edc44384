// The calls from C that ask for no request, on a session in lent bytes: an image mounted, a granule looked at, where a file stands.
#![tactic(auto)]

ghost use Rattle.std.specs.Prelude.{◌≡◌, length};
ghost use Rattle.sessions.specs.Session.{bare, spot_of};
ghost use Rattle.storing.specs.Stored.{lent_session};
ghost use Rattle.looking.specs.Looking.{look_in, look_place};
ghost use Rattle.calling.specs.Mounted.{mount_number, mount_bytes, number_told};

use finding::spot_in;
use looking::look;
use mounting::mounts;
use requests::Refusal;
use sessions::Spot;
use storing::{Form, put_start};

// Mounts an image. A refused mounting hands out a session too, with no used entry. The number of the session's bytes says which engine's they are.
// It is put in the place of its call: a mounting takes less stack so.
#[inline(always)]
pub fn mount(image: &[u8], session: &mut [u8]) -> Result<(), Refusal>
    ensures { (number_told result ≡ mount_number image.now session.old)
        × (session.new ≡ mount_bytes image.now session.old) }
{
    let n = session.len();
    if (n == Form::SESSION) | (n == Form::BUFFERED) {
        let good = mounts(image);
        put_start(session, image, good);
        if good { Ok(()) } else { Err(Refusal::BadImage) }
    } else {
        Err(Refusal::NotLegal)
    }
}

// Looks at a granule in place: the number of its bytes, 0 where the look is refused; where they begin goes into at.
// Stays: a size and a place lent, since C reads them (lleuadrys_look).
pub fn look_size(image: &[u8], session: &[u8], entry: usize, granule: u32, at: &mut usize) -> usize
    ensures { (result ≡ length (look_in image.now session.now entry granule))
        × (at.new ≡ look_place image.now session.now entry granule at.old) }
{
    look(image, session, entry, granule, at).len()
}

// Where an entry's file stands.
pub fn position(session: &[u8], entry: usize) -> Option<Spot>
    ensures { result ≡ spot_of (bare (lent_session session.now)) entry }
{
    spot_in(session, entry)
}
