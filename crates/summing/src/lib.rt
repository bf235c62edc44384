// The sum of the words that the request of a row moved: what is said of a row behind it.
#![tactic(auto)]

ghost use Rattle.std.specs.Prelude.{◌≡◌};
ghost use Rattle.directory.specs.Entries.{entry_at, table_of};
ghost use Rattle.geometry.specs.Bytes as Bytes;
ghost use Rattle.looking.specs.Looking.{look_in};
ghost use Rattle.asking.specs.Requested.{left};
ghost use Rattle.scripts.specs.Sums.{words_of, sum_of};
ghost use Rattle.summing.specs.Moved.{moved};

use directory::entry_at;
use lleuadrys::lleuadrys_look;
use moving::part;
use requests::{Request, by_code};
use scripts::{Row, sums_of};

// The sum of the words that a read of entry i moved, which are R bytes of the buffer.
fn sum_read(image: &[u8], i: usize, buffer: &[u8]) -> u32
    ensures { result ≡ sum_of (words_of (Bytes.part buffer.now 0 (entry_at (table_of image.now) i).length)) }
{
    let e = entry_at(image, i);
    sums_of(part(buffer, 0, e.length as usize)).words
}

// The sum of the words that a look at granule g of entry i shows.
fn sum_shown(image: &[u8], session: &[u8], i: usize, g: u32) -> u32
    ensures { result ≡ sum_of (words_of (look_in image.now session.now i g)) }
{
    let mut at: usize = 0;
    let n = lleuadrys_look(image, session, i, g, &mut at);
    sums_of(part(image, at, n)).words
}

// The sum of the words that a row's request moved.
// Stays: the number of the answer, as the call from C gave it (lleuadrys_request).
pub fn sum_moved(
    row: Row,
    given: &[u8],
    number: u16,
    image: &[u8],
    session: &[u8],
    buffer: &[u8],
) -> u32
    ensures { result ≡ sum_of (words_of (moved row given.now (left number image.now session.now buffer.now))) }
{
    if number != 0 {
        return 0;
    }
    let i = row.entry as usize;
    match by_code(row.code, row.granule) {
        Some(Request::Read) => sum_read(image, i, buffer),
        Some(Request::GranuleRead(_)) => sum_read(image, i, buffer),
        Some(Request::Write) => sums_of(given).words,
        Some(Request::GranuleWrite(_)) => sums_of(given).words,
        Some(Request::GranuleLook(g)) => sum_shown(image, session, i, g),
        Some(Request::Open) => 0,
        Some(Request::Position(_)) => 0,
        None => 0,
    }
}
