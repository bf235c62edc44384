// A row of a script played: its request, through the calls that C uses, and the sum of the words that it moved.
#![tactic(auto)]

ghost use Rattle.std.specs.Prelude.{◌≡◌};
ghost use Rattle.asking.specs.Requested.{left};
ghost use Rattle.lleuadrys.specs.Calls.{Edits};
ghost use Rattle.playing.specs.Played.{edit_said, edited, asked, leaves, said_of, said_of_edit, played};

use lleuadrys::{lleuadrys_add, lleuadrys_delete, lleuadrys_position, lleuadrys_request};
use scripts::{Played, Row, is_edit};
use summing::sum_moved;

// What is said of an edit.
fn edit_said(number: u16, told: u32) -> Played
    ensures { result ≡ edit_said number told }
{
    Played {
        number: number,
        sum: told,
        standing: 0,
        position: 0,
    }
}

// Plays a row that adds a file of the name given, or deletes one.
fn play_edit(image: &mut [u8], session: &mut [u8], row: Row, given: &[u8]) -> Played
    ensures { Edits (edited row given.now image.old session.old) result.number image.new session.new
        × (result ≡ said_of_edit (edited row given.now image.old session.old)) }
{
    if row.code != 14 {
        let number = lleuadrys_delete(image, session, row.entry as usize);
        return edit_said(number, 0);
    }
    let mut at: usize = 0;
    let length = (row.granule % 65536) as u16;
    let number = lleuadrys_add(
        image,
        session,
        given,
        row.entry,
        length,
        row.sectors,
        &mut at,
    );
    edit_said(number, at as u32)
}

// Plays a row that asks for one of the requests: a write takes its bytes from what is given, a read lays them in the buffer.
fn play_request(
    image: &mut [u8],
    session: &mut [u8],
    row: Row,
    given: &[u8],
    buffer: &mut [u8],
) -> Played
    ensures { (left result.number image.new session.new buffer.new
        ≡ asked row given.now image.old session.old buffer.old)
        × (result ≡ said_of row given.now (asked row given.now image.old session.old buffer.old)) }
{
    let i = row.entry as usize;
    let number = lleuadrys_request(image, session, i, row.code, row.granule, given, buffer);
    let sum = sum_moved(row, given, number, image, session, buffer);
    let mut at: u32 = 0;
    let standing = lleuadrys_position(session, i, &mut at);
    Played {
        number: number,
        sum: sum,
        standing: standing,
        position: at,
    }
}

// Plays one row.
pub fn play_row(
    image: &mut [u8],
    session: &mut [u8],
    row: Row,
    given: &[u8],
    buffer: &mut [u8],
) -> Played
    ensures { (left result.number image.new session.new buffer.new
        ≡ leaves row given.now image.old session.old buffer.old)
        × (result ≡ played row given.now image.old session.old buffer.old) }
{
    if is_edit(row.code) {
        play_edit(image, session, row, given)
    } else {
        play_request(image, session, row, given, buffer)
    }
}
