// A granule shown in place in the image: document 01's "Where a record lies", for both engines, on a session in lent bytes.
#![tactic(auto, unfolding(crate::specs::Looks::looked_by))]

ghost use Rattle.std.specs.Prelude.{◌≡◌};
ghost use Rattle.directory.specs.Entries.{entry_at};
ghost use Rattle.steps.specs.Look.{buffered_look_answer};
ghost use Rattle.storing.specs.Stored.{lent_session};
ghost use Rattle.looking.specs.Looks.{looked_by};
ghost use Rattle.looking.specs.Looking.{look_in, look_answer_in, look_place};

use answering::{facts, judge_granule_look};
use directory::Entry;
use finding::{Seen, find_in};
use geometry::Geometry;
use moving::part;
use placing::record_at;
use requests::Answer;

// The answer to a look, and the entry looked at.
#[derive(Clone, Copy)]
struct Looked {
    answer: Answer,
    entry: Entry,
}

// A look at granule g of what is seen of an entry.
fn look_seen(seen: Seen, g: u32) -> Looked
    ensures { result ≡ looked_by seen g }
{
    let e = seen.entry;
    let known = facts(false, seen.lawful, seen.opened, e, seen.file, 0, 0, 0);
    Looked {
        answer: judge_granule_look(known, g),
        entry: e,
    }
}

// A look at granule g of entry i of the session that the lent bytes are.
fn look_in(image: &[u8], session: &[u8], i: usize, g: u32) -> Looked
    ensures { (result.answer ≡ buffered_look_answer image.now (lent_session session.now) i g)
        × (result.entry ≡ entry_at (lent_session session.now).table i) }
{
    look_seen(find_in(image, session, i), g)
}

// The part of the image that is granule g of entry i, and the byte that it begins at goes into at; an empty part, and at as it was, where the
// look is refused.
// Stays: a part and a place, the form of docs/FORMS.md; `look_place` says what `at` is where the look is refused.
pub fn look<'a>(image: &'a [u8], session: &[u8], i: usize, g: u32, at: &mut usize) -> &'a [u8]
    ensures shows { result.now ≡ look_in image.now session.now i g }
    ensures places { at.new ≡ look_place image.now session.now i g at.old }
{
    let seen = look_in(image, session, i, g);
    let e = seen.entry;
    match seen.answer {
        Answer::Done => {
            let place = record_at(e, Geometry::RANDOM, g);
            *at = place;
            part(image, place, e.length as usize)
        }
        _ => part(image, 0, 0),
    }
}

// The answer to that look.
pub fn look_answer(image: &[u8], session: &[u8], i: usize, g: u32) -> Answer
    ensures { result ≡ look_answer_in image.now session.now i g }
{
    look_in(image, session, i, g).answer
}
