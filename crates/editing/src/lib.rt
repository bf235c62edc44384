// The RAD Editor's ADD and DELETE on a session in lent bytes, in both engines: document 02's item 1. No edit looks at a buffer.
// The tests of each stand in that document's order, and an edit ends at the first that holds.
#![tactic(auto)]

ghost use Rattle.std.specs.Prelude.{◌≡◌, true, not, List, ℕ, ◌≤◌};
ghost use Rattle.std.proofs.Math.ListN as ListN;
ghost use Rattle.geometry.specs.Bytes.{is_byte};
ghost use Rattle.geometry.specs.Lists.{every};
ghost use Rattle.geometry.specs.Sizes.{entries};
ghost use Rattle.directory.specs.Entries.{entry_at, is_free};
ghost use Rattle.tables.specs.Tables.{one_word_wide, two_words_wide, table_in, lay_entry};
ghost use Rattle.shapes.specs.Made.{file_made};
ghost use Rattle.requests.specs.declared.Edit.TheVariants.{Add, Delete};
ghost use Rattle.sessions.specs.Session.{bare, file_of, buffered_legal};
ghost use Rattle.steps.specs.Edit.{is_taken_name};
ghost use Rattle.storing.specs.Stored.{has_buffers, is_session, lent_session};
ghost use Rattle.editing.specs.Editing.{edited_in, Handed, Added, Deleted};

use directory::{Entry, free_entry};
use finding::find_in;
use gaps::{lowest_free, lowest_gap};
use geometry::Geometry;
use laying::put_entry;
use requests::{Answer, Edit, Refusal};
use shapes::{is_named, shape_good};
use storing::Form;
use tables::{Width, search_in};

// ---- what a file that is to be added finds

// Whether a session says that it is from a refused mounting.
fn says_refused(b: &[u8]) -> bool
    requires { is_session (has_buffers b.now) b.now ≡ true }
    ensures { result ≡ (lent_session b.now).says.refused }
{
    b[b.len() - Form::SAYING] == 1
}

// Whether an entry of its table has that name.
fn is_taken(b: &[u8], name: &[u8]) -> bool
    ensures { result ≡ is_taken_name (table_in two_words_wide entries b.now) name.now }
{
    search_in(b, Width::TWO, Geometry::ENTRIES, name).is_some()
}

// ---- what an edit stores

// Lays an entry over that of number n, in the image's directory and in the session's table.
fn put_both(image: &mut [u8], session: &mut [u8], n: usize, e: Entry)
    ensures { (image.new ≡ lay_entry one_word_wide entries image.old n e)
        × (session.new ≡ lay_entry two_words_wide entries session.old n e) }
{
    put_entry(image, Width::ONE, Geometry::ENTRIES, n, e);
    put_entry(session, Width::TWO, Geometry::ENTRIES, n, e);
}

// Lays the entry of a file that is added.
// Stays: three numbers apart, as `Edit::Add` and the clause of `lleuadrys_add` (`Add kind length sectors`) have them.
fn put_file(
    image: &mut [u8],
    session: &mut [u8],
    n: usize,
    kind: u16,
    length: u16,
    sectors: u16,
    name: &[u8],
    first: u32,
)
    requires { (ListN.length name.now ≡ 8) × (first ≤ 4096) }
    ensures { (image.new ≡ lay_entry one_word_wide entries image.old n (file_made kind length sectors name.now first))
        × (session.new ≡ lay_entry two_words_wide entries session.old n (file_made kind length sectors name.now first))
        × (every is_byte name.now ≡ true) }
{
    let own = <[u8; 8]>::try_from(name).unwrap();
    let e = Entry {
        name: own,
        kind: kind,
        length: length,
        first: first as u16,
        sectors: sectors,
        count: 0,
        flags: 0,
    };
    put_both(image, session, n, e);
}

// ---- the two edits, on a session that is legal

// ADD: the number of the entry that is added.
// Stays: three numbers apart, as `Edit::Add` and the clause of `lleuadrys_add` (`Add kind length sectors`) have them.
fn add(
    image: &mut [u8],
    session: &mut [u8],
    kind: u16,
    length: u16,
    sectors: u16,
    name: &[u8],
) -> Result<usize, Refusal>
    requires { buffered_legal image.old (lent_session session.old) ≡ true }
    ensures { (i : ℕ) → Added (edited_in image.old session.old i (Add kind length sectors) name.now)
        result image.new session.new }
{
    if says_refused(session) {
        return Err(Refusal::BadImage);
    }
    if !is_named(name) {
        return Err(Refusal::BadName);
    }
    if !shape_good(kind, length, sectors) {
        return Err(Refusal::BadShape);
    }
    if is_taken(session, name) {
        return Err(Refusal::NameInUse);
    }
    let Some(n) = lowest_free(session, Width::TWO, Geometry::ENTRIES) else {
        return Err(Refusal::NoEntry);
    };
    let all = Geometry::sectors_of(image) as u32;
    let first = lowest_gap(session, Width::TWO, Geometry::ENTRIES, all, sectors);
    if all <= first {
        return Err(Refusal::NoGap);
    }
    put_file(image, session, n, kind, length, sectors, name, first);
    Ok(n)
}

// DELETE, of an entry of which is known whether it is used and whether its file is open.
fn delete(
    image: &mut [u8],
    session: &mut [u8],
    i: usize,
    used: bool,
    opened: bool,
) -> Result<(), Refusal>
    requires { (buffered_legal image.old (lent_session session.old) ≡ true)
        × ((used ≡ not (is_free (entry_at (lent_session session.old).table i))) × (opened ≡ (file_of (bare (lent_session session.old)).files i).used)) }
    ensures { (name : List ℕ) → Deleted (edited_in image.old session.old i Delete name)
        result image.new session.new }
{
    if !used {
        return Err(Refusal::NotThere);
    }
    if opened {
        return Err(Refusal::AlreadyOpen);
    }
    put_both(image, session, i, free_entry());
    Ok(())
}

// An edit on the session that the lent bytes are: ADD adds a file of that name, and its entry's number goes into at; DELETE deletes the file of entry i.
pub fn edit(
    image: &mut [u8],
    session: &mut [u8],
    i: usize,
    x: Edit,
    name: &[u8],
    at: &mut usize,
) -> Answer
    ensures { Handed (edited_in image.old session.old i x name.now)
        result image.new session.new at.old at.new }
{
    let seen = find_in(image, session, i);
    if !seen.lawful {
        return Answer::Refused(Refusal::NotLegal);
    }
    match x {
        Edit::Add {
            kind,
            length,
            sectors,
        } => match add(image, session, kind, length, sectors, name) {
            Ok(n) => {
                *at = n;
                Answer::Done
            }
            Err(y) => Answer::Refused(y),
        },
        Edit::Delete => {
            let e = seen.entry;
            let f = seen.file;
            match delete(image, session, i, e.kind != Geometry::FREE, f.used) {
                Ok(()) => Answer::Done,
                Err(y) => Answer::Refused(y),
            }
        }
    }
}
