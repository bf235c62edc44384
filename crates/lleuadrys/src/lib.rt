// The calls from C: both engines on a lent image, with the session in lent bytes, whose number says which engine's they are. include/lleuadrys.h has the
// declarations.
#![tactic(auto)]

ghost use Rattle.std.specs.Prelude.{◌≡◌, true, false, [], min, length, get_or};
ghost use Rattle.std.proofs.lemmas.List.Edits.{sets};
ghost use Rattle.decoding.specs.Decode as Decode;
ghost use Rattle.coding.specs.Encode as Encode;
ghost use Rattle.texts.specs.Texts.{Wrote};
ghost use Rattle.characters.specs.Characters.{ascii_of, ebcdic_of};
ghost use Rattle.listing.specs.Listing.{listing};
ghost use Rattle.showing.specs.Lines.{printed_first};
ghost use Rattle.showing.specs.Showing.{begun, Leaves, read_into, room_after, Prints};
ghost use Rattle.requests.specs.Codes.{asked_for};
ghost use Rattle.sessions.specs.Session.{bare, spot_of};
ghost use Rattle.storing.specs.Stored.{size_of, lent_session};
ghost use Rattle.requests.specs.declared.Edit.TheVariants.{Add, Delete};
ghost use Rattle.editing.specs.Editing.{edited_in};
ghost use Rattle.looking.specs.Looking.{look_in, look_place};
ghost use Rattle.telling.specs.Told.{found, field_in, words_of};
ghost use Rattle.calling.specs.Mounted.{mount_number, mount_bytes};
ghost use Rattle.numbering.specs.Codes.{standing, record_at, code_size};
ghost use Rattle.asking.specs.Requested.{left, requested};
ghost use Rattle.lleuadrys.specs.Calls.{Edits, version};

use calling::{look_size, mount, position};
use characters::{to_ascii, to_ebcdic};
use editing::edit;
use numbering::tell;
use requests::{Answer, Edit};
use showing::{Opened, begin, next};
use storing::Form;
use telling::{field_in, find_named, put_words};

// ---- the calls on a session

// How many bytes a session takes.
#[unsafe(no_mangle)]
pub extern "C" fn lleuadrys_session_size() -> usize
    ensures { result ≡ size_of false }
{
    Form::SESSION
}

// How many bytes a session with buffers takes.
#[unsafe(no_mangle)]
pub extern "C" fn lleuadrys_buffered_session_size() -> usize
    ensures { result ≡ size_of true }
{
    Form::BUFFERED
}

// Mounts an image; its number. A refused mounting hands out a session too, with no used entry.
#[unsafe(no_mangle)]
pub extern "C" fn lleuadrys_mount(image: &[u8], session: &mut [u8]) -> u16
    ensures { (result ≡ mount_number image.now session.old)
        × (session.new ≡ mount_bytes image.now session.old) }
{
    match mount(image, session) {
        Ok(()) => 0,
        Err(x) => u16::from(Answer::Refused(x)),
    }
}

// A request by its code on that entry; its number.
#[unsafe(no_mangle)]
pub extern "C" fn lleuadrys_request(
    image: &mut [u8],
    session: &mut [u8],
    entry: usize,
    code: u16,
    granule: u32,
    given: &[u8],
    buffer: &mut [u8],
) -> u16
    ensures { left result image.new session.new buffer.new
        ≡ requested image.old session.old entry (asked_for code granule) given.now buffer.old }
{
    u16::from(asking::request(image, session, entry, code, granule, given, buffer))
}

// Looks at a granule in place: the number of its bytes, 0 where the look is refused; where they begin goes into at.
#[unsafe(no_mangle)]
pub extern "C" fn lleuadrys_look(
    image: &[u8],
    session: &[u8],
    entry: usize,
    granule: u32,
    at: &mut usize,
) -> usize
    ensures { (result ≡ length (look_in image.now session.now entry granule))
        × (at.new ≡ look_place image.now session.now entry granule at.old) }
{
    look_size(image, session, entry, granule, at)
}

// Where an entry's file stands: 0 not open, 1 open, 2 open and beyond the mark; its record goes into at.
#[unsafe(no_mangle)]
pub extern "C" fn lleuadrys_position(session: &[u8], entry: usize, at: &mut u32) -> u16
    ensures { (result ≡ standing (spot_of (bare (lent_session session.now)) entry))
        × (at.new ≡ record_at (spot_of (bare (lent_session session.now)) entry) at.old) }
{
    tell(position(session, entry), at)
}

// The entry of that name in the session's table: 0, and its number goes into at; 8 where none has it, 12 where the bytes are no session.
#[unsafe(no_mangle)]
pub extern "C" fn lleuadrys_find(session: &[u8], name: &[u8], at: &mut usize) -> u16
    ensures { (result ≡ (found session.now name.now).0)
        × (at.new ≡ get_or (found session.now name.now).1 0 at.old) }
{
    match find_named(session, name) {
        Ok(i) => {
            *at = i;
            0
        }
        Err(x) => u16::from(Answer::Refused(x)),
    }
}

// A field of an entry: 1 kind, 2 record length, 3 first sector, 4 sectors, 5 count, 6 flags; 0 for any other, and where there is no such entry in use.
#[unsafe(no_mangle)]
pub extern "C" fn lleuadrys_field(session: &[u8], entry: usize, field: u16) -> u32
    ensures { result ≡ field_in session.now entry field }
{
    field_in(session, entry, field)
}

// ---- the calls of the RAD Editor

// Adds a file; its number. Where that is 0 the new entry's number goes into at.
#[unsafe(no_mangle)]
pub extern "C" fn lleuadrys_add(
    image: &mut [u8],
    session: &mut [u8],
    name: &[u8],
    kind: u16,
    length: u16,
    sectors: u16,
    at: &mut usize,
) -> u16
    ensures { Edits (edited_in image.old session.old 0 (Add kind length sectors) name.now) result image.new session.new
        × (at.new ≡ get_or (edited_in image.old session.old 0 (Add kind length sectors) name.now).told 0 at.old) }
{
    let x = Edit::Add {
        kind: kind,
        length: length,
        sectors: sectors,
    };
    u16::from(edit(image, session, 0, x, name, at))
}

// Deletes the file of an entry; its number.
#[unsafe(no_mangle)]
pub extern "C" fn lleuadrys_delete(image: &mut [u8], session: &mut [u8], entry: usize) -> u16
    ensures { Edits (edited_in image.old session.old entry Delete []) result image.new session.new }
{
    let mut at: usize = 0;
    u16::from(edit(image, session, entry, Edit::Delete, b"", &mut at))
}

// ---- the pass listing

// Begins the pass listing of a file; its number. The name is as it is typed, in ASCII. Where the number is 0, the entry and R are told; where not, the text
// that is put is the whole listing. The number of its bytes goes into size.
#[unsafe(no_mangle)]
pub extern "C" fn lleuadrys_show(
    image: &mut [u8],
    session: &mut [u8],
    name: &[u8],
    entry: &mut usize,
    length: &mut usize,
    out: &mut [u8],
    size: &mut usize,
) -> u16
    ensures { Leaves (begun image.old session.old name.now) result image.new session.new
        entry.old entry.new length.old length.new
        × Wrote out.old 0 (printed_first result) out.new size.new }
{
    let head = begin(image, session, name, out);
    *size = head.size;
    match head.opened {
        Ok(file) => {
            *entry = file.entry;
            *length = file.length;
            0
        }
        Err(a) => u16::from(a),
    }
}

// Reads the next record and makes it a line; its number. Where that is 0, there may be more; where not, the text that is put is the last. The number of its
// bytes goes into size.
#[unsafe(no_mangle)]
pub extern "C" fn lleuadrys_line(
    image: &mut [u8],
    session: &mut [u8],
    entry: usize,
    length: usize,
    out: &mut [u8],
    size: &mut usize,
) -> u16
    ensures { Prints (read_into image.old session.old entry length out.old)
        (room_after image.old session.old entry length out.old)
        result size.new image.new session.new out.new }
{
    let p = next(image, session, Opened { entry, length }, out);
    *size = p.size;
    u16::from(p.answer)
}

// ---- the calls that need no session

// A byte of EBCDIC in ASCII; a full stop for one that no listed character has.
#[unsafe(no_mangle)]
pub extern "C" fn lleuadrys_to_ascii(c: u8) -> u8
    ensures { result ≡ ascii_of c }
{
    to_ascii(c)
}

// A character of ASCII in EBCDIC; a blank for one that is not listed.
#[unsafe(no_mangle)]
pub extern "C" fn lleuadrys_to_ebcdic(c: u8) -> u8
    ensures { result ≡ ebcdic_of c }
{
    to_ebcdic(c)
}

// The version of the library: 10,000 times its first number, 100 times its second, and its third.
#[unsafe(no_mangle)]
pub extern "C" fn lleuadrys_version() -> u32
    ensures { result ≡ version }
{
    30100
}

// Puts the words of an answer's number, as far as there is room; the number of bytes put there.
#[unsafe(no_mangle)]
pub extern "C" fn lleuadrys_words(number: u16, out: &mut [u8]) -> usize
    ensures { (result ≡ min (length (words_of number)) (length out.old)) × (out.new ≡ sets out.old 0 (words_of number)) }
{
    put_words(number, out)
}

// Lists the directory of an image, as far as there is room; the number of bytes put there. A listing has at most 1,596.
#[unsafe(no_mangle)]
pub extern "C" fn lleuadrys_list(image: &[u8], out: &mut [u8]) -> usize
    ensures { (result ≡ min (length (listing image.now)) (length out.old)) × (out.new ≡ sets out.old 0 (listing image.now)) }
{
    listing::write_listing(image, out)
}

// Decodes the record that a code begins with; the number of the code's bytes, 0 where it is bad.
#[unsafe(no_mangle)]
pub extern "C" fn lleuadrys_decode(code: &[u8], text: &mut [u8]) -> usize
    ensures { (result ≡ code_size (Decode.decode (length text.old) code.now))
        × (text.new ≡ Decode.given (Decode.decode (length text.old) code.now) text.old) }
{
    numbering::decode(code, text)
}

// Codes a record, as far as there is room; the number of bytes put there.
#[unsafe(no_mangle)]
pub extern "C" fn lleuadrys_encode(text: &[u8], code: &mut [u8]) -> usize
    ensures { (result ≡ min (length (Encode.encode text.now)) (length code.old)) × (code.new ≡ sets code.old 0 (Encode.encode text.now)) }
{
    numbering::encode(text, code)
}
