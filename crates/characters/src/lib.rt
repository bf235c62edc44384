// EBCDIC and ASCII: document 02's item 4, "a full table of 256 bytes from EBCDIC to ASCII, and one of 256 back".
#![tactic(auto)]

ghost use Rattle.std.specs.Prelude.{◌≡◌, map, take};
ghost use Rattle.texts.specs.Texts.{Wrote};
ghost use Rattle.characters.specs.Characters.{ascii_of, ebcdic_of};

// From EBCDIC to ASCII. A full stop stands at each code that no listed character has.
static ASCII: [u8; 256] = *b"\
      ................\
      ................\
      ................\
      ................\
      \x20...........<(+.\
      &..........$*);.\
      -/.........,%_>?\
      ..........:#@'=\"\
      ................\
      ................\
      ................\
      ................\
      .ABCDEFGHI......\
      .JKLMNOPQR......\
      ..STUVWXYZ......\
      0123456789......";

// And back. A blank stands at each character that is not listed.
static EBCDIC: [u8; 256] = *b"\
      \x40\x40\x40\x40\x40\x40\x40\x40\x40\x40\x40\x40\x40\x40\x40\x40\
      \x40\x40\x40\x40\x40\x40\x40\x40\x40\x40\x40\x40\x40\x40\x40\x40\
      \x40\x40\x7F\x7B\x5B\x6C\x50\x7D\x4D\x5D\x5C\x4E\x6B\x60\x4B\x61\
      \xF0\xF1\xF2\xF3\xF4\xF5\xF6\xF7\xF8\xF9\x7A\x5E\x4C\x7E\x6E\x6F\
      \x7C\xC1\xC2\xC3\xC4\xC5\xC6\xC7\xC8\xC9\xD1\xD2\xD3\xD4\xD5\xD6\
      \xD7\xD8\xD9\xE2\xE3\xE4\xE5\xE6\xE7\xE8\xE9\x40\x40\x40\x40\x6D\
      \x40\x40\x40\x40\x40\x40\x40\x40\x40\x40\x40\x40\x40\x40\x40\x40\
      \x40\x40\x40\x40\x40\x40\x40\x40\x40\x40\x40\x40\x40\x40\x40\x40\
      \x40\x40\x40\x40\x40\x40\x40\x40\x40\x40\x40\x40\x40\x40\x40\x40\
      \x40\x40\x40\x40\x40\x40\x40\x40\x40\x40\x40\x40\x40\x40\x40\x40\
      \x40\x40\x40\x40\x40\x40\x40\x40\x40\x40\x40\x40\x40\x40\x40\x40\
      \x40\x40\x40\x40\x40\x40\x40\x40\x40\x40\x40\x40\x40\x40\x40\x40\
      \x40\x40\x40\x40\x40\x40\x40\x40\x40\x40\x40\x40\x40\x40\x40\x40\
      \x40\x40\x40\x40\x40\x40\x40\x40\x40\x40\x40\x40\x40\x40\x40\x40\
      \x40\x40\x40\x40\x40\x40\x40\x40\x40\x40\x40\x40\x40\x40\x40\x40\
      \x40\x40\x40\x40\x40\x40\x40\x40\x40\x40\x40\x40\x40\x40\x40\x40";

// A byte of EBCDIC in ASCII.
pub fn to_ascii(c: u8) -> u8
    ensures { result ≡ ascii_of c }
{
    ASCII[c as usize]
}

// A character of ASCII in EBCDIC.
pub fn to_ebcdic(c: u8) -> u8
    ensures { result ≡ ebcdic_of c }
{
    EBCDIC[c as usize]
}

// Makes bytes of EBCDIC ASCII.
fn make_ascii(bytes: &mut [u8])
    ensures { bytes.new ≡ map ascii_of bytes.old }
{
    for c in bytes.iter_mut() {
        *c = to_ascii(*c);
    }
}

// Makes the first m bytes of out, which are of EBCDIC, ASCII, as far as there are so many. The place behind them.
pub fn translate(out: &mut [u8], m: usize) -> usize
    ensures { Wrote out.old 0 (map ascii_of (take m out.old)) out.new result }
{
    let n = m.min(out.len());
    make_ascii(&mut out[..n]);
    n
}
