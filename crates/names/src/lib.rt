// A name: document 01's "Sizes and the directory".
#![tactic(auto)]

ghost use Rattle.std.specs.Prelude.{◌≡◌, ◌&&◌, ◌||◌, ◌/◌, ◌%◌, ◌^◌, ◌==◌, leb};
ghost use Rattle.names.specs.Names.{capital, digit, is_name};

use geometry::Geometry;

// Sets of the bytes from C0 on, one bit for each. Bits 1 to 9 stand for C1 to C9, which are A to I, bits 17 to 25 for D1 to D9, J to R,
// bits 34 to 41 for E2 to E9, S to Z, and bits 48 to 57 for F0 to F9, the digits.
const CAPITALS: u64 = 0x000003FC03FE03FE;

const CAPITALS_AND_DIGITS: u64 = 0x03FF03FC03FE03FE;

// Whether a set has c.
fn is_in(set: u64, c: u8) -> bool
    ensures { result ≡ (leb 192 c && ((set / 2 ^ (c % 64)) % 2 == 1)) }
{
    if c < 0xC0 {
        return false;
    }
    (set >> (c % 64)) % 2 == 1
}

// Whether c is a capital letter.
fn is_capital(c: u8) -> bool
    ensures { result ≡ capital c }
{
    is_in(CAPITALS, c)
}

// Whether c is a capital letter or a digit.
fn is_capital_or_digit(c: u8) -> bool
    ensures { result ≡ (capital c || digit c) }
{
    is_in(CAPITALS_AND_DIGITS, c)
}

// Whether x is a capital letter followed by capitals or digits, then only blanks: behind the first blank no more capitals or digits.
// Stays: one pass with a flag, its index counted by hand. By `position` and `all` a name of eight bytes took 74 instructions in place of 40. A look at a granule in
// a directory of 18 files then took 1.25 times as many as before, and a refused request more than 1.2 times those of C. It is put in the place of its call, which
// costs a table's test less stack.
#[inline(always)]
pub fn is_name(x: &[u8]) -> bool
    ensures { result ≡ is_name x.now }
{
    if x.len() == 0 {
        return false;
    }
    let mut ended = false;
    let mut k: usize = 1;
    while k < x.len() {
        let c = x[k];
        if ended {
            if c != Geometry::BLANK {
                return false;
            }
        } else {
            if !is_capital_or_digit(c) {
                if c != Geometry::BLANK {
                    return false;
                }
                ended = true;
            }
        }
        k += 1;
    }
    is_capital(x[0])
}
