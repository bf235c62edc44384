// The movers of bytes: bytes and words read, parts, and bytes laid over others. What does not fit is not laid, and past the end there are zeros.
#![tactic(auto)]

ghost use Rattle.std.specs.Prelude.{◌≡◌, ◌+◌, ◌≤◌, leb, length, get_or, set, replicate};
ghost use Rattle.geometry.specs.Bytes.{word_at, padded};
ghost use Rattle.geometry.specs.Bytes as Bytes;

// Whether n bytes from byte at on lie within len bytes.
fn fits(at: usize, n: usize, len: usize) -> bool
    ensures { result ≡ leb (at + n) len }
{
    at <= len && n <= len - at
}

// The byte at a place, and 0 past the end.
pub fn byte_at(s: &[u8], at: usize) -> u8
    ensures { result ≡ get_or s.now at 0 }
{
    s.get(at).copied().unwrap_or(0)
}

// The word at a place, high byte first, with zeros past the end.
#[tactic(auto, unfolding(geometry::specs::Bytes::word_at))]
pub fn word_at(s: &[u8], at: usize) -> u16
    ensures { result ≡ word_at s.now at }
{
    if at < s.len() {
        u16::from_be_bytes([s[at], byte_at(s, at + 1)])
    } else {
        0
    }
}

// The n bytes from byte at on, as far as there are any.
#[tactic(auto, unfolding(geometry::specs::Bytes::part))]
pub fn part(s: &[u8], at: usize, n: usize) -> &[u8]
    ensures { result.now ≡ Bytes.part s.now at n }
{
    let rest = &s[at.min(s.len())..];
    &rest[..n.min(rest.len())]
}

// Puts b at a place, if there is such a place.
pub fn put(out: &mut [u8], at: usize, b: u8)
    ensures { out.new ≡ set out.old at b }
{
    if at < out.len() {
        out[at] = b;
    }
}

// Lays the bytes xs, which fit, over those from byte at on, byte by byte.
// Stays: no `copy_from_slice` of a length that is not fixed, which needs `memmove` from outside; C is told that memcpy and memset are enough.
fn lay_bytes(out: &mut [u8], at: usize, xs: &[u8])
    requires { at + length xs.now ≤ length out.old }
    ensures { out.new ≡ Bytes.lay out.old at xs.now }
{
    let mut i = 0;
    while i < xs.len() {
        out[at + i] = xs[i];
        i += 1;
    }
}

// Lays the 32 bytes of xs from byte i on over those from byte at + i on. All of them are read before one is written, so that they can be moved at once.
fn lay_piece(out: &mut [u8], at: usize, xs: &[u8], i: usize)
    requires { (i + 32 ≤ length xs.now) × (at + length xs.now ≤ length out.old) }
    ensures { out.new ≡ Bytes.lay out.old (at + i) (Bytes.part xs.now i 32) }
{
    let mut piece = [0u8; 32];
    lay_bytes(&mut piece, 0, &xs[i..i + 32]);
    lay_bytes(out, at + i, &piece);
}

// Lays the bytes xs, 32 or more, which fit, over those from byte at on, 32 a turn. The last turn lays the last 32, some of which may be laid already.
// Stays: i steps by pieces, of which the last overlaps the one before it.
fn lay_pieces(out: &mut [u8], at: usize, xs: &[u8])
    requires { (32 ≤ length xs.now) × (at + length xs.now ≤ length out.old) }
    ensures { out.new ≡ Bytes.lay out.old at xs.now }
{
    let mut i = 0;
    while i < xs.len() {
        let from = i.min(xs.len() - 32);
        lay_piece(out, at, xs, from);
        i = from + 32;
    }
}

// Lays the bytes xs over those from byte at on, if they fit there.
pub fn lay(out: &mut [u8], at: usize, xs: &[u8])
    ensures { out.new ≡ Bytes.lay out.old at xs.now }
{
    if fits(at, xs.len(), out.len()) {
        if xs.len() < 32 {
            lay_bytes(out, at, xs);
        } else {
            lay_pieces(out, at, xs);
        }
    }
}

// Lays n times the byte b over the bytes from byte at on, if they fit there.
#[tactic(auto, unfolding(geometry::specs::Bytes::lay))]
pub fn fill(out: &mut [u8], at: usize, n: usize, b: u8)
    ensures { out.new ≡ Bytes.lay out.old at (replicate n b) }
{
    if fits(at, n, out.len()) {
        out[at..at + n].fill(b);
    }
}

// Lays the bytes xs, with b behind them up to n bytes, over those from byte at on, if all that fits there.
pub fn lay_padded(out: &mut [u8], at: usize, xs: &[u8], n: usize, b: u8)
    ensures { out.new ≡ Bytes.lay out.old at (padded b n xs.now) }
{
    let m = xs.len();
    if m < n {
        if fits(at, n, out.len()) {
            lay(out, at, xs);
            fill(out, at + m, n - m, b);
        }
    } else {
        lay(out, at, xs);
    }
}
