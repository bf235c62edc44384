// Text put into bytes that are lent, piece by piece: what the programs print is made of these. And numbers read from text.
// Stays: lent bytes and a place apart, not a type with methods: `Wrote old at xs new end`, which each public function here promises, has them so.
#![tactic(auto)]

ghost use Rattle.std.specs.Prelude.{◌≡◌, [], ◌∷◌, ◌++◌, ◌+◌, ◌%◌};
ghost use Rattle.texts.specs.Texts.{decimal_in, decimal, Wrote, with_digit, number_in};

// Puts c at the place at, if there is such a place. The place behind it.
pub fn put_byte(out: &mut [u8], at: usize, c: u8) -> usize
    ensures { Wrote out.old at (c ∷ []) out.new result }
{
    if at < out.len() {
        out[at] = c;
        at + 1
    } else {
        at
    }
}

// Puts xs at the place at and behind it, as far as there is room. The place behind them.
pub fn put_all(out: &mut [u8], at: usize, xs: &[u8]) -> usize
    ensures { Wrote out.old at xs.now out.new result }
{
    let mut a = at;
    for &c in xs {
        a = put_byte(out, a, c);
    }
    a
}

// The last digit of n.
fn last_digit(n: u32) -> u8
    ensures { result ≡ 48 + n % 10 }
{
    (48 + n % 10) as u8
}

// Puts the number n in decimal, in at most k digits.
fn put_digits(out: &mut [u8], at: usize, n: u32, k: u32) -> usize
    ensures { Wrote out.old at (decimal_in k n) out.new result }
{
    if k == 0 {
        return at;
    }
    if n < 10 {
        return put_byte(out, at, last_digit(n));
    }
    let a = put_digits(out, at, n / 10, k - 1);
    put_byte(out, a, last_digit(n))
}

// Puts the number n in decimal, and the byte c behind it. The place behind them.
pub fn put_number(out: &mut [u8], at: usize, n: u32, c: u8) -> usize
    ensures { Wrote out.old at (decimal n ++ (c ∷ [])) out.new result }
{
    let a = put_digits(out, at, n, 10);
    put_byte(out, a, c)
}

// A number with a digit more behind it. There is none where c is no digit, or where it has more than 32 bits.
#[tactic(auto, unfolding(crate::specs::Texts::with_digit))]
fn longer(n: u32, c: u8) -> Option<u32>
    ensures { result ≡ with_digit (Some n) c }
{
    if !c.is_ascii_digit() {
        return None;
    }
    n.checked_mul(10)?.checked_add((c - b'0') as u32)
}

// The number that a text says in decimal, in one to ten digits; none if it is anything else.
#[tactic(auto, unfolding(crate::specs::Texts::number_in))]
pub fn number_in(text: &[u8]) -> Option<u32>
    ensures { result ≡ number_in text.now }
{
    if text.is_empty() || 10 < text.len() {
        return None;
    }
    let mut n = 0;
    for &c in text {
        n = longer(n, c)?;
    }
    Some(n)
}
