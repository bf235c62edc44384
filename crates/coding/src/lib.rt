// Writing one compressed record: document 01's "Compressed records". The proofs have the round trip: what is written here reads back.
#![tactic(auto)]

ghost use Rattle.std.specs.Prelude.{◌≡◌, true, false, ◌∷◌, ◌+◌, ◌-◌, ◌<◌, ◌^◌, min, length, take, drop, get_or};
ghost use Rattle.std.proofs.lemmas.List.Edits.{sets};
ghost use Rattle.coding.specs.Encode.{gap_at, run_length, runs_code};
ghost use Rattle.coding.specs.Encode as Encode;

use geometry::Geometry;
use moving::put;

// The length of x without its trailing blanks.
// Stays: by a `for` over `(0..x.len()).rev()` a trailing blank took 6 instructions in place of 4, and a blank record half as much again as before.
pub fn keeps(x: &[u8]) -> usize
    ensures { result ≡ Encode.keeps (length x.now) x.now }
{
    let n = x.len();
    if n == 0 {
        return 0;
    }
    let mut e = n - 1;
    while x[e] == Geometry::BLANK {
        if e == 0 {
            return 0;
        }
        e -= 1;
    }
    e + 1
}

// A record without its trailing blanks: no blank is its last character.
#[derive(Clone, Copy)]
struct Kept<'a> {
    text: &'a [u8],
    ghost kept: { Encode.keeps (length text.now) text.now ≡ length text.now },
}

impl<'a> Kept<'a> {
    // What is kept of x.
    fn of(x: &'a [u8]) -> Kept<'a>
        ensures { result.text.now ≡ take (Encode.keeps (length x.now) x.now) x.now }
    {
        let e = keeps(x);
        Kept { text: &x[..e] }
    }

    // How many blanks the blank run from the place j on has, two at the most: 0 if the character there goes into none.
    fn first_blanks(self, j: usize) -> usize
        requires { j < length self.text.now }
        ensures { result ≡ min 2 (run_length 127 true (get_or (0 ∷ self.entry.text.now) j 0) (drop j self.entry.text.now)) }
    {
        let x = self.text;
        if x[j] != Geometry::BLANK {
            return 0;
        }
        if x[j + 1] == Geometry::BLANK {
            return 2;
        }
        if j == 0 {
            return 0;
        }
        if x[j - 1] == Geometry::BLANK {
            return 1;
        }
        0
    }

    // Whether the character at the place j begins a blank run, where the one before it does not go into one.
    fn begins_gap(self, j: usize) -> bool
        requires { (0 < j) × (j < length self.text.now) × (gap_at self.text.now (j - 1) ≡ false) }
        ensures { result ≡ gap_at self.entry.text.now j }
    {
        let x = self.text;
        if x[j] != Geometry::BLANK {
            return false;
        }
        x[j + 1] == Geometry::BLANK
    }

    // Puts the run of characters that begins at the place i, up to 127, at the place at of out and behind it, as far as there are such places.
    // Returns its length.
    fn put_characters(self, i: usize, out: &mut [u8], at: usize) -> usize
        requires { (i < length self.text.now) × (gap_at self.text.now i ≡ false) × (at + (length self.text.now - i) < 2 ^ 64) }
        ensures { (result ≡ run_length 127 false (get_or (0 ∷ self.entry.text.now) i 0) (drop i self.entry.text.now))
            × (out.new ≡ sets out.old at (take result (drop i self.entry.text.now))) }
    {
        let x = self.text;
        let end = (i + 127).min(x.len());
        put(out, at, x[i]);
        for j in i + 1..end {
            if self.begins_gap(j) {
                return j - i;
            }
            put(out, at + (j - i), x[j]);
        }
        end - i
    }
}

// Puts the code of what is kept of a record into out, run by run, each as long as it can be, up to 127. Returns the code's length.
// Of a blank run the first two characters are read by first_blanks and the others by the scan, each once.
// Stays: i steps by the lengths of the runs, and the nested scan with its labelled break is a form of docs/FORMS.md.
fn put_runs(kept: Kept, out: &mut [u8]) -> usize
    ensures { (result ≡ length (runs_code 0 0 kept.entry.text.now)) × (out.new ≡ sets out.old 0 (runs_code 0 0 kept.entry.text.now)) }
{
    let x = kept.text;
    let mut i = 0;
    let mut at = 0;
    while i < x.len() {
        let mut n = kept.first_blanks(i);
        if n > 0 {
            if n == 2 {
                let mut k = 2;
                n = 'run: loop {
                    if k == 127 {
                        break 'run k;
                    }
                    if x[i + k] != Geometry::BLANK {
                        break 'run k;
                    }
                    k += 1;
                };
            }
            put(out, at, (128 + n) as u8);
            i += n;
            at += 1;
        } else {
            n = kept.put_characters(i, out, at + 1);
            put(out, at, n as u8);
            i += n;
            at += 1 + n;
        }
    }
    put(out, at, 0);
    at + 1
}

// Puts the code of the record x into out, as far as out has room. Returns the length of the whole code.
pub fn encode(x: &[u8], out: &mut [u8]) -> usize
    ensures { (result ≡ length (Encode.encode x.now)) × (out.new ≡ sets out.old 0 (Encode.encode x.now)) }
{
    put_runs(Kept::of(x), out)
}
