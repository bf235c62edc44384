// Entries laid in a table in lent bytes, of 20 bytes each or of 22: one entry, the count and flags of one, and a whole table in another width.
#![tactic(auto)]

ghost use Rattle.std.specs.Prelude.{◌≡◌, true, false, ◌&&◌, [], ◌∷◌, ◌++◌, ◌+◌, ◌-◌, ◌*◌, ◌≤◌, ltb, length, MatchOption};
ghost use Rattle.geometry.specs.Bytes as Bytes;
ghost use Rattle.tables.specs.Rows.{row_of};
ghost use Rattle.tables.specs.Table.{rows_of};
ghost use Rattle.tables.specs.Tables.{Wide, has_rows, entry_of, count_of, lay_entry, lay_counts, copied};

use directory::{Entry, entry_bytes};
use moving::lay;
use tables::{Table, Width, has_rows};

// Where entry i of the table that bytes hold begins, if there is one of that number.
fn place(b: &[u8], width: usize, rows: usize, i: usize) -> Option<usize>
    ensures { MatchOption result ((has_rows width rows b.now && ltb i rows) ≡ false)
        (λ at. ((has_rows width rows b.now && ltb i rows) ≡ true) × ((at ≡ width * i) × (Wide width × (at + width ≤ length b.now)))) }
{
    let t = Table::of(b, width, rows)?;
    if i < t.rows { Some(t.width * i) } else { None }
}

// ---- count and flags

// Lays a count of one word or two, by an entry's width, and flags over the bytes from byte at on.
fn put_count(b: &mut [u8], width: usize, at: usize, count: u32, flags: u16)
    requires { Wide width × (at + (width - 16) ≤ length b.old) }
    ensures { b.new ≡ Bytes.lay b.old at (count_of width count ++ Bytes.word flags) }
{
    if width == Width::ONE {
        lay(b, at, &((count % 65536) as u16).to_be_bytes());
        lay(b, at + 2, &flags.to_be_bytes());
    } else {
        lay(b, at, &count.to_be_bytes());
        lay(b, at + 4, &flags.to_be_bytes());
    }
}

// Lays a count and flags over those of entry i of the table that bytes hold, if there is one of that number.
pub fn put_counts(b: &mut [u8], width: usize, rows: usize, i: usize, count: u32, flags: u16)
    ensures { b.new ≡ lay_counts width rows b.old i count flags }
{
    if let Some(at) = place(b, width, rows, i) {
        put_count(b, width, at + 16, count, flags);
    }
}

// ---- an entry

// The two bytes of a word, the high one first. The word is turned first: one that was read high byte first is then laid as it was read, and the compiler lays an
// entry's bytes at once.
// Stays: by a factor of 256, for that reason.
#[derive(Drop)]
struct Pair {
    high: u8,
    low: u8,
}

fn two_bytes(x: u16) -> Pair
    ensures { (result.high ∷ result.low ∷ []) ≡ Bytes.word x }
{
    let t = x.swap_bytes();
    Pair {
        high: (t % 256) as u8,
        low: (t / 256) as u8,
    }
}

// A name and seven words, as 22 bytes.
fn twenty_two_bytes(
    name: [u8; 8],
    kind: u16,
    length: u16,
    first: u16,
    sectors: u16,
    high: u16,
    low: u16,
    flags: u16,
) -> [u8; 22]
    ensures { result ≡ name ++ (Bytes.word kind ++ (Bytes.word length ++ (Bytes.word first ++ (Bytes.word sectors ++ (Bytes.word high ++ (Bytes.word low ++ Bytes.word flags)))))) }
{
    let k = two_bytes(kind);
    let l = two_bytes(length);
    let f = two_bytes(first);
    let s = two_bytes(sectors);
    let h = two_bytes(high);
    let w = two_bytes(low);
    let g = two_bytes(flags);
    [
        name[0], name[1], name[2], name[3], name[4], name[5], name[6], name[7], k.high, k.low,
        l.high, l.low, f.high, f.low, s.high, s.low, h.high, h.low, w.high, w.low, g.high, g.low,
    ]
}

// The 22 bytes of an entry.
// Stays: beside `directory::entry_bytes`; `put_row` says why.
fn wide_bytes(e: Entry) -> [u8; 22]
    ensures { result ≡ entry_of 22 e }
{
    let name = e.name;
    let high = (e.count / 65536) as u16;
    let low = (e.count % 65536) as u16;
    twenty_two_bytes(
        name, e.kind, e.length, e.first, e.sectors, high, low, e.flags,
    )
}

// Lays an entry over the bytes from byte at on.
// Stays: all its bytes at once. Laid field by field, the 18 entries of a mounting took some 2,200 instructions more; mounting an image of four files took 3,800
// in place of 1,300.
fn put_row(b: &mut [u8], width: usize, at: usize, e: Entry)
    requires { Wide width × (at + width ≤ length b.old) }
    ensures { (b.new ≡ Bytes.lay b.old at (entry_of width e)) × (length (entry_of width e) ≡ width) }
{
    if width == Width::ONE {
        let x = entry_bytes(e);
        lay(b, at, &x);
    } else {
        let x = wide_bytes(e);
        lay(b, at, &x);
    }
}

// Lays an entry over entry i of the table that bytes hold, if there is one of that number.
pub fn put_entry(b: &mut [u8], width: usize, rows: usize, i: usize, e: Entry)
    ensures { b.new ≡ lay_entry width rows b.old i e }
{
    if let Some(at) = place(b, width, rows, i) {
        put_row(b, width, at, e);
    }
}

// ---- a table in another width

// Lays a table over the front of out, each entry in as many bytes as it is to have there.
fn copy_rows(out: &mut [u8], to: usize, t: &Table)
    requires { Wide to × (to * t.now.rows ≤ length out.old) }
    ensures { out.new ≡ Bytes.lay out.old 0 (row_of (entry_of to) (rows_of t.now)) }
{
    for i in 0..t.rows {
        let e = t.entry(i);
        put_row(out, to, to * i, e);
    }
}

// Lays the table of so many entries that the bytes b hold over the front of out, each entry in as many bytes as it is to have there; nothing where either has no room for it.
pub fn copy_table(out: &mut [u8], to: usize, b: &[u8], from: usize, rows: usize)
    ensures { out.new ≡ copied to out.old from b.now rows }
{
    if has_rows(out, to, rows) {
        if let Some(t) = Table::of(b, from, rows) {
            copy_rows(out, to, &t);
        }
    }
}
