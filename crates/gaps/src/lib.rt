// Where document 02's ADD puts a file: the lowest free entry of a table in lent bytes, and the lowest gap between its extents.
#![tactic(auto)]

ghost use Rattle.std.specs.Prelude.{◌≡◌, ◌≤◌};
ghost use Rattle.geometry.specs.Lists.{every};
ghost use Rattle.directory.specs.Entries.{is_free, entry_at};
ghost use Rattle.tables.specs.Tables.{table_in};
ghost use Rattle.tables.specs.Table.{rows_of};
ghost use Rattle.gaps.specs.Gaps.{IsLowest, is_taken, lowest_gap};
ghost use Rattle.gaps.specs.Sweep as Sweep;

use geometry::Geometry;
use tables::{Table, Width};

// ---- entries

// Whether entry i of a table is free.
fn is_free(t: &Table, i: usize) -> bool
    ensures { result ≡ is_free (entry_at (rows_of t.now) i) }
{
    t.entry(i).kind == Geometry::FREE
}

// The number of a table's lowest free entry, if one is free.
fn free_in(t: &Table) -> Option<usize>
    ensures { IsLowest result (rows_of t.now) }
{
    for i in 0..t.rows {
        if is_free(t, i) {
            return Some(i);
        }
    }
    None
}

// The same of the table that bytes hold.
pub fn lowest_free(b: &[u8], width: usize, rows: usize) -> Option<usize>
    ensures { IsLowest result (table_in width rows b.now) }
{
    let t = Table::of(b, width, rows)?;
    free_in(&t)
}

// Whether no entry of a table is used.
fn all_free(t: &Table) -> bool
    ensures { result ≡ every is_free (rows_of t.now) }
{
    for i in 0..t.rows {
        if !is_free(t, i) {
            return false;
        }
    }
    true
}

// The same of the table that bytes hold.
pub fn none_used(b: &[u8], width: usize, rows: usize) -> bool
    ensures { result ≡ every is_free (table_in width rows b.now) }
{
    match Table::of(b, width, rows) {
        Some(t) => all_free(&t),
        None => true,
    }
}

// ---- sectors

// The sector behind the extent of entry i of a table, where it is used and has one of the n sectors from p on; else p. An extent of no sector, which all free
// entries of a good table have, is asked for first, and last that the entry is used: few extents are in the way.
fn behind(t: &Table, i: usize, n: u16, p: u32) -> u32
    requires { p ≤ 131070 }
    ensures { (result ≡ Sweep.behind n p (entry_at (rows_of t.now) i)) × (result ≤ 131070) }
{
    let e = t.entry(i);
    let first = e.first as u32;
    let end = first + (e.sectors as u32);
    if end == first {
        return p;
    }
    if end <= p {
        return p;
    }
    if p + (n as u32) <= first {
        return p;
    }
    if n == 0 {
        return p;
    }
    if is_free(t, i) {
        return p;
    }
    end
}

// The same over a table's entries, one after the other.
fn swept(t: &Table, n: u16, p: u32) -> u32
    requires { p ≤ 131070 }
    ensures { (result ≡ Sweep.swept n p (rows_of t.now)) × (result ≤ 131070) }
{
    let mut q = p;
    for i in 0..t.rows {
        q = behind(t, i, n, q);
    }
    q
}

// The lowest sector from which on n sectors lie within the image and in no extent of a table: where nothing is in the way any more.
fn gap_in(t: &Table, sectors: u32, n: u16) -> u32
    ensures { result ≡ lowest_gap (is_taken (rows_of t.now)) sectors n }
{
    let mut p: u32 = 1;
    // Stays: no index is counted; p goes on until nothing is in its way.
    while p + (n as u32) <= sectors {
        let q = swept(t, n, p);
        if q == p {
            return p;
        }
        p = q;
    }
    sectors
}

// The first sector of the lowest gap that holds n sectors, in an image of so many; their number where there is none.
// Stays: a number; for n = 0 the loop may end at the number of sectors, which is no gap: an option takes one more test behind it, the one in `add`.
pub fn lowest_gap(b: &[u8], width: usize, rows: usize, sectors: u32, n: u16) -> u32
    ensures { result ≡ lowest_gap (is_taken (table_in width rows b.now)) sectors n }
{
    match Table::of(b, width, rows) {
        Some(t) => gap_in(&t, sectors, n),
        None => {
            let none = Table {
                bytes: b,
                width: Width::ONE,
                rows: 0,
            };
            gap_in(&none, sectors, n)
        }
    }
}
