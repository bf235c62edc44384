// A table of entries in lent bytes, judged and searched where it lies: n entries of 20 bytes, as on an image, or of 22, whose count is two words.
// Fields: name 8, kind 2, length 2, first 2, sectors 2, count 2 or 4, flags 2; high byte first.
#![tactic(auto)]

ghost use Rattle.std.specs.Prelude.{◌≡◌, true, false, ◌&&◌, ℕ, ◌+◌, ◌-◌, ◌*◌, ◌≤◌, ◌<◌, length, MatchOption};
ghost use Rattle.geometry.specs.Bytes.{part, word_at, is_byte};
ghost use Rattle.geometry.specs.Lists.{every};
ghost use Rattle.directory.specs.Entries.{entry_at};
ghost use Rattle.directory.specs.Rules.{names_differ, extents_apart, table_good};
ghost use Rattle.directory.specs.Grouped.{is_zero, entry_good, two_good};
ghost use Rattle.directory.specs.Search.{told, find};
ghost use Rattle.tables.specs.Numbers.{long_at, number_in};
ghost use Rattle.tables.specs.Tables.{Wide, has_rows, count_at, entry_in, entries_in, table_in};

use directory::{Entry, free_entry};
use geometry::Geometry;
use names::is_name;
use vetting::used_good;

// The widths of an entry in bytes.
// Stays: numbers, since the public functions take any width and are promised for all; `has_rows` is false of others.
#[derive(Drop)]
pub struct Width {}

impl Width {
    // The count is one word.
    pub const ONE: usize = 20;
    // The count is two words.
    pub const TWO: usize = 22;
}

// ---- numbers where they lie

// The eight bytes at a place.
#[tactic(auto, unfolding(geometry::specs::Bytes::part))]
// Stays: each of these asks for as many bytes behind its place as it reads; what a table has of them its type says.
fn eight_bytes(b: &[u8], at: usize) -> [u8; 8]
    requires { at + 8 ≤ length b.now }
    ensures { result ≡ part b.now at 8 }
{
    <[u8; 8]>::try_from(&b[at..at + 8]).unwrap()
}

// The eight bytes as one number, the first counting least, to be compared with others or with zero.
fn eight_in(b: &[u8], at: usize) -> usize
    requires { at + 8 ≤ length b.now }
    ensures { (result ≡ number_in (part b.now at 8)) × (every is_byte (part b.now at 8) ≡ true) }
{
    usize::from_le_bytes(eight_bytes(b, at))
}

// The word at a place, high byte first.
fn word_in(b: &[u8], at: usize) -> u16
    requires { at + 2 ≤ length b.now }
    ensures { result ≡ word_at b.now at }
{
    u16::from_be_bytes([b[at], b[at + 1]])
}

// The two words at a place, high word first.
fn long_in(b: &[u8], at: usize) -> u32
    requires { at + 4 ≤ length b.now }
    ensures { (result ≡ long_at b.now at) × (word_at b.now (at + 2) < 65536) }
{
    u32::from_be_bytes([b[at], b[at + 1], b[at + 2], b[at + 3]])
}

// ---- a table where it lies

// Whether bytes have room for so many entries of a width that there is.
pub fn has_rows(b: &[u8], width: usize, rows: usize) -> bool
    ensures { result ≡ has_rows width rows b.now }
{
    if width == Width::ONE {
        rows <= b.len() / Width::ONE
    } else if width == Width::TWO {
        rows <= b.len() / Width::TWO
    } else {
        false
    }
}

// Bytes, an entry's width, and how many entries they begin with.
#[derive(Clone, Copy)]
pub struct Table<'a> {
    pub bytes: &'a [u8],
    pub width: usize,
    pub rows: usize,
    pub ghost wide: { Wide width },
    pub ghost fits: { width * rows ≤ length bytes.now },
}

impl<'a> Table<'a> {
    ghost use Rattle.tables.specs.Table.{rows_of};

    // The table of so many entries that bytes hold; nothing where they have no room for it, or it is of another width.
    pub fn of(b: &'a [u8], width: usize, rows: usize) -> Option<Table<'a>>
        ensures { MatchOption result (has_rows width rows b.now ≡ false)
            (λ t. (has_rows width rows b.now ≡ true) × ((t.bytes.now ≡ b.now) × ((t.width ≡ width) × (t.rows ≡ rows)))) }
    {
        if has_rows(b, width, rows) {
            Some(Table {
                bytes: b,
                width: width,
                rows: rows,
            })
        } else {
            None
        }
    }

    // ---- an entry

    // Where entry i begins.
    // Stays: each method asks for an entry that there is. A row as a value of its own would have its bytes cut out for each look at it.
    fn place(&self, i: usize) -> usize
        requires { i < self.now.rows }
        ensures { (result ≡ self.now.width * i) × (result + self.now.width ≤ length self.now.bytes.now) }
    {
        self.width * i
    }

    // The word k bytes behind.
    // Stays: a word, two words and eight bytes apart. Each is a type of its own, and a function over the size would need one more for each.
    fn word(&self, i: usize, k: usize) -> u16
        requires { (i < self.now.rows) × (k + 2 ≤ self.now.width) }
        ensures { result ≡ word_at self.now.bytes.now (self.now.width * i + k) }
    {
        word_in(self.bytes, self.place(i) + k)
    }

    // The two words.
    fn long(&self, i: usize, k: usize) -> u32
        requires { (i < self.now.rows) × (k + 4 ≤ self.now.width) }
        ensures { (result ≡ long_at self.now.bytes.now (self.now.width * i + k)) × (word_at self.now.bytes.now (self.now.width * i + k + 2) < 65536) }
    {
        long_in(self.bytes, self.place(i) + k)
    }

    // The eight bytes as one number.
    fn eight(&self, i: usize, k: usize) -> usize
        requires { (i < self.now.rows) × (k + 8 ≤ self.now.width) }
        ensures { (result ≡ number_in (part self.now.bytes.now (self.now.width * i + k) 8)) × (every is_byte (part self.now.bytes.now (self.now.width * i + k) 8) ≡ true) }
    {
        eight_in(self.bytes, self.place(i) + k)
    }

    // The count.
    fn count(&self, i: usize) -> u32
        requires { i < self.now.rows }
        ensures { result ≡ count_at self.now.width self.now.bytes.now (self.now.width * i + 16) }
    {
        if self.width == Width::ONE {
            self.word(i, 16) as u32
        } else {
            self.long(i, 16)
        }
    }

    // The entry.
    fn row(&self, i: usize) -> Entry
        requires { i < self.now.rows }
        ensures { result ≡ entry_in self.now.width self.now.bytes.now (self.now.width * i) }
    {
        Entry {
            name: eight_bytes(self.bytes, self.place(i)),
            kind: self.word(i, 8),
            length: self.word(i, 10),
            first: self.word(i, 12),
            sectors: self.word(i, 14),
            count: self.count(i),
            flags: self.word(i, self.width - 2),
        }
    }

    // Entry i; a free one where there is none.
    pub fn entry(&self, i: usize) -> Entry
        ensures { result ≡ entry_at (rows_of self.now) i }
    {
        if i < self.rows {
            self.row(i)
        } else {
            free_entry()
        }
    }

    // ---- the rules of one entry

    // Whether all bytes of entry i are zero: three numbers of eight are, of which the last begins in the one before. A used entry has sectors,
    // which are among the last eight, so these are looked at first.
    fn is_zero(&self, i: usize) -> bool
        requires { i < self.now.rows }
        ensures { result ≡ is_zero (entry_in self.now.width self.now.bytes.now (self.now.width * i)) }
    {
        if self.eight(i, self.width - 8) != 0 {
            return false;
        }
        if self.eight(i, 8) != 0 {
            return false;
        }
        self.eight(i, 0) == 0
    }

    // Whether one that is not zero keeps the rules of one entry, in an image of n sectors.
    fn used_row(&self, i: usize, n: u32) -> bool
        requires { (i < self.now.rows) × (is_zero (entry_in self.now.width self.now.bytes.now (self.now.width * i)) ≡ false) }
        ensures { result ≡ entry_good n (entry_in self.now.width self.now.bytes.now (self.now.width * i)) }
    {
        let at = self.place(i);
        if !is_name(&self.bytes[at..at + 8]) {
            return false;
        }
        used_good(self.row(i), n)
    }

    // The sector behind its extent.
    fn end(&self, i: usize) -> u32
        requires { i < self.now.rows }
        ensures { result ≡ word_at self.now.bytes.now (self.now.width * i + 12) + word_at self.now.bytes.now (self.now.width * i + 14) }
    {
        (self.word(i, 12) as u32) + (self.word(i, 14) as u32)
    }

    // ---- the rules of two entries

    // Whether entry j has another name than a used one, whose name is that number. Eight bytes are compared at once, and a kind is asked for
    // where they are the same.
    fn differs(&self, j: usize, name: usize) -> bool
        requires { j < self.now.rows }
        ensures { (end : ℕ) → end + 8 ≤ length self.now.bytes.now → (name ≡ number_in (part self.now.bytes.now end 8)) × (every is_byte (part self.now.bytes.now end 8) ≡ true) → ¬ (word_at self.now.bytes.now (end + 8) ≡ 0)
            → result ≡ names_differ (entry_in self.now.width self.now.bytes.now (self.now.width * j)) (entry_in self.now.width self.now.bytes.now end) }
    {
        if self.eight(j, 0) != name {
            return true;
        }
        self.word(j, 8) == Geometry::FREE
    }

    // Whether it shares no sector with a used one, which has those from `first` up to `behind`. Both its words are read at once, and its kind
    // where they tell of a shared sector.
    fn apart(&self, j: usize, first: u32, behind: u32) -> bool
        requires { j < self.now.rows }
        ensures { (e : Entry) → first ≡ e.first → behind ≡ e.first + e.sectors → ¬ (e.kind ≡ 0)
            → result ≡ extents_apart (entry_in self.now.width self.now.bytes.now (self.now.width * j)) e }
    {
        let extent = self.long(j, 12);
        if 65536 * (behind as usize) <= (extent as usize) {
            return true;
        }
        if extent / 65536 + extent % 65536 <= first {
            return true;
        }
        self.word(j, 8) == Geometry::FREE
    }

    // Whether entry i, a used one, has another name than each before it.
    fn named_once(&self, i: usize) -> bool
        requires { (i < self.now.rows) × (¬ (word_at self.now.bytes.now (self.now.width * i + 8) ≡ 0)) }
        ensures { result ≡ every (λ f. names_differ f (entry_in self.now.width self.now.bytes.now (self.now.width * i))) (entries_in self.now.width i self.now.bytes.now) }
    {
        let name = self.eight(i, 0);
        for j in 0..i {
            if !self.differs(j, name) {
                return false;
            }
        }
        true
    }

    // Whether it has another name than each before it, and shares no sector with any.
    fn stands_apart(&self, i: usize) -> bool
        requires { (i < self.now.rows) × (¬ (word_at self.now.bytes.now (self.now.width * i + 8) ≡ 0)) }
        ensures { result ≡ every (λ f. two_good f (entry_in self.now.width self.now.bytes.now (self.now.width * i))) (entries_in self.now.width i self.now.bytes.now) }
    {
        let name = self.eight(i, 0);
        let first = self.word(i, 12) as u32;
        let behind = self.end(i);
        for j in 0..i {
            if !self.apart(j, first, behind) {
                return false;
            }
            if !self.differs(j, name) {
                return false;
            }
        }
        true
    }

    // The same, where those before it end by sector `behind`: if it begins there or later it shares none.
    fn two_good(&self, i: usize, behind: u32) -> bool
        requires { ((i < self.now.rows) × (¬ (word_at self.now.bytes.now (self.now.width * i + 8) ≡ 0)))
            × (behind ≤ word_at self.now.bytes.now (self.now.width * i + 12) → every (λ f. extents_apart f (entry_in self.now.width self.now.bytes.now (self.now.width * i))) (entries_in self.now.width i self.now.bytes.now) ≡ true) }
        ensures { result ≡ every (λ f. two_good f (entry_in self.now.width self.now.bytes.now (self.now.width * i))) (entries_in self.now.width i self.now.bytes.now) }
    {
        if (self.word(i, 12) as u32) < behind {
            self.stands_apart(i)
        } else {
            self.named_once(i)
        }
    }

    // ---- the table

    // How many entries there are up to the last that is not zero: those behind it break no rule.
    fn rows_in_use(&self) -> usize
        ensures { (result ≤ self.now.rows) × ((N : ℕ) → table_good N (entries_in self.now.width self.now.rows self.now.bytes.now) ≡ table_good N (entries_in self.now.width result self.now.bytes.now)) }
    {
        for i in (0..self.rows).rev() {
            if !self.is_zero(i) {
                return i + 1;
            }
        }
        0
    }

    // Whether the entries keep every rule of a directory but the decoding one, in an image of n sectors.
    pub fn is_good(&self, n: u32) -> bool
        ensures { result ≡ table_good n (rows_of self.now) }
    {
        let mut behind: u32 = 0;
        for i in 0..self.rows_in_use() {
            if !self.is_zero(i) {
                if !self.used_row(i, n) {
                    return false;
                }
                if !self.two_good(i, behind) {
                    return false;
                }
                behind = behind.max(self.end(i));
            }
        }
        true
    }

    // The number of the lowest entry that has that name.
    pub fn find(&self, name: &[u8]) -> Option<usize>
        ensures { told result ≡ find (rows_of self.now) name.now }
    {
        if name.len() != 8 {
            return None;
        }
        let x = eight_in(name, 0);
        for i in 0..self.rows {
            if self.eight(i, 0) == x {
                if self.word(i, 8) != Geometry::FREE {
                    return Some(i);
                }
            }
        }
        None
    }
}

// ---- the table that bytes hold

// Whether bytes hold a table of so many entries of that width that keeps every rule of a directory but the decoding one, in an image of so many sectors.
// Bytes with no room for it hold none, and there is none of a width but 20 and 22.
pub fn table_good(b: &[u8], width: usize, rows: usize, sectors: u32) -> bool
    ensures { result ≡ (has_rows width rows b.now && table_good sectors (entries_in width rows b.now)) }
{
    match Table::of(b, width, rows) {
        Some(t) => t.is_good(sectors),
        None => false,
    }
}

// Entry i of the table that bytes hold; a free one where there is none.
pub fn entry_in(b: &[u8], width: usize, rows: usize, i: usize) -> Entry
    ensures { result ≡ entry_at (table_in width rows b.now) i }
{
    match Table::of(b, width, rows) {
        Some(t) => t.entry(i),
        None => free_entry(),
    }
}

// The number of the lowest entry of the table that has that name.
pub fn search_in(b: &[u8], width: usize, rows: usize, name: &[u8]) -> Option<usize>
    ensures { told result ≡ find (table_in width rows b.now) name.now }
{
    match Table::of(b, width, rows) {
        Some(t) => t.find(name),
        None => None,
    }
}
