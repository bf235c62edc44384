// The rows of a script read from files, with the bytes that they use up, and the test of them. What a file gives and what is printed, no
// contract can say.
#![tactic(auto)]

ghost use Rattle.std.specs.Prelude.{◌≤◌, length};

use arguments::{Opened, more, read_full};
use moving::part;
use scripts::{Fault, Row};

// The bytes of a row.
const ROW: usize = 16;

// What is done with each row of a script. A trait, and no closure: to call one that is lent takes a `requires`.
pub trait Visit {
    // Row k, with the bytes that it uses up.
    fn visit(&mut self, k: u32, row: Row, given: &[u8]);
}

// Nothing is done with it.
#[derive(Drop)]
struct Pass {}

impl Visit for Pass {
    fn visit(&mut self, _: u32, _: Row, _: &[u8]) {}
}

// A script in files: its rows, and the bytes that they use up one after another.
#[derive(Drop)]
pub struct Script {
    pub rows: Opened,
    pub bytes: Opened,
}

// ---- reading

// Sees that a file that gave too few bytes did not fail. At its end it gives none, which is no failure.
fn see(file: &mut Opened) -> Result<(), Fault> {
    match more(file) {
        Ok(_) => Ok(()),
        Err(_) => Err(Fault::Unread),
    }
}

// The row that stands next; none at the script's end.
fn next_row(script: &mut Opened) -> Result<Option<Row>, Fault> {
    let mut row = [0u8; ROW];
    let n = read_full(script, &mut row);
    if n < ROW {
        see(script)?;
    }
    if n == 0 {
        return Ok(None);
    }
    scripts::row_of(&row[..n]).map(Some)
}

// Takes the bytes that a row uses up to the start of given.
fn take_bytes(bytes: &mut Opened, row: Row, given: &mut [u8]) -> Result<(), Fault>
    requires { 65536 ≤ length given.old }
{
    let n = row.uses as usize;
    if read_full(bytes, &mut given[..n]) == n {
        return Ok(());
    }
    see(bytes)?;
    Err(scripts::missing_for(row))
}

impl Script {
    // The row that stands next, with the bytes that it uses up at the start of given, where there is room for any row's; none at the script's end.
    pub fn next(&mut self, given: &mut [u8; 65536]) -> Result<Option<Row>, Fault> {
        let Some(row) = next_row(&mut self.rows)? else {
            return Ok(None);
        };
        take_bytes(&mut self.bytes, row, given)?;
        Ok(Some(row))
    }

    // Goes through the first rows, as many as most, with the bytes that each uses up. Whether they were in order. If not, it prints which is the first that is not,
    // and why.
    pub fn each_row(&mut self, rt: &impl Print, most: u32, visitor: &mut impl Visit) -> bool {
        // Stays: a room of fixed size with its length, since nothing is allocated.
        let mut given = [0u8; 65536];
        for k in 0..most {
            match self.next(&mut given) {
                Ok(Some(row)) => visitor.visit(k, row, &given[..row.uses as usize]),
                Ok(None) => return true,
                Err(f) => {
                    print_fault(rt, k, f);
                    return false;
                }
            }
        }
        true
    }

    // Whether the first rows, as many as most, are in order. If not, it prints which is the first that is not, and why.
    pub fn test(&mut self, rt: &impl Print, most: u32) -> bool {
        self.each_row(rt, most, &mut Pass {})
    }
}

// ---- printing

// Prints the n bytes of a line. A line is shorter than the room for it.
pub fn print_line(rt: &impl Print, line: &[u8; 96], n: usize) {
    let _ = rt.write_all(part(line, 0, n));
}

// Prints why row k is not in order.
pub fn print_fault(rt: &impl Print, k: u32, f: Fault) {
    // Stays: a room of fixed size with its length, since nothing is allocated.
    let mut line = [0u8; 96];
    let n = saying::write_fault(&mut line, k, f);
    print_line(rt, &line, n);
}
