// An entry found by name in a lent list of entries.
#![tactic(auto)]

ghost use Rattle.std.specs.Prelude.{◌≡◌};
ghost use Rattle.directory.specs.Search.{told, find};

use directory::{Entry, is_named};

// The number of the lowest entry of a list that has that name.
pub fn lookup(entries: &[Entry], name: &[u8]) -> Option<usize>
    ensures { told result ≡ find entries.now name.now }
{
    for (i, e) in entries.iter().enumerate() {
        if is_named(*e, name) {
            return Some(i);
        }
    }
    None
}
