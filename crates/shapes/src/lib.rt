// What document 02's ADD asks of the file that it is given: its name, and its kind, R and number of sectors.
#![tactic(auto)]

ghost use Rattle.std.specs.Prelude.{◌≡◌};
ghost use Rattle.directory.specs.Rules as Rules;
ghost use Rattle.shapes.specs.Made.{is_named, shape_good};

use geometry::Geometry;
use names::is_name;

// Whether bytes are a name: 8 of them, as the directory's rule has it.
pub fn is_named(name: &[u8]) -> bool
    ensures { result ≡ is_named name.now }
{
    name.len() == 8 && is_name(name)
}

// The greatest R of a kind.
fn longest(kind: u16) -> u16
    ensures { result ≡ Rules.longest kind }
{
    match kind {
        Geometry::BLOCKED => Geometry::LONGEST_BLOCKED,
        Geometry::COMPRESSED => Geometry::LONGEST_COMPRESSED,
        _ => Geometry::LONGEST,
    }
}

// Whether they are the kind, R and number of sectors of a file: a kind that there is, an R that the directory's rule for it takes, a sector at least.
pub fn shape_good(kind: u16, length: u16, sectors: u16) -> bool
    ensures { result ≡ shape_good kind length sectors }
{
    let fits = (length % 2 == 0) & ((2 <= length) & (length <= longest(kind)));
    (Geometry::UNBLOCKED <= kind) & ((kind <= Geometry::RANDOM) & (fits & (1 <= sectors)))
}
