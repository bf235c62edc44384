// The blocking buffer: document 01's "The tape a file is". A file takes the sectors that it reads or changes into its buffer, which is lent: what one act does.
// A buffer of another size than a sector's stays as it is, and nothing is put back from it.
#![tactic(auto)]

ghost use Rattle.std.specs.Prelude.{◌≡◌, true, ◌+◌, ◌≤◌, ◌<◌, ◌^◌, length, refl};
ghost use Rattle.std.proofs.Common.{◌∙◌};
ghost use Rattle.geometry.specs.Bytes.{part};
ghost use Rattle.geometry.specs.Sizes.{sector};
ghost use Rattle.sessions.specs.Session.{has_buffer};
ghost use Rattle.steps.specs.Effects.{sector_at, putting_back, loaded, taking};
ghost use Rattle.steps.specs.Effects as Effects;
ghost use Rattle.straight.specs.Moving.{scene};
ghost use Rattle.blocking.specs.Blocking.{Kept, lent, bench_of, is_there, held_do, held_way};

use directory::{Entry, stamp};
use geometry::Geometry;
use moving::{lay, lay_padded, part};
use placing::{room_behind, sector_at};
use sessions::Holding;
use straight::{Mover, store};

// A file whose sectors are moved by way of its buffer, with what it holds.
#[derive(Drop)]
pub struct Held<'a> {
    pub image: &'a mut [u8],
    pub entry: Entry,
    pub hold: Holding,
    pub buffer: &'a mut [u8],
}

// Whether a file has a blocking buffer: a blocked or compressed one.
fn has_buffer(e: Entry) -> bool
    ensures { result ≡ has_buffer e }
{
    (e.kind == Geometry::BLOCKED) | (e.kind == Geometry::COMPRESSED)
}

// Whether sector k is one of the extent's, whose numbers have 16 bits, and lies in an image of n bytes.
fn is_there(e: Entry, k: usize, n: usize) -> bool
    ensures there { result ≡ is_there e k n }
    ensures small { result ≡ true → k < 2 ^ 16 }
{
    if k < (e.sectors as usize) {
        Geometry::SECTOR * ((e.first as usize) + k) + Geometry::SECTOR <= n
    } else {
        false
    }
}

// ---- the buffer

// A changed buffer goes back to its sector; one that is not changed is not written.
fn lay_back(image: &mut [u8], e: Entry, h: Holding, buffer: &[u8]) -> Holding
    ensures { lent image.new result buffer.now ≡ putting_back e (lent image.old h buffer.now) }
{
    if h.holds & h.changed {
        lay(image, sector_at(e, h.held), buffer);
        return Holding {
            changed: false,
            ..h
        };
    }
    h
}

// The buffer of a file that has one goes back.
pub fn put_back(image: &mut [u8], e: Entry, h: Holding, buffer: &[u8]) -> Holding
    ensures { lent image.new result buffer.now ≡ held_do (scene 0 e) Effects.put_back (lent image.old h buffer.now) }
{
    if (buffer.len() == Geometry::SECTOR) & has_buffer(e) {
        return lay_back(image, e, h, buffer);
    }
    h
}

impl<'a> Held<'a> {
    // Sector k of the extent comes into the buffer, whatever that held.
    fn load(&mut self, k: u32)
        requires { (sector_at self.old.entry k + sector ≤ length self.old.image.now) × (length self.old.buffer.now ≡ sector) }
        ensures { (bench_of self.new ≡ loaded self.old.entry k (bench_of self.old)) × Kept self.old self.new }
    {
        let at = sector_at(self.entry, k);
        let image: &mut [u8] = self.image;
        lay(self.buffer, 0, part(image, at, Geometry::SECTOR));
        self.hold = Holding {
            holds: true,
            held: k,
            changed: false,
        };
    }

    // The file takes sector k, unless it holds it already; what it held goes back first.
    fn take(&mut self, k: u32)
        requires { (sector_at self.old.entry k + sector ≤ length self.old.image.now) × (length self.old.buffer.now ≡ sector) }
        ensures { (bench_of self.new ≡ taking self.old.entry k (bench_of self.old)) × Kept self.old self.new }
    {
        let h = self.hold;
        if h.holds & (h.held == k) {
            return;
        }
        let buffer: &mut [u8] = self.buffer;
        self.hold = lay_back(self.image, self.entry, self.hold, buffer);
        self.load(k);
    }
}

// ---- one effect

impl<'a> Mover for Held<'a> {
    ghost bench = { bench_of };

    ghost entry = { λ m. m.entry };

    ghost Same = { Kept };

    ghost way = { held_way };

    ghost same_entry = { λ a b p. p.0 };

    ghost same_itself = { λ a. (refl, refl, refl) };

    ghost same_on = { λ a b c p q. (q.0 ∙ p.0, q.1 ∙ p.1, q.2 ∙ p.2) };

    fn entry(&self) -> Entry {
        self.entry
    }

    // The file takes sector k, to read it.
    fn hold(&mut self, k: usize) {
        if (self.buffer.len() == Geometry::SECTOR) & is_there(self.entry, k, self.image.len()) {
            self.take(k as u32);
        }
    }

    // The file takes sector k, to lay xs over it from one of its bytes on, with `behind` up to the sector's end.
    fn change(&mut self, k: usize, byte: usize, xs: &[u8], behind: u8) {
        if (self.buffer.len() == Geometry::SECTOR) & is_there(self.entry, k, self.image.len()) {
            self.take(k as u32);
            lay_padded(self.buffer, byte, xs, room_behind(byte), behind);
            self.hold = Holding {
                holds: true,
                changed: true,
                ..self.hold
            };
        }
    }

    // The buffer of a file that has one goes back.
    fn put_back(&mut self) {
        let buffer: &mut [u8] = self.buffer;
        self.hold = put_back(self.image, self.entry, self.hold, buffer);
    }

    // Stays: `store`, `stamp` and `entry` are `Straight`'s word for word; as default methods they would need one more that lends the image, with a clause longer
    // than they are.
    fn store(&mut self, k: u32, given: &[u8]) {
        store(self.image, self.entry, k, given);
    }

    fn stamp(&mut self, i: usize) {
        stamp(self.image, i, self.entry.count, self.entry.flags);
    }
}
