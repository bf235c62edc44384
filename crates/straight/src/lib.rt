// How an engine moves bytes (`Mover`), and what moves them straight in the image: document 01's "Where a record lies" and "Compressed records".
#![tactic(auto)]

ghost use Rattle.std.specs.Prelude.{◌≡◌, ◌-◌, length, refl};
ghost use Rattle.std.proofs.Common.{◌∙◌};
ghost use Rattle.std.proofs.lemmas.List.Edits.{sets};
ghost use Rattle.directory.specs.Stamp.{stamp_bytes};
ghost use Rattle.geometry.specs.Bytes.{padded};
ghost use Rattle.geometry.specs.Sizes as Sizes;
ghost use Rattle.sessions.specs.Session.{idle, fresh};
ghost use Rattle.steps.specs.Effects.{Bench, store_effect, plain_do};
ghost use Rattle.steps.specs.Effects as Effects;
ghost use Rattle.straight.specs.Moving.{scene, Way, moved_by, straight_way};
ghost use Rattle.straight.specs.Moving as Moving;
ghost use Rattle.straight.specs.Straight.{writing, code_given};

use coding::encode;
use directory::{Entry, stamp};
use geometry::Geometry;
use moving::lay_padded;
use placing::{record_at, room_behind};

// Record or granule k where it lies, with zeros behind it: up to its last sector's end, or to its own end where it shares its sector.
pub fn store(image: &mut [u8], e: Entry, k: u32, given: &[u8])
    ensures { image.new
        ≡ plain_do (writing e idle given.now) (store_effect (writing e idle given.now) k) image.old }
{
    let at = record_at(e, e.kind, k);
    let n = Geometry::bytes_for(e.kind, e.length);
    lay_padded(image, at, given, n, 0);
}

// ---- the code of a record

// Codes the bytes given, if they may be a record of a compressed file; how many bytes their code has. Blanks behind them would be dropped, so none are put there.
pub fn encode_given(e: Entry, given: &[u8], code: &mut [u8]) -> usize
    ensures { (result ≡ length (code_given e given.now)) × (code.new ≡ sets code.old 0 (code_given e given.now)) }
{
    let n = e.length as usize;
    if (e.kind == Geometry::COMPRESSED)
        & ((given.len() <= n) & (e.length <= Geometry::LONGEST_COMPRESSED))
    {
        encode(given, code)
    } else {
        0
    }
}

// ---- how an engine moves bytes

// A file that is moved in one engine's way: its entry, the image, and what the file holds there.
pub trait Mover {
    ghost use Rattle.directory.specs.declared.Entry.{Entry};

    // the image, and what the file holds
    ghost bench: { Self → Bench };

    ghost entry: { Self → Entry };

    // the same file, in the same lent bytes
    ghost Same: { Self → Self → Type 0 };

    // how a sector is held and changed, and how the buffer goes back
    ghost way: { Way };

    fn entry(&self) -> Entry
        ensures { result ≡ entry self.now };

    // Sector k of the extent is read.
    fn hold(&mut self, k: usize)
        ensures { (bench self.new ≡ way (entry self.old) (Effects.hold k) (bench self.old)) × Same self.old self.new };

    // Lays xs over sector k from one of its bytes on, with `behind` up to the sector's end.
    fn change(&mut self, k: usize, byte: usize, xs: &[u8], behind: u8)
        ensures { (bench self.new
            ≡ way (entry self.old) (Effects.change (record { place = record { sector = k; byte = byte }; bytes = padded behind (Sizes.sector - byte) xs.now })) (bench self.old))
            × Same self.old self.new };

    // The buffer goes back.
    fn put_back(&mut self)
        ensures { (bench self.new ≡ way (entry self.old) Effects.put_back (bench self.old)) × Same self.old self.new };

    // Record or granule k where it lies.
    fn store(&mut self, k: u32, given: &[u8])
        ensures { (bench self.new
            ≡ moved_by way (scene 0 (entry self.old)) (store_effect (writing (entry self.old) idle given.now) k) (bench self.old))
            × Same self.old self.new };

    // Count and flags in entry i of the directory.
    fn stamp(&mut self, i: usize)
        ensures { (bench self.new
            ≡ moved_by way (scene i (entry self.old)) (Effects.stamp (stamp_bytes (entry self.old).count (entry self.old).flags)) (bench self.old))
            × Same self.old self.new };

    ghost same_entry: { (a b : Self) → Same a b → entry b ≡ entry a };

    ghost same_itself: { (a : Self) → Same a a };

    ghost same_on: { (a b c : Self) → Same a b → Same b c → Same a c };
}

// A file whose bytes are moved straight in the image: it holds nothing.
#[derive(Drop)]
pub struct Straight<'a> {
    pub image: &'a mut [u8],
    pub entry: Entry,
}

impl<'a> Mover for Straight<'a> {
    ghost bench = { λ m. Moving.bench m.image.now (fresh idle) };

    ghost entry = { λ m. m.entry };

    ghost Same = { λ m n. (n.entry ≡ m.entry) × (n.image.ghost_name ≡ m.image.ghost_name) };

    ghost way = { straight_way };

    ghost same_entry = { λ a b p. p.0 };

    ghost same_itself = { λ a. (refl, refl) };

    ghost same_on = { λ a b c p q. (q.0 ∙ p.0, q.1 ∙ p.1) };

    fn entry(&self) -> Entry {
        self.entry
    }

    fn hold(&mut self, _: usize) {}

    fn change(&mut self, k: usize, byte: usize, xs: &[u8], behind: u8) {
        // what begins past the last number that is counted begins past any image
        let sector = k.saturating_add(self.entry.first as usize);
        let at = Geometry::SECTOR.saturating_mul(sector).saturating_add(byte);
        lay_padded(self.image, at, xs, room_behind(byte), behind);
    }

    fn put_back(&mut self) {}

    fn store(&mut self, k: u32, given: &[u8]) {
        store(self.image, self.entry, k, given);
    }

    fn stamp(&mut self, i: usize) {
        stamp(self.image, i, self.entry.count, self.entry.flags);
    }
}
