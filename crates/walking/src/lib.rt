// Compressed records read in the sectors of an extent: document 01's "Compressed records".
#![tactic(auto)]

ghost use Rattle.std.specs.Prelude.{◌≡◌, true, false, ◌&&◌, ◌⊎◌, ℕ, ◌+◌, ◌*◌, ◌≤◌, eqb, leb, ltb, length, drop, Ok};
ghost use Rattle.std.proofs.Math.ListN as ListN;
ghost use Rattle.geometry.specs.Bytes as Bytes;
ghost use Rattle.geometry.specs.Sizes.{sector};
ghost use Rattle.geometry.specs.Sizes as Sizes;
ghost use Rattle.geometry.specs.Places.{origin};
ghost use Rattle.decoding.specs.Decode.{Decoded, bad_at, answer};
ghost use Rattle.decoding.specs.Decode as Decode;
ghost use Rattle.packing.specs.Reading.{further, goes_on, start_of, got_from, extent_end, read_behind, led_to, walked_to, into};
ghost use Rattle.packing.specs.Reading as Reading;
ghost use Rattle.walking.specs.Extent.{read_in};

use decoding::{BadCode, decode, measure};
use geometry::{Geometry, Place};
use moving::{byte_at, part};
use packing::BadPlace;

// The n-th sector of bytes, as far as there is one.
fn sector_of(bytes: &[u8], n: u32) -> &[u8]
    ensures { result.now ≡ Bytes.part bytes.now (sector * n) sector }
{
    part(bytes, Geometry::SECTOR * (n as usize), Geometry::SECTOR)
}

// A sector's part from byte o on; nothing where it has no such byte.
fn from_byte(sector: &[u8], o: u32) -> &[u8]
    ensures { result.now ≡ drop o sector.now }
{
    let at = o as usize;
    if sector.len() < at {
        return &sector[..0];
    }
    &sector[at..]
}

// The end of an extent of so many sectors: byte 360 of its last.
fn extent_end(sectors: u16) -> Place
    ensures { result ≡ extent_end sectors }
{
    Place {
        sector: (sectors as u32).saturating_sub(1),
        byte: Geometry::SECTOR_END,
    }
}

// The place so many bytes behind the place q of the same sector.
fn further(q: Place, n: usize) -> Place
    requires { q.byte + n ≤ sector }
    ensures { result ≡ further q n }
{
    Place {
        sector: q.sector,
        byte: q.byte + (n as u32),
    }
}

// Where the decoder's answer c leads, for a code that starts at the place q.
fn leads(q: Place, c: Result<usize, BadCode>) -> Result<Place, BadPlace>
    requires { (k : ℕ) → (c ≡ Ok k) ⊎ (c ≡ bad_at k) → q.byte + k ≤ sector }
    ensures { (d : Decoded) → c ≡ answer d → result ≡ led_to (got_from q d) }
{
    match c {
        Ok(e) => Ok(further(q, e)),
        Err(bad) => Err(BadPlace {
            place: further(q, bad.at),
        }),
    }
}

// Reads the record that starts at the place q into out; sector is that place's. A bad code leaves out as it was.
fn read_at(sector: &[u8], q: Place, out: &mut [u8]) -> Result<Place, BadPlace>
    requires { (q.byte ≤ Sizes.sector) × (length sector.now ≤ Sizes.sector) }
    ensures { (result ≡ led_to (got_from q (Decode.decode (length out.old) (drop q.byte sector.now))))
        × (out.new ≡ into (got_from q (Decode.decode (length out.old) (drop q.byte sector.now))) out.old) }
{
    let c = decode(from_byte(sector, q.byte), out);
    leads(q, c)
}

// Passes over the record of that length that starts at the place q; sector is that place's.
// Stays: `read_at` has document 01's form by its name (docs/FORMS.md), and reads into a buffer; this one needs none. `read_behind` and `skip_behind` likewise.
fn skip_at(sector: &[u8], q: Place, length: u16) -> Result<Place, BadPlace>
    requires { (q.byte ≤ Sizes.sector) × (ListN.length sector.now ≤ Sizes.sector) }
    ensures { result ≡ led_to (got_from q (Decode.decode length (drop q.byte sector.now))) }
{
    let c = measure(from_byte(sector, q.byte), length as usize);
    leads(q, c)
}

// An extent's bytes and, lent beside them, the held sector's, which stand in place of its own.
#[derive(Clone, Copy)]
pub struct Extent<'a> {
    pub bytes: &'a [u8],
    pub held: u32,
    pub over: &'a [u8],
}

impl<'a> Extent<'a> {
    // Whether the n-th sector of the extent is the held one, which lies in over: there, and not in bytes, it is read.
    fn is_held(&self, n: u32) -> bool
        ensures { result ≡ (eqb (length self.now.over.now) sector && eqb n self.now.held) && leb (sector * self.now.held + sector) (length self.now.bytes.now) }
    {
        let end = Geometry::SECTOR * (self.held as usize) + Geometry::SECTOR;
        (self.over.len() == Geometry::SECTOR) & (n == self.held) & (end <= self.bytes.len())
    }

    // The n-th sector, as it is read.
    fn sector(&self, n: u32) -> &'a [u8]
        ensures { result.now ≡ Bytes.part (read_in self.now) (sector * n) sector }
    {
        if self.is_held(n) {
            self.over
        } else {
            sector_of(self.bytes, n)
        }
    }

    // Whether the record behind the place p starts in the next sector.
    fn goes_on(&self, p: Place) -> bool
        ensures { result ≡ goes_on (read_in self.now) p }
    {
        if Geometry::SECTOR_END <= p.byte {
            return true;
        }
        let o = p.byte as usize;
        let c = byte_at(self.sector(p.sector), o);
        (1 <= o) & (c == Geometry::GO_ON)
    }

    // Where the record behind the place p starts, in an extent of so many sectors; the extent's end, if it would start past that.
    fn start(&self, sectors: u16, p: Place) -> Place
        ensures { result ≡ elim (ltb (start_of (read_in self.now) p).sector sectors) [
          | true ↦ start_of (read_in self.now) p
          | false ↦ extent_end sectors
        ] }
    {
        if self.goes_on(p) {
            let next = (p.sector as usize) + 1;
            if (sectors as usize) <= next {
                return extent_end(sectors);
            }
            return Place {
                sector: next as u32,
                byte: 0,
            };
        }
        if (sectors as u32) <= p.sector {
            return extent_end(sectors);
        }
        p
    }

    // Reads the record behind the place p, in an extent of so many sectors, into out, whose length is the record's. A bad code leaves out as it was.
    pub fn read_behind(&self, sectors: u16, p: Place, out: &mut [u8]) -> Result<Place, BadPlace>
        ensures { (result ≡ led_to (read_behind (length out.old) sectors (read_in self.now) p))
            × (out.new ≡ into (read_behind (length out.old) sectors (read_in self.now) p) out.old) }
    {
        let q = self.start(sectors, p);
        read_at(self.sector(q.sector), q, out)
    }

    // Passes over the record of that length behind the place p, in an extent of so many sectors. No character is moved. It is put in
    // the place of its call, so that no extent is laid on the stack for it.
    #[inline(always)]
    pub fn skip_behind(&self, sectors: u16, length: u16, p: Place) -> Result<Place, BadPlace>
        ensures { result ≡ led_to (read_behind length sectors (read_in self.now) p) }
    {
        let q = self.start(sectors, p);
        skip_at(self.sector(q.sector), q, length)
    }
}

// Passes over the first count records of that length of an extent of so many sectors, up to the first bad code.
pub fn walk(bytes: &[u8], sectors: u16, length: u16, count: u32) -> Result<Place, BadPlace>
    ensures { result ≡ walked_to origin (Reading.walk length sectors bytes.now count origin) }
{
    let extent = Extent {
        bytes,
        held: 0,
        over: &bytes[..0],
    };
    let mut p = Place { sector: 0, byte: 0 };
    for _ in 0..count {
        p = extent.skip_behind(sectors, length, p)?;
    }
    Ok(p)
}
