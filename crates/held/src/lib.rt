// What a request answered 0 does to bytes, act by act: document 01's "Where a record lies", "Compressed records" and "The tape a file is". How a sector is held,
// changed and put back is an engine's own way (`Mover`); all else is the same for both.
#![tactic(auto)]

ghost use Rattle.std.specs.Prelude.{◌≡◌, map};
ghost use Rattle.packing.specs.Placing.{changes};
ghost use Rattle.requests.specs.declared.Request.TheVariants.{Position};
ghost use Rattle.steps.specs.Effects.{effects, blocked_effect};
ghost use Rattle.steps.specs.Effects as Effects;
ghost use Rattle.straight.specs.Straight.{writing};
ghost use Rattle.straight.specs.Moving.{scene, moved_by, all_moved_by};
ghost use Rattle.held.specs.Held.{read_with, write_with, effects_with};

use geometry::{Geometry, Place};
use packing::fits_here;
use requests::{Order, Request};
use sessions::OpenFile;
use straight::Mover;

// A read: the sectors that it must read. `goes` says whether the place before a compressed record goes on, `start` where the record starts.
pub fn read<M: Mover>(m: &mut M, f: OpenFile, goes: bool, start: usize)
    ensures { (M.bench m.new ≡ all_moved_by M.way (scene 0 (M.entry m.old)) (read_with (M.entry m.old) f goes start) (M.bench m.old)) × M.Same m.old m.new }
{
    let e = m.entry();
    match e.kind {
        Geometry::BLOCKED => {
            let k = Geometry::sector_of_record(Geometry::BLOCKED, e.length, f.position);
            m.hold(k);
        }
        Geometry::COMPRESSED => {
            let here = f.here;
            if goes & (here.byte < (Geometry::SECTOR as u32)) {
                m.hold(here.sector as usize);
            }
            m.hold(start);
        }
        _ => {}
    }
}

// The blocked record at the file's position, with zeros behind it up to its sector's end.
pub fn write_blocked<M: Mover>(m: &mut M, f: OpenFile, given: &[u8])
    ensures { (M.bench m.new ≡ moved_by M.way (scene 0 (M.entry m.old)) (blocked_effect (writing (M.entry m.old) f given.now)) (M.bench m.old))
        × M.Same m.old m.new }
{
    let e = m.entry();
    let k = Geometry::sector_of_record(Geometry::BLOCKED, e.length, f.position);
    let byte = Geometry::byte_of_record(Geometry::BLOCKED, e.length, f.position);
    m.change(k, byte, given, 0);
}

// A coded record, at the place p or in the next sector, with 128 behind it; before it goes on, the rest of the old sector becomes 128.
pub fn write_coded<M: Mover>(m: &mut M, p: Place, code: &[u8])
    ensures { (M.bench m.new ≡ all_moved_by M.way (scene 0 (M.entry m.old)) (map Effects.change (changes p code.now)) (M.bench m.old))
        × M.Same m.old m.new }
{
    let k = p.sector as usize;
    let byte = p.byte as usize;
    if fits_here(p, code.len()) {
        m.change(k, byte, code, Geometry::GO_ON);
    } else {
        if byte < Geometry::SECTOR {
            m.change(k, byte, &code[..0], Geometry::GO_ON);
        }
        m.change(k + 1, 0, code, Geometry::GO_ON);
    }
}

// A write. The code is that of the bytes given, if the file is compressed.
pub fn write<M: Mover>(m: &mut M, f: OpenFile, given: &[u8], code: &[u8])
    ensures { (M.bench m.new ≡ all_moved_by M.way (scene 0 (M.entry m.old)) (write_with (M.entry m.old) f given.now code.now) (M.bench m.old))
        × M.Same m.old m.new }
{
    let e = m.entry();
    match e.kind {
        Geometry::BLOCKED => write_blocked(m, f, given),
        Geometry::COMPRESSED => write_coded(m, f.here, code),
        _ => m.store(f.position, given),
    }
}

// An order: the buffer goes back before any but the record skips; a close then writes count and flags.
pub fn order<M: Mover>(m: &mut M, i: usize, o: Order)
    ensures { (M.bench m.new ≡ all_moved_by M.way (scene i (M.entry m.old)) (effects (Position o) (scene i (M.entry m.old))) (M.bench m.old))
        × M.Same m.old m.new }
{
    match o {
        Order::RecordForward | Order::RecordBack => {}
        Order::RewindOffline => {
            m.put_back();
            m.stamp(i);
        }
        _ => m.put_back(),
    }
}

// A request on entry i; k is the sector that a record read of a compressed file lies in.
pub fn act<M: Mover>(
    m: &mut M,
    i: usize,
    f: OpenFile,
    q: Request,
    given: &[u8],
    code: &[u8],
    k: u32,
)
    ensures { (M.bench m.new ≡ all_moved_by M.way (scene i (M.entry m.old)) (effects_with q (M.entry m.old) f given.now code.now k) (M.bench m.old))
        × M.Same m.old m.new }
{
    match q {
        Request::Read => {
            let here = f.here;
            read(m, f, !(here.sector == k), k as usize)
        }
        Request::Write => write(m, f, given, code),
        Request::GranuleWrite(g) => m.store(g, given),
        Request::Position(o) => order(m, i, o),
        _ => {}
    }
}
