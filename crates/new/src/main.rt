// Makes an image with no files: new OUT SECTORS. docs/OPERATORS.md says what is printed. The image mounts: `emptied-mounts`, in making's
// proofs, of what is written.
#![tactic(auto)]

use arguments::{arg_count, complain, create, remove, said, write_whole};
use geometry::Geometry;
use std::env::Env;
use std::io;
use std::io::ErrorKind;
use texts::number_in;

// The numbers of its arguments.
const OUT: usize = 1;

const SECTORS: usize = 2;

// How many sectors are asked for; 0, which no image has, if that is no number.
fn sectors(rt: &impl Env) -> u32 {
    number_in(said(rt, SECTORS).bytes()).unwrap_or(0)
}

// Tells what was made.
fn tell(rt: &(impl Env + Print), size: usize) {
    let sectors = size / Geometry::SECTOR;
    let _ = print!(rt; "NEW ");
    arguments::print(rt, OUT);
    let _ = println!(rt; " {sectors} SECTORS");
}

// Why there is no new file.
#[derive(Clone, Copy)]
enum Failed {
    There, // one of that name is there
    Unmade,
    Removed, // not all of it could be written
    Cut, // the same, and it could not be removed again
}

impl Failed {
    // What is told of it.
    fn text(self) -> &'static [u8] {
        match self {
            Failed::There => b"there already, and not overwritten: ",
            Failed::Unmade => b"cannot make ",
            Failed::Removed => b"cannot write all of it, so it is removed again: ",
            Failed::Cut => b"cannot write all of it, and it is not whole: ",
        }
    }
}

// Why a file could not be made.
fn unmade(error: io::Error) -> Failed {
    match error.kind() {
        ErrorKind::AlreadyExists => Failed::There,
        _ => Failed::Unmade,
    }
}

// Removes a file that could not be written whole. It was new, so nothing else is lost.
fn take_back(rt: &HostRuntime, path: &[u8]) -> Failed {
    match remove(rt, path) {
        Ok(()) => Failed::Removed,
        Err(_) => Failed::Cut,
    }
}

// Writes an image to a new file.
fn save(rt: &HostRuntime, image: &[u8], path: &[u8]) -> Result<(), Failed> {
    let file = create(rt, path).map_err(unmade)?;
    write_whole(file, image).map_err(|_| take_back(rt, path))
}

// Writes an image to a new file, which OUT names.
fn save_out(rt: &HostRuntime, image: &[u8]) {
    match save(rt, image, said(rt, OUT).bytes()) {
        Ok(()) => tell(rt, image.len()),
        Err(failed) => complain(rt, failed.text(), OUT),
    }
}

// Makes the image in lent bytes, if there may be one of so many, and writes it.
fn make(rt: &HostRuntime, image: &mut [u8]) {
    if making::make_empty(image) {
        save_out(rt, image);
    } else {
        complain(rt, b"no number of sectors from 1 to 4096: ", SECTORS);
    }
}

// Makes the image in the first bytes of a room for 4,096 sectors; in no bytes at all if more are asked for.
fn make_in(rt: &HostRuntime, room: &mut [u8; 1474560]) {
    let size = Geometry::SECTOR * sectors(rt) as usize;
    make(rt, room.get_mut(..size).unwrap_or(&mut []));
}

// Makes it in a room of its own. Apart from `main`, in which the compiler would clear the room once more, at its beginning.
#[inline(never)]
fn make_new(rt: &HostRuntime) {
    // Stays: a room of fixed size with its length, since nothing is allocated.
    let mut room = [0u8; 1474560];
    make_in(rt, &mut room);
}

// Stays: as other programs begin. One function for their counts and usages would be longer than these lines, since a usage is a format.
fn main(rt: HostRuntime) {
    if arg_count(&rt) != 3 {
        let _ = eprintln!(rt; "usage: new OUT SECTORS");
        return;
    }
    make_new(&rt);
}
