// Prints the pass listing of each case of a file, which its first argument names: an image and a name. What it must print is what the second program, written
// from the documents alone, says of each case. docs/SHOW.md has the form of that file.
#![tactic(auto)]

use arguments::{Opened, open_read};
use case_io::{Header, MOST, make_image, place, print_case, read_header, read_next, read_whole};
use moving::part;

// Shows the file of the name that stands next, of n bytes.
fn show_named(rt: &impl Print, file: &mut Opened, n: usize, image: &mut [u8]) {
    // Stays: a room of fixed size with its length, since nothing is allocated.
    let mut name = [0u8; 4096];
    let m = read_next(file, n, &mut name);
    show_io::show(rt, image, &name[..m]);
}

// Shows a case on an image of as many bytes as the last whole one, which is given.
fn show_next(rt: &impl Print, file: &mut Opened, h: Header, whole: &[u8], image: &mut [u8]) {
    let at = place(file);
    make_image(file, at, h, whole, image);
    show_named(rt, file, h.given as usize, image);
}

// The same in a room, which has as many bytes as any image of the cases.
fn show_in(rt: &impl Print, file: &mut Opened, h: Header, whole: &[u8], room: &mut [u8]) {
    let n = whole.len();
    if n <= room.len() {
        show_next(rt, file, h, whole, &mut room[..n]);
    }
}

// Shows the cases.
fn show_all(rt: &impl Print, file: &mut Opened, whole: &mut [u8], room: &mut [u8]) {
    // Stays: a value of room and length would be 65,536 bytes that `read_whole` takes and gives back; the room is lent, and its length handed on.
    let mut n = 0;
    for k in 1..MOST {
        let Some(h) = read_header(file) else {
            return;
        };
        print_case(rt, k);
        n = read_whole(file, h, n, whole);
        show_in(rt, file, h, part(whole, 0, n), room);
    }
}

fn main(rt: HostRuntime) {
    let mut whole = [0u8; 65536];
    let mut room = [0u8; 65536];
    let mut file = open_read(&rt, 1);
    show_all(&rt, &mut file, &mut whole, &mut room);
}
