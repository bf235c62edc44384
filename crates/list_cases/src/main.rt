// Lists each image of a file of cases, which its first argument names: a case is a length of four bytes, high byte first, and that
// many bytes. What it must print is what the second program, written from document 01 alone, says of each image.
#![tactic(auto)]

use arguments::{Opened, open_read, print_listing, read_full};
use case_io::{MOST, print_case};

// Lists the image that the next bytes of a file are, as many as there is room for.
fn list_into(rt: &impl Print, file: &mut Opened, room: &mut [u8]) {
    let n = read_full(file, room);
    print_listing(rt, &room[..n]);
}

// Lists the image that the next n bytes of a file are. The buffer has room for each image of the cases.
fn list_next(rt: &impl Print, file: &mut Opened, n: usize) {
    // Stays: a room of fixed size with its length, since nothing is allocated.
    let mut image = [0u8; 65536];
    if n <= image.len() {
        list_into(rt, file, &mut image[..n]);
    }
}

// The length that stands next; none at the file's end.
fn next_length(file: &mut Opened) -> Option<u32> {
    let mut four = [0u8; 4];
    if read_full(file, &mut four) < 4 {
        return None;
    }
    Some(u32::from_be_bytes(four))
}

// Lists the cases of a file.
fn list_all(rt: &impl Print, file: &mut Opened) {
    for k in 1..MOST {
        let Some(n) = next_length(file) else {
            return;
        };
        print_case(rt, k);
        list_next(rt, file, n as usize);
    }
}

fn main(rt: HostRuntime) {
    let mut file = open_read(&rt, 1);
    list_all(&rt, &mut file);
}
