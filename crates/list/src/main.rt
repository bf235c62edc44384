// Lists the directory of the image in the file that its first argument names, or on standard input if there is none.
// What cannot be opened or read is an image of no bytes, which is bad.
#![tactic(auto)]

use arguments::{arg_count, open_read, print_listing, read_full};
use std::io::Read;

// Lists the image that is read. The buffer has room for more than the 180 sectors of an image that is listed.
fn list(rt: &impl Print, from: &mut impl Read) {
    // Stays: a room of fixed size with its length, since nothing is allocated.
    let mut image = [0u8; 65536];
    let n = read_full(from, &mut image);
    print_listing(rt, &image[..n]);
}

fn main(rt: HostRuntime) {
    if arg_count(&rt) < 2 {
        list(&rt, &mut rt.stdin());
        return;
    }
    let mut file = open_read(&rt, 1);
    list(&rt, &mut file);
}
