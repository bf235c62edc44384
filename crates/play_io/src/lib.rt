// Scripts played from files: `row_io` reads rows and bytes, `playing` plays them, and what is said goes to standard output. What a file gives
// and what is printed, no contract can say.
#![tactic(auto)]

use lleuadrys::lleuadrys_mount;
use row_io::{Script, Visit, print_line};
use scripts::Row;

// Prints a line: what `put` puts at the start of a room, and says the length of.
fn print<F: FnOnce(&mut [u8; 96]) -> usize>(rt: &impl Print, put: F)
    requires { F.IsAlwaysCallable put }
{
    // Stays: a room of fixed size with its length, since nothing is allocated.
    let mut line = [0u8; 96];
    let n = put(&mut line);
    print_line(rt, &line, n);
}

// ---- mounting, and an image

// Mounts an image, and prints a line of it. The number of the session's bytes says which engine it is mounted for.
pub fn mount(rt: &impl Print, image: &[u8], session: &mut [u8]) {
    let number = lleuadrys_mount(image, session);
    print(rt, |line| saying::write_mount(line, number));
}

// Prints the sums of an image.
pub fn print_image(rt: &impl Print, image: &[u8]) {
    print(
        rt,
        |line| saying::write_image(line, scripts::sums_of(image)),
    );
}

// ---- playing

// Plays row k, and prints its line.
fn play_row(
    rt: &impl Print,
    k: u32,
    image: &mut [u8],
    session: &mut [u8],
    row: Row,
    given: &[u8],
    buffer: &mut [u8; 65536],
) {
    let n = row.length as usize;
    let played = playing::play_row(image, session, row, given, &mut buffer[..n]);
    print(rt, |line| saying::write_row(line, k, played));
}

// An image with its session, on which rows are played.
#[derive(Drop)]
struct Player<'a, P: Print> {
    rt: &'a P,
    image: &'a mut [u8],
    session: &'a mut [u8],
    buffer: &'a mut [u8; 65536],
}

impl<P: Print> Visit for Player<'_, P> {
    fn visit(&mut self, k: u32, row: Row, given: &[u8]) {
        play_row(
            self.rt,
            k,
            self.image,
            self.session,
            row,
            given,
            self.buffer,
        );
    }
}

// Plays the first rows of a script, as many as most, on an image with its session, and prints a line for each. Whether they were in order.
pub fn play(
    rt: &impl Print,
    script: &mut Script,
    most: u32,
    image: &mut [u8],
    session: &mut [u8],
) -> bool {
    // Stays: a room of fixed size with its length, since nothing is allocated.
    let mut buffer = [0u8; 65536];
    let mut player = Player {
        rt,
        image,
        session,
        buffer: &mut buffer,
    };
    script.each_row(rt, most, &mut player)
}
