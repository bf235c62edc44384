// Plays a script of requests on an image, with one of the two engines: play plain|buffered IMAGE SCRIPT BYTES OUT. docs/PLAY.md says what
// these files hold and what is printed.
#![tactic(auto)]

ghost use Rattle.std.specs.Prelude.{◌<◌};

use arguments::{arg_count, complain, open_read, read_image, readable, said, save, writable};
use row_io::Script;
use storing::Form;

// The numbers of its arguments.
const ENGINE: usize = 1;

const IMAGE: usize = 2;

const SCRIPT: usize = 3;

const BYTES: usize = 4;

const OUT: usize = 5;

// A proved loop has to end, so rows are counted up to a number that no script has.
const MOST: u32 = 4294967295;

// The script, opened.
fn open_script(rt: &HostRuntime) -> Script {
    Script {
        rows: open_read(rt, SCRIPT),
        bytes: open_read(rt, BYTES),
    }
}

// Mounts an image and plays the script on it. Whether it came to the script's end.
fn play_script(rt: &HostRuntime, image: &mut [u8], session: &mut [u8]) -> bool {
    let mut script = open_script(rt);
    play_io::mount(rt, image, session);
    play_io::play(rt, &mut script, MOST, image, session)
}

// Whether all that was named can be used. If not, the first that cannot is told.
fn ready(rt: &HostRuntime) -> bool {
    readable(rt, SCRIPT)
        && readable(rt, BYTES)
        && open_script(rt).test(rt, MOST)
        && writable(rt, OUT)
}

// Plays the script on an image, and writes the image.
fn play_image(rt: &HostRuntime, image: &mut [u8], session: &mut [u8]) {
    if ready(rt) && play_script(rt, image, session) {
        save(rt, OUT, image);
    }
}

// Reads the image, and plays the script on it.
fn play(rt: &HostRuntime, room: &mut [u8], session: &mut [u8]) {
    if let Some(n) = read_image(rt, IMAGE, room) {
        play_image(rt, &mut room[..n], session);
    }
}

// Plays with the engine whose session has so many bytes: lends that session.
fn play_with<const SESSION: usize>(rt: &HostRuntime, room: &mut [u8])
    requires { SESSION < 65536 }
{
    let mut session = [0u8; SESSION];
    play(rt, room, &mut session);
}

// Plays with the engine that is named, with room for an image of 4,096 sectors.
fn play_by_name(rt: &HostRuntime, room: &mut [u8; 1474560]) {
    match said(rt, ENGINE).bytes() {
        b"plain" => play_with::<{ Form::SESSION }>(rt, room),
        b"buffered" => play_with::<{ Form::BUFFERED }>(rt, room),
        _ => complain(rt, b"no such engine: ", ENGINE),
    }
}

fn main(rt: HostRuntime) {
    if arg_count(&rt) != 6 {
        let _ = eprintln!(rt; "usage: play plain|buffered IMAGE SCRIPT BYTES OUT");
        return;
    }
    // Stays: a room of fixed size with its length, since nothing is allocated.
    let mut room = [0u8; 1474560];
    play_by_name(&rt, &mut room);
}
