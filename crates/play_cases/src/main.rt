// Plays each case of a file, which its first argument names, with both engines. docs/PLAY.md has the form of that file. What it must print is
// what the second program, written from documents 01 and 02 alone, says of each case.
#![tactic(auto)]

ghost use Rattle.std.specs.Prelude.{◌<◌};

use arguments::{Opened, open_read};
use case_io::{
    Header, MOST, PATCH, ROW, go, make_image, patch, place, print_case, print_engine, read_header,
    read_whole, skip,
};
use moving::part;
use row_io::Script;
use storing::Form;

// The file of the cases, opened three times: for the images and the patches, the rows, and the bytes given.
#[derive(Drop)]
struct Files {
    cases: Opened,
    script: Script,
}

// Opens the file of the cases, which argument i names.
fn open_cases(rt: &HostRuntime, i: usize) -> Files {
    Files {
        cases: open_read(rt, i),
        script: Script {
            rows: open_read(rt, i),
            bytes: open_read(rt, i),
        },
    }
}

// Closes it.
fn close_cases(_: Files) {}

// Goes to a case's rows, and to the bytes that are given behind them. The patches of the sessions stand next in the file of the cases.
fn find_rows(f: &mut Files, h: Header) {
    let patches = place(&mut f.cases);
    let script = &mut f.script;
    go(&mut script.rows, patches);
    skip(&mut script.rows, PATCH * u32::from(h.plain));
    skip(&mut script.rows, PATCH * u32::from(h.buffered));
    let rows = place(&mut script.rows);
    go(&mut script.bytes, rows);
    skip(&mut script.bytes, ROW * u32::from(h.rows));
}

// Mounts an image, puts the next n patches into its session, plays a script, and prints the image's sums.
fn play_image(
    rt: &impl Print,
    f: &mut Files,
    n: u16,
    rows: u16,
    image: &mut [u8],
    session: &mut [u8],
) {
    play_io::mount(rt, image, session);
    patch(&mut f.cases, n as usize, session);
    play_io::play(rt, &mut f.script, u32::from(rows), image, session);
    play_io::print_image(rt, image);
}

// Plays a case with the engine whose session has so many bytes, on an image of as many bytes as the last whole one, which is given. The patches of the
// case's image stand at a place of the file. Behind them other sessions' patches are left out, and the next n are put into this one.
fn play_with<const SESSION: usize>(
    rt: &impl Print,
    f: &mut Files,
    at: Option<u64>,
    h: Header,
    others: u16,
    n: u16,
    whole: &[u8],
    image: &mut [u8],
)
    requires { SESSION < 65536 }
{
    let mut session = [0u8; SESSION];
    make_image(&mut f.cases, at, h, whole, image);
    find_rows(f, h);
    skip(&mut f.cases, PATCH * u32::from(others));
    play_image(rt, f, n, h.rows, image, &mut session);
}

// Plays a case with both. Behind the second engine's patches stand the rows, and the bytes given.
fn play_both(rt: &impl Print, f: &mut Files, h: Header, whole: &[u8], image: &mut [u8]) {
    let at = place(&mut f.cases);
    print_engine(rt, false);
    play_with::<{ Form::SESSION }>(rt, f, at, h, 0, h.plain, whole, image);
    print_engine(rt, true);
    play_with::<{ Form::BUFFERED }>(rt, f, at, h, h.plain, h.buffered, whole, image);
    skip(&mut f.cases, ROW * u32::from(h.rows));
    skip(&mut f.cases, h.given);
}

// Plays case number k. The length of the last whole image, which before had n bytes; there is as much room for the case's.
fn play_case(
    rt: &impl Print,
    f: &mut Files,
    k: u64,
    h: Header,
    n: usize,
    whole: &mut [u8],
    room: &mut [u8],
) -> usize {
    print_case(rt, k);
    let m = read_whole(&mut f.cases, h, n, whole);
    if m <= room.len() {
        play_both(rt, f, h, part(whole, 0, m), &mut room[..m]);
    }
    m
}

// Plays the cases.
fn play_all(rt: &impl Print, f: &mut Files, whole: &mut [u8], room: &mut [u8]) {
    // Stays: a value of room and length would be 65,536 bytes that `read_whole` takes and gives back; the room is lent, and its length handed on.
    let mut n = 0;
    for k in 1..MOST {
        let Some(h) = read_header(&mut f.cases) else {
            return;
        };
        n = play_case(rt, f, k, h, n, whole, room);
    }
}

fn main(rt: HostRuntime) {
    let mut f = open_cases(&rt, 1);
    let mut whole = [0u8; 65536];
    let mut room = [0u8; 65536];
    play_all(&rt, &mut f, &mut whole, &mut room);
    close_cases(f);
}
