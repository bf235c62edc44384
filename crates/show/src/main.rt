// Prints the pass listing of a file: show IMAGE NAME, the name as it is typed. docs/OPERATORS.md says what is printed. Standard output has the listing alone;
// why there is none, and which files there are where none has the name, goes to standard error.
#![tactic(auto)]

use arguments::{Opened, arg_count, open_read, print_listing, read_full, said};
use edit_io::print_words;
use requests::{Answer, Refusal};

// The numbers of its arguments.
const IMAGE: usize = 1;

const NAME: usize = 2;

// Tells a text.
fn tell(err: &impl Print, text: &str) {
    let _ = println!(err; "show: {text}");
}

// Tells the words of a number.
fn tell_words(err: &impl Print, number: u16) {
    let _ = print!(err; "show: ");
    print_words(err, number);
    let _ = println!(err);
}

// Tells what the answer that was printed, if one was, means here.
fn tell_why(err: &impl Print, printed: Option<Answer>, image: &[u8]) {
    match printed {
        None => {}
        Some(Answer::Refused(Refusal::WrongSequence)) => tell(
            err,
            "that file is random: it has granules, and no records to show as lines",
        ),
        Some(Answer::Refused(Refusal::NotThere)) => {
            tell(err, "no file has that name; these are there:");
            print_listing(err, image);
        }
        Some(Answer::Refused(Refusal::BadImage)) => {
            tell(err, "this is no image that can be listed")
        }
        Some(a) => tell_words(err, u16::from(a)),
    }
}

// Shows the file that is typed.
fn show_typed(rt: &HostRuntime, image: &mut [u8]) {
    let printed = show_io::show(rt, image, said(rt, NAME).bytes());
    tell_why(&rt.stderr(), printed, image);
}

// Shows a file of the image that a file gives. The buffer has room for more than the 180 sectors of an image that is listed. What cannot be opened or read is an
// image of no bytes, which is bad.
fn show_from(rt: &HostRuntime, file: &mut Opened) {
    // Stays: a room of fixed size with its length, since nothing is allocated.
    let mut image = [0u8; 65536];
    let n = read_full(file, &mut image);
    show_typed(rt, &mut image[..n]);
}

fn main(rt: HostRuntime) {
    if arg_count(&rt) != 3 {
        let _ = eprintln!(rt; "usage: show IMAGE NAME");
        return;
    }
    let mut file = open_read(&rt, IMAGE);
    show_from(&rt, &mut file);
}
