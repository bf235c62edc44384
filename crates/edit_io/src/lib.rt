// What the editor takes from its arguments and what it prints: a file's name, kind and numbers as they are typed, and an answer. What an
// argument says and what is printed, no contract can say.
#![tactic(auto)]

use arguments::{Word, or_told, said, save};
use std::env::Env;
use telling::put_words;
use typing::{kind_of, number_of, put_name};

// ---- what is printed

// Prints the words of an answer's number.
// Stays: as `print_listing`, in a room of another size.
pub fn print_words(rt: &impl Print, number: u16) {
    // Stays: a room of fixed size with its length, since nothing is allocated.
    let mut words = [0u8; 64];
    let n = put_words(number, &mut words);
    let _ = rt.write_all(&words[..n]);
}

// Prints an answer: the entry, or the number of a refusal and its words.
pub fn tell(rt: &impl Print, answer: Result<usize, u16>) {
    match answer {
        Ok(entry) => {
            let _ = println!(rt; "ANSWER 0 ENTRY {entry}");
        }
        Err(number) => {
            let _ = print!(rt; "ANSWER {number} ");
            print_words(rt, number);
            let _ = println!(rt);
        }
    }
}

// Writes the image to the file that argument out names where the answer is no refusal, and prints the answer.
pub fn finish(rt: &HostRuntime, out: usize, image: &[u8], answer: Result<usize, u16>) {
    if answer.is_err() || save(rt, out, image) {
        tell(rt, answer);
    }
}

// Tells how the program is called.
pub fn tell_usage(rt: &impl Eprint) {
    let _ = rt.eprintln(
        "usage: editor add IMAGE NAME KIND LENGTH SECTORS OUT\n       editor delete IMAGE NAME OUT",
    );
}

// ---- what is typed

// The bytes of the name that argument i says.
pub fn name_typed(rt: &impl Env, i: usize) -> Word {
    let mut room = [0u8; Word::MOST];
    let n = put_name(said(rt, i).bytes(), &mut room);
    Word::first(room, n)
}

// The kind that argument i says. If it is none, that is told.
pub fn kind_typed(rt: &(impl Env + Print), i: usize) -> Option<u16> {
    or_told(
        rt,
        kind_of(said(rt, i).bytes()),
        b"KIND is no number and none of unblocked, blocked, compressed, random: ",
        i,
    )
}

// The number that argument i says. If it is none, a text is told of it.
fn number_typed(rt: &(impl Env + Print), i: usize, text: &[u8]) -> Option<u16> {
    or_told(rt, number_of(said(rt, i).bytes()), text, i)
}

// The record length that argument i says. If it is none, that is told.
pub fn length_typed(rt: &(impl Env + Print), i: usize) -> Option<u16> {
    number_typed(rt, i, b"LENGTH is no number from 0 to 4294967295: ")
}

// The number of sectors that argument i says. If it is none, that is told.
pub fn sectors_typed(rt: &(impl Env + Print), i: usize) -> Option<u16> {
    number_typed(rt, i, b"SECTORS is no number from 0 to 4294967295: ")
}
