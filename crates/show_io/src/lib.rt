// The pass listing printed, piece by piece. What is printed, no contract can say.
#![tactic(auto)]

use moving::part;
use requests::Answer;
use showing::{Opened, Piece, begin, next};
use storing::Form;

// Prints the text of a piece, which has so many bytes.
fn print_piece(rt: &impl Print, size: usize, line: &[u8]) {
    let _ = rt.write_all(part(line, 0, size));
}

// The answer that the last piece printed; none if it printed nothing.
fn told(p: Piece) -> Option<Answer> {
    if p.size == 0 { None } else { Some(p.answer) }
}

// Prints what each read prints, from the first record on. The answer that was printed, if one was. A proved loop has to end, so it counts the reads up to
// a number that no file needs.
fn print_lines(
    rt: &impl Print,
    image: &mut [u8],
    session: &mut [u8],
    file: Opened,
    line: &mut [u8],
) -> Option<Answer> {
    for _ in 0..65536 {
        let p = next(image, session, file, line);
        print_piece(rt, p.size, line);
        if p.answer != Answer::Done {
            return told(p);
        }
    }
    None
}

// Prints the listing of the file of that name, as it is typed, on a session and room for a line. The answer that was printed, if one was.
fn print_listing(
    rt: &impl Print,
    image: &mut [u8],
    session: &mut [u8],
    typed: &[u8],
    line: &mut [u8],
) -> Option<Answer> {
    let head = begin(image, session, typed, line);
    print_piece(rt, head.size, line);
    match head.opened {
        Ok(file) => print_lines(rt, image, session, file, line),
        Err(a) => Some(a),
    }
}

// Prints the listing of the file of that name, as it is typed. The answer whose number was printed, if one was.
pub fn show(rt: &impl Print, image: &mut [u8], typed: &[u8]) -> Option<Answer> {
    let mut session = [0u8; Form::SESSION];
    // Stays: a room of fixed size with its length, since nothing is allocated.
    let mut line = [0u8; Piece::LONGEST];
    print_listing(rt, image, &mut session, typed, &mut line)
}
