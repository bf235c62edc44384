// Adds a file to an image, or deletes one: editor add IMAGE NAME KIND LENGTH SECTORS OUT, editor delete IMAGE NAME OUT. docs/OPERATORS.md
// says what is printed.
#![tactic(auto)]

ghost use Rattle.std.specs.Prelude.{IfSome};
ghost use Rattle.arguments.specs.Counts.{IsPrefixLen};

use arguments::{arg_count, read_image, said};
use edit_io::{finish, kind_typed, length_typed, name_typed, sectors_typed, tell, tell_usage};
use lleuadrys::{lleuadrys_add, lleuadrys_delete, lleuadrys_find, lleuadrys_mount};
use std::env::Env;
use storing::Form;

// The numbers of its arguments.
const REQUEST: usize = 1;

const IMAGE: usize = 2;

const NAME: usize = 3;

const KIND: usize = 4;

const LENGTH: usize = 5;

const SECTORS: usize = 6;

// OUT comes last: of an addition, and of a deletion.
const OUT_ADDED: usize = 7;

const OUT_DELETED: usize = 4;

// ---- the requests

// Reads the image and mounts it. How many bytes it has; none if it cannot be used, and then that is told.
fn mount(rt: &HostRuntime, room: &mut [u8], session: &mut [u8]) -> Option<usize>
    ensures { IfSome result (λ n. IsPrefixLen n room.new) }
{
    let n = read_image(rt, IMAGE, room)?;
    match lleuadrys_mount(&room[..n], session) {
        0 => Some(n),
        number => {
            tell(rt, Err(number));
            None
        }
    }
}

// What a call answers: the entry where its number is 0, or that number.
// Stays: `lleuadrys_add`, `lleuadrys_delete` and `lleuadrys_find` have the C interface: a number, and a place lent for the entry.
fn answered(number: u16, entry: usize) -> Result<usize, u16> {
    match number {
        0 => Ok(entry),
        _ => Err(number),
    }
}

// What is typed of a file that is to be added, besides its name.
#[derive(Clone, Copy)]
struct Shape {
    kind: u16,
    length: u16,
    sectors: u16,
}

// The shape that is typed. If one of its numbers is none, that is told.
fn shape_typed(rt: &HostRuntime) -> Option<Shape> {
    Some(Shape {
        kind: kind_typed(rt, KIND)?,
        length: length_typed(rt, LENGTH)?,
        sectors: sectors_typed(rt, SECTORS)?,
    })
}

// Adds the file to a mounted image.
fn add_to(rt: &impl Env, image: &mut [u8], session: &mut [u8], shape: Shape) -> Result<usize, u16> {
    let mut entry: usize = 0;
    let number = lleuadrys_add(
        image,
        session,
        name_typed(rt, NAME).bytes(),
        shape.kind,
        shape.length,
        shape.sectors,
        &mut entry,
    );
    answered(number, entry)
}

// Adds the file that is typed.
fn add(rt: &HostRuntime, room: &mut [u8], session: &mut [u8]) -> Option<()> {
    let shape = shape_typed(rt)?;
    let n = mount(rt, room, session)?;
    let answer = add_to(rt, &mut room[..n], session, shape);
    finish(rt, OUT_ADDED, &room[..n], answer);
    Some(())
}

// The entry of the file that is typed, or the number of the search.
fn find_typed(rt: &impl Env, session: &[u8]) -> Result<usize, u16> {
    let mut entry: usize = 0;
    let number = lleuadrys_find(session, name_typed(rt, NAME).bytes(), &mut entry);
    answered(number, entry)
}

// Deletes the file from a mounted image.
fn delete_from(rt: &impl Env, image: &mut [u8], session: &mut [u8]) -> Result<usize, u16> {
    let entry = find_typed(rt, session)?;
    answered(lleuadrys_delete(image, session, entry), entry)
}

// Deletes the file that is typed.
fn delete(rt: &HostRuntime, room: &mut [u8], session: &mut [u8]) -> Option<()> {
    let n = mount(rt, room, session)?;
    let answer = delete_from(rt, &mut room[..n], session);
    finish(rt, OUT_DELETED, &room[..n], answer);
    Some(())
}

// Does the request, with room for an image of 4,096 sectors.
fn edit(rt: &HostRuntime, room: &mut [u8; 1474560], session: &mut [u8; Form::SESSION]) {
    match (arg_count(rt), said(rt, REQUEST).bytes()) {
        (8, b"add") => {
            let _ = add(rt, room, session);
        }
        (5, b"delete") => {
            let _ = delete(rt, room, session);
        }
        _ => tell_usage(rt),
    }
}

fn main(rt: HostRuntime) {
    // Stays: a room of fixed size with its length, since nothing is allocated.
    let mut room = [0u8; 1474560];
    let mut session = [0u8; Form::SESSION];
    edit(&rt, &mut room, &mut session);
}
