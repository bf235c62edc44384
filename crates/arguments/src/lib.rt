// What the programs share: the files that their arguments name, the line that tells an error, and the directory listing printed. What a file gives and what is
// printed, no contract can say.
#![tactic(auto)]

ghost use Rattle.std.specs.Prelude.{◌≡◌, IfSome, take};
ghost use Rattle.arguments.specs.Counts.{IsPrefixLen};

use std::env::{Env, FillError};
use std::fs::{File, OpenOptions};
use std::io::{ErrorKind, Read, Seek, SeekFrom, Write};
use std::marker::Model;
use std::{fs, io, str};

// ---- arguments

// Puts argument i at the start of word. How many bytes it has; 0 if it is missing or longer than word.
pub fn arg(rt: &impl Env, i: usize, word: &mut [u8]) -> usize
    ensures { IsPrefixLen result word.new }
{
    rt.arg(i, word).unwrap_or(0)
}

// A word: the first bytes of a room of its own.
#[derive(Drop)]
pub struct Word {
    room: [u8; Word::MOST],
    size: usize,
}

impl Model for Word {
    ghost use Rattle.std.specs.Prelude.{◌≤◌, ℕ, List, take};

    ghost Value = { List ℕ };

    ghost view = { λ w. take w.size w.room };

    ghost invariant = { λ w. w.size ≤ 4096 };
}

impl Word {
    // How many bytes a word has at most.
    pub const MOST: usize = 4096;

    // The first n bytes of a room; all of them if there are no more.
    pub fn first(room: [u8; Word::MOST], n: usize) -> Word
        ensures { result ≡ take n room }
    {
        Word {
            room,
            size: n.min(Word::MOST),
        }
    }

    // Its bytes.
    pub fn bytes(&self) -> &[u8]
        ensures { result.now ≡ self.now }
    {
        &self.room[..self.size]
    }
}

// Argument i; no bytes if it is missing or longer than a word.
pub fn said(rt: &impl Env, i: usize) -> Word {
    let mut room = [0u8; Word::MOST];
    let n = arg(rt, i, &mut room);
    Word::first(room, n)
}

// Whether there is an argument i.
fn is_there(rt: &impl Env, i: usize) -> bool {
    !matches!(rt.arg(i, &mut []), Err(FillError::NotPresent))
}

// How many arguments the program was started with, its own name among them.
pub fn arg_count(rt: &impl Env) -> usize {
    (0..usize::MAX).take_while(|i| is_there(rt, *i)).count()
}

// ---- reading

// A file that was opened to be read; none where it could not be, and then each read of it fails.
#[derive(Drop)]
pub struct Opened {
    file: Option<File>,
}

impl Opened {
    // The file, if it could be opened.
    fn file(&mut self) -> io::Result<&mut File> {
        self.file
            .as_mut()
            .ok_or(io::Error::from(ErrorKind::NotFound))
    }
}

impl Read for Opened {
    fn read(&mut self, buf: &mut [u8]) -> io::Result<usize> {
        self.file()?.read(buf)
    }
}

impl Seek for Opened {
    fn seek(&mut self, to: SeekFrom) -> io::Result<u64> {
        self.file()?.seek(to)
    }
}

// Reads until buf is full, the input ends or a read fails. How many bytes were put at the start of buf.
pub fn read_full(from: &mut impl Read, buf: &mut [u8]) -> usize
    ensures { IsPrefixLen result buf.new }
{
    // Stays: each turn goes on by as many bytes as a read gave, and no read is made of a full buffer; std's read_exact tells no count where it fails.
    let mut done = 0;
    while done < buf.len() {
        let n = from.read(&mut buf[done..]).unwrap_or(0);
        if n == 0 {
            break;
        }
        done += n;
    }
    done
}

// The path that bytes are. A path is UTF-8: no file can be opened by any other.
fn path_of(bytes: &[u8]) -> io::Result<&str> {
    str::from_utf8(bytes).map_err(|_| io::Error::from(ErrorKind::InvalidInput))
}

// Opens a file that options say how.
fn open(rt: &HostRuntime, options: &OpenOptions, path: &[u8]) -> io::Result<File> {
    options.open(rt, path_of(path)?)
}

// Opens the file that argument i names, to read it.
pub fn open_read(rt: &HostRuntime, i: usize) -> Opened {
    Opened {
        file: open(rt, OpenOptions::new().read(true), said(rt, i).bytes()).ok(),
    }
}

// Prints argument i.
pub fn print(rt: &(impl Env + Print), i: usize) {
    let _ = rt.write_all(said(rt, i).bytes());
}

// Prints an error's line: a text, and argument i behind it.
pub fn complain(rt: &(impl Env + Print), text: &[u8], i: usize) {
    let _ = print!(rt; "ERROR ");
    // Stays: `complain` takes any bytes as its text, and may not ask for a `str`.
    let _ = rt.write_all(text);
    print(rt, i);
    let _ = println!(rt);
}

// What was had of argument i. If that is nothing, a text is told of it.
pub fn or_told<T>(rt: &(impl Env + Print), had: Option<T>, text: &[u8], i: usize) -> Option<T>
    ensures { result ≡ had }
{
    if had.is_none() {
        complain(rt, text, i);
    }
    had
}

// ---- what can be used

// One more byte of a file: 1 if there is one, 0 if there is none.
pub fn more(from: &mut impl Read) -> io::Result<usize> {
    let mut one = [0u8; 1];
    from.read(&mut one)
}

// Whether the file that argument i names can be read. If not, that is told.
pub fn readable(rt: &HostRuntime, i: usize) -> bool {
    let first = more(&mut open_read(rt, i));
    or_told(rt, first.ok(), b"cannot read ", i).is_some()
}

// Opens a new file to write it. It fails where there is one of that name.
pub fn create(rt: &HostRuntime, path: &[u8]) -> io::Result<File> {
    open(rt, OpenOptions::new().write(true).create_new(true), path)
}

// Removes a file.
pub fn remove(rt: &HostRuntime, path: &[u8]) -> io::Result<()> {
    fs::remove_file(rt, path_of(path)?)
}

// A file opened to be written, of which not a byte changes.
fn open_kept(rt: &HostRuntime, path: &[u8]) -> io::Result<File> {
    open(rt, OpenOptions::new().append(true), path).or_else(|_| create(rt, path))
}

// Whether the file that argument i names can be written, of which not a byte changes. If not, that is told.
pub fn writable(rt: &HostRuntime, i: usize) -> bool {
    let opened = open_kept(rt, said(rt, i).bytes());
    or_told(rt, opened.ok(), b"cannot write ", i).is_some()
}

// ---- images

// Prints the listing of an image. A listing has at most 1,596 bytes (`short`, in listing's proofs).
pub fn print_listing(rt: &impl Print, image: &[u8]) {
    let mut out = [0u8; 1600];
    let size = listing::write_listing(image, &mut out);
    let _ = rt.write_all(&out[..size]);
}

// Reads the image that argument i names, in room for 4,096 sectors. How many bytes it has; none if it cannot be read whole, and then that is told.
pub fn read_image(rt: &HostRuntime, i: usize, room: &mut [u8]) -> Option<usize>
    ensures { IfSome result (λ n. IsPrefixLen n room.new) }
{
    let mut file = open_read(rt, i);
    let size = read_full(&mut file, room);
    match more(&mut file) {
        Ok(0) => return Some(size),
        Ok(_) => {
            let _ = println!(rt; "ERROR image longer than 1474560 bytes");
        }
        Err(_) => complain(rt, b"cannot read ", i),
    }
    None
}

// How many bytes an open file has; 0 where that cannot be told.
fn length_of(file: &mut File) -> u64 {
    file.seek(SeekFrom::End(0)).unwrap_or(0)
}

// Opens a file to write so many bytes to it. One that has as many is not emptied before, since it may be the image itself: its bytes are written
// over, which takes no more room than there is.
fn open_write(rt: &HostRuntime, path: &[u8], size: usize) -> io::Result<File> {
    if let Ok(mut file) = open(rt, OpenOptions::new().read(true).write(true), path)
        && length_of(&mut file) == size as u64
        && file.rewind().is_ok()
    {
        return Ok(file);
    }
    open(
        rt,
        OpenOptions::new().write(true).create(true).truncate(true),
        path,
    )
}

// Sees that the system has taken all that was written to a file. One that is no file on a disk does not say.
fn keep(file: &File) -> io::Result<()> {
    match file.sync_all() {
        Err(e) if matches!(e.kind(), ErrorKind::InvalidInput | ErrorKind::Unsupported) => Ok(()),
        kept => kept,
    }
}

// Writes bytes to a file, and closes it. It fails where not all were written.
pub fn write_whole(mut file: File, bytes: &[u8]) -> io::Result<()> {
    let written = file.write_all(bytes);
    keep(&file).and(written)
}

// Writes an image to a file.
fn write_image(rt: &HostRuntime, path: &[u8], image: &[u8]) -> io::Result<()> {
    write_whole(open_write(rt, path, image.len())?, image)
}

// Writes an image to the file that argument i names. Whether it was written whole. If not, that is told.
pub fn save(rt: &HostRuntime, i: usize, image: &[u8]) -> bool {
    let written = write_image(rt, said(rt, i).bytes(), image);
    or_told(rt, written.ok(), b"cannot write ", i).is_some()
}
