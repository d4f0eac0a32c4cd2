// A file's bytes, for the programs: all of them, or as many as the buffer takes, or none after a failed read. No
// contract can say which bytes a read puts into the buffer; `tools/messages` and `tools/week_messages` test it, with
// reads that fail, that a signal interrupts, and that move less than they were asked.
#![tactic(auto)]

pub mod arguments;
pub mod messages;
mod names;
mod opening;

ghost use Rattle.std.specs.Prelude.{◌≡◌, ◌≤◌, length, IfOk};
ghost use Rattle.file_reader.specs.Reads.{meaning, Within, kept, Fitting};

use std::io;
use std::io::{ErrorKind, Print};
use std::rt::Files;

// How many reads in a row a signal may interrupt before the file counts as one that cannot be read.
const TRIES: usize = 64;

// How much of a file is in the buffer: so many bytes, which are all, or the buffer is full and the file has more.
#[derive(Clone, Copy, Debug, PartialEq, Eq)]
enum Extent {
    Whole(usize),
    Longer(usize),
}

// What a program says of files: its name, the length of its buffer, and what follows from having no bytes.
#[derive(Clone, Copy)]
pub struct Wording<'a> {
    pub program: &'a [u8],
    pub limit: &'a [u8],
    pub so: &'a [u8],
}

// What a read answered: how many bytes it moved, at least 1, or none at the end. Only 0 is the end: a read may move less
// than it was asked, and the one after a failed read may move bytes again.
fn moved(got: io::Result<usize>) -> io::Result<Option<usize>>
    ensures { result ≡ meaning got }
{
    match got {
        Ok(0) => Ok(None),
        Ok(n) => Ok(Some(n)),
        Err(e) => Err(e),
    }
}

// Whether a read failed because a signal came before its first byte.
fn is_interrupted(got: &io::Result<usize>) -> bool {
    match got {
        Ok(_) => false,
        Err(e) => e.kind() == ErrorKind::Interrupted,
    }
}

// One read, and again where a signal interrupted it.
fn read_some<F: std::io::Read>(file: &mut F, part: &mut [u8]) -> io::Result<Option<usize>>
    ensures { IfOk result (Within (length part.new)) }
{
    for _ in 1..TRIES {
        let got = file.read(part);
        if !is_interrupted(&got) {
            return moved(got);
        }
    }
    moved(file.read(part))
}

// A file, read on to its end or until the buffer is full, in which so many bytes are already. Of a full buffer it is
// not known here whether the file has more. After a failure no bytes count: the start of a file is not the file.
fn read_on<F: std::io::Read>(file: &mut F, bytes: &mut [u8], from: usize) -> io::Result<Extent>
    requires { from ≤ length bytes.old }
    ensures { kept result ≤ length bytes.new }
{
    let mut n = from;
    // By what each read moves.
    while n < bytes.len() {
        let Some(more) = read_some(file, &mut bytes[n..])? else {
            return Ok(Extent::Whole(n));
        };
        n += more;
    }
    Ok(Extent::Longer(n))
}

// How it is read on where the buffer is full: whether there is more is asked by one more read, since a pipe and a
// device have no length.
fn read_past<F: std::io::Read>(file: &mut F, n: usize) -> io::Result<Extent>
    ensures { kept result ≤ n }
{
    let mut next = [0u8; 1];
    match read_some(file, &mut next)? {
        Some(_) => Ok(Extent::Longer(n)),
        None => Ok(Extent::Whole(n)),
    }
}

// A file, read on to its end or until the buffer is full, and then whether it has more.
fn read_all<F: std::io::Read>(file: &mut F, bytes: &mut [u8], from: usize) -> io::Result<Extent>
    requires { from ≤ length bytes.old }
    ensures { kept result ≤ length bytes.new }
{
    match read_on(file, bytes, from)? {
        Extent::Longer(n) => read_past(file, n),
        Extent::Whole(n) => Ok(Extent::Whole(n)),
    }
}

// How many bytes of a file count, and what is said where they are not the whole file: of a longer file the first, and
// none of one that cannot be read to its end.
fn told(read: io::Result<Extent>, err: &impl Print, words: Wording<'_>, path: &[u8]) -> usize
    ensures { result ≡ kept read }
{
    match read {
        Ok(Extent::Whole(n)) => n,
        Ok(Extent::Longer(n)) => {
            messages::longer(err, words, path);
            n
        }
        Err(e) => {
            messages::not_read(err, words, path, &e);
            0
        }
    }
}

// Opens a file. Where it cannot be opened, standard error says why.
fn open<R: Files>(rt: &R, err: &impl Print, words: Wording<'_>, path: &[u8]) -> Option<R::File> {
    match opening::open_named(rt, path) {
        Ok(file) => Some(file),
        Err(e) => {
            messages::not_opened(err, words, path, &e);
            None
        }
    }
}

// What the start of a file comes to. Neither is a failure, so it is no `Result`.
#[derive(Drop)]
pub enum Start<T, F> {
    // The file ended in the buffer, and this was made of it.
    Whole(T),
    // The buffer is full, and this file, still open, goes on, if it does.
    Full(F),
}

// The start of a file, at the start of the buffer, and how many bytes count; what is said is said as in `read_file`. A
// file that has more bytes than the buffer, or as many, stays open.
pub fn read_start<R: Files>(
    rt: &R,
    err: &impl Print,
    words: Wording<'_>,
    path: &[u8],
    bytes: &mut [u8],
) -> Start<usize, R::File>
    ensures { Fitting (length bytes.new) result }
{
    let Some(mut file) = open(rt, err, words, path) else {
        return Start::Whole(0);
    };
    match read_on(&mut file, bytes, 0) {
        Ok(Extent::Longer(_)) => Start::Full(file),
        Ok(Extent::Whole(n)) => Start::Whole(n),
        Err(e) => {
            messages::not_read(err, words, path, &e);
            Start::Whole(0)
        }
    }
}

// The rest of a file whose first bytes are in the buffer already, and how many bytes it has in all. The file is closed.
pub fn read_rest<F: std::io::Read + Drop>(
    mut file: F,
    err: &impl Print,
    words: Wording<'_>,
    path: &[u8],
    bytes: &mut [u8],
    from: usize,
) -> usize
    requires { from ≤ length bytes.old }
    ensures { result ≤ length bytes.new }
{
    told(read_all(&mut file, bytes, from), err, words, path)
}

// The bytes of a file, at the start of the buffer, and how many. A missing file has none, and neither has one that
// cannot be read; standard error says which, in the program's words.
pub fn read_file<R: Files>(
    rt: &R,
    err: &impl Print,
    words: Wording<'_>,
    path: &[u8],
    bytes: &mut [u8],
) -> usize
    ensures { result ≤ length bytes.new }
{
    let Some(file) = open(rt, err, words, path) else {
        return 0;
    };
    read_rest(file, err, words, path, bytes, 0)
}
