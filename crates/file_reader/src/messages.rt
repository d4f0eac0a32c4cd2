// What is said of files on standard error. No contract can say what is written; `tools/messages` and
// `tools/week_messages` compare it with what must be. A message that cannot be written is lost.
ghost use Rattle.std.specs.Prelude.{◌≤◌};

use crate::Wording;
use crate::names::Name;
use std::fmt;
use std::fmt::Write;
use std::io::{Error, ErrorKind, Print};

// The system's words for an error, of which the longest of Linux has 49 characters. In fixed memory: a `String` would ask
// for a heap.
#[derive(Drop)]
struct Words {
    bytes: [u8; 128],
    len: usize,
}

impl fmt::Write for Words {
    fn write_str(&mut self, text: &str) -> fmt::Result {
        for b in text.as_bytes() {
            if self.len < 128 {
                self.bytes[self.len] = *b;
                self.len += 1;
            }
        }
        Ok(())
    }
}

// The reason that the system gives for an error, without its number, which std adds to it.
#[derive(Clone, Copy)]
struct Reason<'a>(&'a Error);

impl fmt::Display for Reason<'_> {
    fn fmt<W: fmt::Write>(&self, f: &mut fmt::Formatter<W>) -> fmt::Result {
        let mut words = Words {
            bytes: [0u8; 128],
            len: 0,
        };
        write!(words, "{}", self.0)?;
        let Ok(text) = str::from_utf8(text::cut(&words.bytes, words.len)) else {
            return Ok(());
        };
        match text.split_once(" (os error ") {
            Some((reason, _)) => f.write_str(reason),
            None => f.write_str(text),
        }
    }
}

// Puts bytes on standard error: the words of a program, which need be no text.
pub fn say(err: &impl Print, bytes: &[u8]) {
    let _ = err.write_all(bytes);
}

// Says what failed, as the caller names it, and the reason.
pub fn fail(err: &impl Print, what: &[u8], e: &Error) {
    say(err, what);
    let _ = println!(err; ": {}", Reason(e));
}

// Whether a name looks like an option, which the programs take only as their first and only argument.
fn is_dashed(path: &[u8]) -> bool {
    path.first() == Some(&b'-')
}

// A message begins with the program's name and the file's.
fn speak_of(err: &impl Print, words: Wording<'_>, path: &[u8]) {
    say(err, words.program);
    let _ = print!(err; ": {}: ", Name(path));
}

// A file that is not there. Who mistyped an option is told that it is none: the answer is that for a missing file.
fn missing(err: &impl Print, words: Wording<'_>, path: &[u8]) {
    speak_of(err, words, path);
    if is_dashed(path) {
        say(err, b"no option here, and no file of this name, so ");
        say(err, words.so);
        say(err, b"; options: ");
        say(err, words.program);
        say(err, b" --help\n");
    } else {
        say(err, b"missing, so ");
        say(err, words.so);
        say(err, b"\n");
    }
}

// A file that cannot be opened: it is missing, or there and not to be read.
pub(crate) fn not_opened(err: &impl Print, words: Wording<'_>, path: &[u8], e: &Error) {
    if e.kind() == ErrorKind::NotFound {
        missing(err, words, path);
    } else {
        not_read(err, words, path, e);
    }
}

// A file that cannot be read, and the reason that the system gives.
pub(crate) fn not_read(err: &impl Print, words: Wording<'_>, path: &[u8], e: &Error) {
    speak_of(err, words, path);
    say(err, b"cannot be read, so ");
    say(err, words.so);
    let _ = println!(err; ": {}", Reason(e));
}

// A file of which the start is read.
pub(crate) fn longer(err: &impl Print, words: Wording<'_>, path: &[u8]) {
    speak_of(err, words, path);
    say(err, b"longer than ");
    say(err, words.limit);
    say(err, b" bytes, of which the first are read\n");
}
