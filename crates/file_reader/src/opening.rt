// A file, opened for reading by a name of bytes. std opens a name that is text in UTF-8, and no other. Of any other name
// it is found out whether the folder has it, since a missing file is told from one that cannot be read.
use std::io::{Error, ErrorKind, Read};
use std::rt::Files;
use std::{fs, io};

// The number of Linux for a name whose characters cannot be represented.
const EILSEQ: i32 = 84;

// Opens a file.
pub(crate) fn open_named<R: Files>(rt: &R, path: &[u8]) -> io::Result<R::File> {
    match str::from_utf8(path) {
        Ok(text) => fs::open(rt, text),
        Err(e) => Err(why_not_opened(rt, path, e.valid_up_to())),
    }
}

// Why a file whose name is no text, from this place on, is not opened: it is missing, its folder cannot be read, or it
// is there.
fn why_not_opened(rt: &impl Files, path: &[u8], from: usize) -> Error {
    let before = text::cut(path, from);
    let start = match before.iter().rposition(|b| *b == b'/') {
        Some(i) => i + 1,
        None => 0,
    };
    let Ok(folder) = str::from_utf8(text::cut(path, start)) else {
        return Error::from_raw_os_error(EILSEQ);
    };
    let rest = &path[start..];
    let len = match rest.iter().position(|b| *b == b'/') {
        Some(i) => i,
        None => rest.len(),
    };
    match has_name(rt, folder, text::cut(rest, len)) {
        Ok(true) => Error::from_raw_os_error(EILSEQ),
        Ok(false) => Error::from(ErrorKind::NotFound),
        Err(e) => e,
    }
}

// Whether a folder has something of this name. The current folder has no name of its own here.
fn has_name(rt: &impl Files, folder: &str, name: &[u8]) -> io::Result<bool> {
    let mut dir = rt.open_dir(if folder.is_empty() { "." } else { folder })?;
    let mut names = [0u8; 4096];
    for _ in 0..u64::MAX {
        let n = dir.read(&mut names)?;
        if n == 0 {
            break;
        }
        if has_piece(&names[..n], name) {
            return Ok(true);
        }
    }
    Ok(false)
}

// Whether one of the names, each of which a byte 0 ends, is this one.
fn has_piece(names: &[u8], name: &[u8]) -> bool {
    names.split(|b| *b == 0).any(|piece| piece == name)
}
