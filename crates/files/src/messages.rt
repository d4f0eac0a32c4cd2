// What is said on standard error of arguments. No contract can say what is written; `tools/messages` compares it with
// what must be.
use file_reader::messages::fail;
use std::io::{Error, Print};

// An argument that is too long to be a path.
pub(crate) fn no_path(err: &impl Print, i: usize, e: &Error) {
    let _ = print!(err; "gapcheck: argument {i}");
    fail(err, b": cannot be taken, so its stream is empty", e);
}

// An argument that is not there, beside one that is.
pub(crate) fn left_out(err: &impl Print, i: usize, path: &str) {
    let _ = println!(err; "gapcheck: argument {i}: not given, so the file is {path}");
}

pub(crate) fn more_arguments(err: &impl Print) {
    let _ = println!(err; "gapcheck: more than three arguments: those after the third are ignored");
}
