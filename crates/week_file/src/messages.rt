// What is said on standard error of arguments. No contract can say what is written; `tools/week_messages` compares it
// with what must be.
use file_reader::messages::fail;
use std::io::{Error, Print};

// An argument that is too long to be a path.
pub(crate) fn no_path(err: &impl Print, e: &Error) {
    fail(
        err,
        b"weekcheck: argument 1: cannot be taken, so there are no records",
        e,
    );
}

pub(crate) fn more_arguments(err: &impl Print) {
    let _ = println!(err; "weekcheck: more than one argument: those after the first are ignored");
}
