// weekcheck: a week's pairs in one report, a line for each and one for all. Its run is a week of five pairs.
#![tactic(auto)]

use file_reader::{Start, arguments, messages};
use std::io;
use std::io::Print;
use std::rt::{Env, Files};

// What `--version` asks for; whether it was written.
fn write_version(out: &impl Print) -> io::Result<()> {
    out.write_all(b"weekcheck 0.21.0\n")
}

// What `--help` and `-h` ask for; whether it was written.
fn write_help(out: &impl Print) -> io::Result<()> {
    out.write_all(
        b"weekcheck: whether the bounds of up to 64 pairs hold, in one report.

usage: weekcheck [WEEK]
       weekcheck --help | -h
       weekcheck --version

One file is read, to at most 7,340,032 bytes: WEEK, or week.bin of the current folder. A
missing file is a week without records.

  WEEK     records, one after the other: the lengths of problem, low and high, each of
           two bytes, the lower first, and then the three streams that gapcheck reads

A line is written for each record, with its number N from 1, and one for all:

  N lower p/q upper P/Q              the bounds that gapcheck gives for the pair
  N refused NUMBER STREAM PLACE KEY  its refusal; KEY is the lowest 32 bits
  accepted COUNT lower p/q upper P/Q how many were accepted, the smallest lower and the
                                     largest upper bound of these, 0/0 for none

Every accepted polynomial is between the last two bounds wherever its own conditions hold.
Where a record is cut short, or there is a byte after the 64th, this alone is written:

  refused 12 0 PLACE 0               PLACE is the offset of that record or byte

Messages on the file and the arguments go to standard error. The exit status is 0 whatever
the answer. A stack of 1 MB is enough for a file of fewer than 262,144 bytes, and one of
8 MB for any, with at most 256 KB of arguments and environment.
",
    )
}

// The text for a file that the short buffer does not take; whether it was written. It is called from two functions that only
// `main` calls, so that the compiler keeps its frame of more than 7 MB out of every other run.
fn write_long<F: io::Read + Drop>(
    out: &impl Print,
    err: &impl Print,
    path: &[u8],
    start: &[u8; 262144],
    file: F,
) -> io::Result<()> {
    let mut records = [0u8; 7340032];
    let mut text = [0u8; 8192];
    let answered = week_file::answer_rest(err, path, start, file, &mut records, &mut text);
    out.write_all(text::cut(&text, answered.text))
}

// The text for week.bin, by these buffers; whether it was written.
fn write_week<R: Env + Files + Print>(
    rt: &R,
    err: &impl Print,
    start: &mut [u8; 262144],
    text: &mut [u8; 8192],
) -> io::Result<()> {
    let answer = week_file::answer_start(rt, err, start, text);
    match answer {
        Start::Whole(answered) => rt.write_all(text::cut(text, answered.text)),
        Start::Full(file) => write_long(rt, err, b"week.bin", start, file),
    }
}

// The same for the file that the first argument names.
fn write_named<R: Env + Files + Print>(
    rt: &R,
    err: &impl Print,
    start: &mut [u8; 262144],
    text: &mut [u8; 8192],
) -> io::Result<()> {
    let answer = week_file::answer_start(rt, err, start, text);
    match answer {
        Start::Whole(answered) => rt.write_all(text::cut(text, answered.text)),
        Start::Full(file) => {
            let mut path = [0u8; 4096];
            let n = arguments::take(rt, 1, &mut path).unwrap_or(0);
            write_long(rt, err, text::cut(&path, n), start, file)
        }
    }
}

fn main(rt: HostRuntime) {
    let err = rt.stderr();
    let written = if arguments::asks(&rt, b"--help") || arguments::asks(&rt, b"-h") {
        write_help(&rt)
    } else if arguments::asks(&rt, b"--version") {
        write_version(&rt)
    } else {
        let mut start = [0u8; 262144];
        let mut text = [0u8; 8192];
        if arguments::is_given(&rt, 1) {
            write_named(&rt, &err, &mut start, &mut text)
        } else {
            write_week(&rt, &err, &mut start, &mut text)
        }
    };
    if let Err(e) = written {
        messages::fail(&err, b"weekcheck: standard output cannot be written", &e);
    }
}
