// gapcheck: whether two certificates hold for a problem, and the bounds and the gap that they prove. Its run is case F
// of document 01.
#![tactic(auto)]

use file_reader::{arguments, messages};
use std::io;
use std::io::Print;
use std::rt::{Env, Files};

// What `--version` asks for; whether it was written.
fn write_version(out: &impl Print) -> io::Result<()> {
    out.write_all(b"gapcheck 0.21.0\n")
}

// What `--help` and `-h` ask for; whether it was written.
fn write_help(out: &impl Print) -> io::Result<()> {
    out.write_all(
        b"gapcheck: whether a lower and an upper bound of a polynomial hold, by two certificates.

usage: gapcheck [PROBLEM [LOW [HIGH]]]
       gapcheck --help | -h
       gapcheck --version

Three files are read, each to at most 65,536 bytes. Where one is not named, the file in
brackets of the current folder is. A missing file is an empty stream.

  PROBLEM  the polynomial, the conditions and the bases  [problem.bin]
  LOW      the certificate of the lower bound            [low.bin]
  HIGH     the certificate of the upper bound            [high.bin]

Where both certificates are accepted, four lines are written, in base ten, unreduced.
A point, with rational or other real coordinates, is allowed if no inequality is below 0
there and every equality is 0.

  lower p/q   at every allowed point the polynomial is at least p/q
  upper P/Q   at every allowed point it is at most P/Q
  gap n/d     its values at two allowed points differ by at most n/d
  gap empty   in place of that: the bounds cross, so that no point is allowed
  rounds r    the rounds that the joining rule took to find the blocks

Otherwise one line is written:

  refused NUMBER STREAM PLACE KEY

STREAM is 0 for PROBLEM, 1 for LOW and 2 for HIGH, and PLACE an offset in it. KEY is 0,
or the monomial at which the identity fails. README.md says what each NUMBER means and
what to do about it.

Messages on files and arguments go to standard error. The exit status is 0 whatever the
answer. A stack of 512 KB is enough, without arguments and environment.
",
    )
}

// The text for the files; whether it was written.
fn write_answer<R: Env + Files + Print>(rt: &R, err: &impl Print) -> io::Result<()> {
    let mut problem = [0u8; 65536];
    let mut low = [0u8; 65536];
    let mut high = [0u8; 65536];
    let answered = files::answer(rt, err, &mut problem, &mut low, &mut high);
    let text = answered.text;
    rt.write_all(text::cut(&text.bytes, text.len))
}

fn main(rt: HostRuntime) {
    let err = rt.stderr();
    let written = if arguments::asks(&rt, b"--help") || arguments::asks(&rt, b"-h") {
        write_help(&rt)
    } else if arguments::asks(&rt, b"--version") {
        write_version(&rt)
    } else {
        write_answer(&rt, &err)
    };
    if let Err(e) = written {
        messages::fail(&err, b"gapcheck: standard output cannot be written", &e);
    }
}
