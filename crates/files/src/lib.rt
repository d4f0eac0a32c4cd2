// The pair on three files, each to at most 65,536 bytes: problem.bin, low.bin and high.bin of the working folder, or
// those that the program's arguments name. `answer_to` decides, on three streams. All else here moves bytes: of a read
// the kit's contracts say how many bytes were put into a buffer at most, and not which. So that the streams are the
// contents of the files is not proved but tested, by the programs' stored runs and by `tools/messages`.
#![tactic(auto)]

mod messages;

ghost use Rattle.std.specs.Prelude.{◌≡◌, ◌≤◌, length, take};
ghost use Rattle.lines.specs.Texts.{text_of};
ghost use Rattle.lines.specs.Answers.{answer_to};

use file_reader::{Wording, arguments};
use lines::Text;
use std::io::Print;
use std::rt::{Env, Files};

// What messages say of a file.
const WORDING: Wording<'static> = Wording {
    program: b"gapcheck",
    limit: b"65,536",
    so: b"its stream is empty",
};

// An answer, and how many bytes of each buffer were its streams.
#[derive(Drop)]
pub struct Answered {
    pub text: Text,
    pub problem: usize,
    pub low: usize,
    pub high: usize,
}

// The text for three streams.
pub fn answer_to(problem: &[u8], low: &[u8], high: &[u8]) -> Text
    ensures { text_of result ≡ answer_to problem.now low.now high.now }
{
    let mut keys = [0u64; 2048];
    let mut sums_high = [0i64; 2048];
    let mut sums_low = [0i64; 2048];
    let v = checker::pair(problem, low, high, &mut keys, &mut sums_high, &mut sums_low);
    text::pair_lines(v)
}

// The bytes of the file that argument i names, or of another where there is no such argument, and how many. With no
// argument at all the other is the usual one, and nothing is said. A missing file is an empty stream, and so is one that
// cannot be read; standard error says which.
fn read_stream<R: Env + Files>(
    rt: &R,
    err: &impl Print,
    i: usize,
    other: &str,
    bytes: &mut [u8],
) -> usize
    ensures { result ≤ length bytes.new }
{
    if !arguments::is_given(rt, i) {
        if arguments::is_given(rt, 1) {
            messages::left_out(err, i, other);
        }
        return file_reader::read_file(rt, err, WORDING, other.as_bytes(), bytes);
    }
    let mut path = [0u8; 4096];
    match arguments::take(rt, i, &mut path) {
        Ok(n) => file_reader::read_file(rt, err, WORDING, text::cut(&path, n), bytes),
        Err(e) => {
            messages::no_path(err, i, &e);
            0
        }
    }
}

// The text for the three files, which are read into the buffers: the text for the bytes at the start of each buffer as
// it is left, as many as are returned. Messages go to `err`, which is standard error.
pub fn answer<R: Env + Files>(
    rt: &R,
    err: &impl Print,
    problem: &mut [u8; 65536],
    low: &mut [u8; 65536],
    high: &mut [u8; 65536],
) -> Answered
    ensures text { text_of result.text
        ≡ answer_to (take result.problem problem.new) (take result.low low.new)
        (take result.high high.new) }
    ensures lengths { (result.problem ≤ 65536) × (result.low ≤ 65536) × (result.high ≤ 65536) }
{
    if arguments::is_given(rt, 4) {
        messages::more_arguments(err);
    }
    let a = read_stream(rt, err, 1, "problem.bin", problem);
    let b = read_stream(rt, err, 2, "low.bin", low);
    let c = read_stream(rt, err, 3, "high.bin", high);
    let text = answer_to(text::cut(problem, a), text::cut(low, b), text::cut(high, c));
    Answered {
        text,
        problem: a,
        low: b,
        high: c,
    }
}
