// A week's report on a file, to at most 7,340,032 bytes: week.bin of the working folder, or the file that the program's
// argument names. 64 records of the longest streams that can be accepted have 7,121,600 bytes at most. The buffers are
// on the stack, of which a program has 8,388,608 bytes as a rule. So the start of a file goes into one of 262,144 bytes,
// which takes a week of the usual size whole, and only where that is full is there one for all. `answer_to` decides, on
// the records. All else here moves bytes: that they are the contents of the file is not proved but tested, by the
// programs' stored runs and by `tools/week_messages`.
#![tactic(auto)]

mod messages;

ghost use Rattle.std.specs.Prelude.{◌≡◌, ◌*◌, ◌≤◌, length, take};
ghost use Rattle.lines.specs.ReportLines.{week_answer};
ghost use Rattle.text.specs.Appending.{Appended};
ghost use Rattle.file_reader.specs.Reads.{Fitting};
ghost use Rattle.week_file.specs.Lines.{lines_to};
ghost use Rattle.week_file.specs.Starts.{Answering};

use file_reader::{Start, Wording, arguments};
use std::io::Print;
use std::rt::{Env, Files};

// What messages say of a file.
const WORDING: Wording<'static> = Wording {
    program: b"weekcheck",
    limit: b"7,340,032",
    so: b"there are no records",
};

// How many bytes of the text's buffer are the answer, and how many of the other were the records.
#[derive(Drop)]
pub struct Answered {
    pub text: usize,
    pub records: usize,
}

// The lines of the records, by the output of their report.
fn put_records(text: &mut [u8], out: &[u8], count: usize) -> usize
    requires { (count ≤ 64) × (2048 ≤ length out.now) × (8192 ≤ length text.old) }
    ensures { Appended text.old 0 (lines_to count out.now) text.new result × (result ≤ 119 * count) }
{
    let mut at = 0;
    for i in 0..count {
        let start = 32 * i;
        let end = start + 32;
        at = text::reports::append_record(text, at, i as u64 + 1, &out[start..end]);
    }
    at
}

// Puts the text for the records of a week: at most 64 lines of 119 bytes, and one of 128.
fn put_answer(records: &[u8], text: &mut [u8]) -> usize
    requires { 8192 ≤ length text.old }
    ensures { take result text.new ≡ week_answer records.now }
{
    let mut out = [0u8; 2048];
    let mut keys = [0u64; 2048];
    let mut high = [0i64; 2048];
    let mut low = [0i64; 2048];
    let v = weekly_report::report(records, &mut out, &mut keys, &mut high, &mut low);
    let refusal = v.refusal;
    if 0 < refusal.number {
        return text::reports::put_refusal(text, refusal);
    }
    let at = put_records(text, &out, weekly_report::record_count(records));
    text::reports::append_last(text, at, v)
}

// The text for the records of a week, at the start of the buffer, and how many bytes of it.
pub fn answer_to(records: &[u8], text: &mut [u8; 8192]) -> usize
    ensures text { take result text.new ≡ week_answer records.now }
    ensures lengths { length text.new ≡ 8192 }
{
    put_answer(records, text)
}

// The text for the first n of the bytes, which are a week's records.
fn answer_first(bytes: &[u8], n: usize, text: &mut [u8; 8192]) -> Answered
    ensures text { take result.text text.new ≡ week_answer (take result.records bytes.now) }
    ensures lengths { (result.records ≡ n) × (length text.new ≡ 8192) }
{
    let len = answer_to(text::cut(bytes, n), text);
    Answered {
        text: len,
        records: n,
    }
}

// The start of the file that the first argument names, or of week.bin where there is none. A missing file is a week
// without records, and so is one that cannot be read; standard error says which.
fn read_start<R: Env + Files>(rt: &R, err: &impl Print, bytes: &mut [u8]) -> Start<usize, R::File>
    ensures { Fitting (length bytes.new) result }
{
    if !arguments::is_given(rt, 1) {
        return file_reader::read_start(rt, err, WORDING, b"week.bin", bytes);
    }
    let mut path = [0u8; 4096];
    match arguments::take(rt, 1, &mut path) {
        Ok(n) => file_reader::read_start(rt, err, WORDING, text::cut(&path, n), bytes),
        Err(e) => {
            messages::no_path(err, &e);
            Start::Whole(0)
        }
    }
}

// The text for a file of fewer bytes than the buffer, into which it is read: the text for the bytes at its start as it
// is left, as many as are returned. A longer file is left open, with its first bytes in the buffer. Messages go to
// `err`, which is standard error.
pub fn answer_start<R: Env + Files>(
    rt: &R,
    err: &impl Print,
    records: &mut [u8; 262144],
    text: &mut [u8; 8192],
) -> Start<Answered, R::File>
    ensures { Answering records.new text.new result }
{
    if arguments::is_given(rt, 2) {
        messages::more_arguments(err);
    }
    match read_start(rt, err, records) {
        Start::Whole(n) => Start::Whole(answer_first(records, n, text)),
        Start::Full(file) => Start::Full(file),
    }
}

// The bytes of the file that the first argument names, or of week.bin where there is none, and how many. A missing file
// is a week without records, and so is one that cannot be read; standard error says which.
fn read_week<R: Env + Files>(rt: &R, err: &impl Print, bytes: &mut [u8]) -> usize
    ensures { result ≤ length bytes.new }
{
    if !arguments::is_given(rt, 1) {
        return file_reader::read_file(rt, err, WORDING, b"week.bin", bytes);
    }
    let mut path = [0u8; 4096];
    match arguments::take(rt, 1, &mut path) {
        Ok(n) => file_reader::read_file(rt, err, WORDING, text::cut(&path, n), bytes),
        Err(e) => {
            messages::no_path(err, &e);
            0
        }
    }
}

// The text for the file, which is read into the buffer: the text for the bytes at its start as it is left, as many as
// are returned.
pub fn answer<R: Env + Files>(
    rt: &R,
    err: &impl Print,
    records: &mut [u8; 7340032],
    text: &mut [u8; 8192],
) -> Answered
    ensures text { take result.text text.new ≡ week_answer (take result.records records.new) }
    ensures lengths { (result.records ≤ 7340032) × (length text.new ≡ 8192) }
{
    if arguments::is_given(rt, 2) {
        messages::more_arguments(err);
    }
    let n = read_week(rt, err, records);
    answer_first(records, n, text)
}

// The text for a longer file, by its start and what is read on of it, all of it at the start of the buffer: the text for
// the bytes there as it is left, as many as are returned. The path is what messages name.
pub fn answer_rest<F: std::io::Read + Drop>(
    err: &impl Print,
    path: &[u8],
    start: &[u8; 262144],
    file: F,
    records: &mut [u8; 7340032],
    text: &mut [u8; 8192],
) -> Answered
    ensures text { take result.text text.new ≡ week_answer (take result.records records.new) }
    ensures lengths { (result.records ≤ 7340032) × (length text.new ≡ 8192) }
{
    records[..262144].copy_from_slice(start);
    let n = file_reader::read_rest(file, err, WORDING, path, records, 262144);
    answer_first(records, n, text)
}
