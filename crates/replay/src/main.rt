// Answers the records of the standard input, one line for each, until it ends. A record is a kind byte (b: blocks, c:
// check, p: pair, s: symmetries, t: the tighter of two certificates, w: arrivals at the window of gaps, r: a report, x:
// the call for a C program, d: two problems with a pair for each, a: changes of the objective, n: the office's check),
// lengths of 32 bits, little-endian, and as many byte runs, each of at most 65,536 bytes: four for x, six for d, three
// for the others. `answer_record` decides, on the kind and the runs, `window_line` on the arrivals, `tighter_line` on
// two certificates, `report_line` on a report, `tool_line` on the call for a C program, `answer_sum` on two problems
// and `office_line` on a certificate with notes; all else moves bytes.
#![tactic(auto)]

ghost use Rattle.std.specs.Prelude.{◌≡◌, ◌++◌, ◌+◌, ◌*◌, ◌/◌, ◌≤◌, length, take, OnOk};
ghost use Rattle.format.specs.Operands.{number};
ghost use Rattle.lines.specs.Lines.{arrival_word};
ghost use Rattle.lines.specs.Texts.{text_of};
ghost use Rattle.text.specs.Appending.{Appended};
ghost use Rattle.calls.specs.AddedBounds.{streams};
ghost use Rattle.replay.specs.Arrivals.{arrival_at, separator, window_answer};
ghost use Rattle.replay.specs.Records.{blocks_answer, check_answer, pair_answer, symmetries_answer, record_answer};
ghost use Rattle.replay.specs.Records.{adjusted_answer, tighter_answer, office_answer};
ghost use Rattle.replay.specs.Reports.{report_answer};
ghost use Rattle.replay.specs.Tool.{tool_answer};
ghost use Rattle.replay.specs.Sums.{sum_answer};

use calls::{Fraction, WindowVerdict};
use lines::Text;
use std::io;
use std::io::{ErrorKind, Print, Read};

fn answer_blocks(problem: &[u8]) -> Text
    ensures { text_of result ≡ blocks_answer problem.now }
{
    let mut out = [0u8; 576];
    let mut keys = [0u64; 2048];
    let mut high = [0i64; 2048];
    let mut low = [0i64; 2048];
    let v = checker::blocks(problem, &mut out, &mut keys, &mut high, &mut low);
    text::blocks_line(v, &out)
}

fn answer_check(problem: &[u8], certificate: &[u8]) -> Text
    ensures { text_of result ≡ check_answer problem.now certificate.now }
{
    let mut keys = [0u64; 2048];
    let mut high = [0i64; 2048];
    let mut low = [0i64; 2048];
    let v = checker::check(problem, certificate, &mut keys, &mut high, &mut low);
    text::check_line(v)
}

fn answer_pair(problem: &[u8], first: &[u8], second: &[u8]) -> Text
    ensures { text_of result ≡ pair_answer problem.now first.now second.now }
{
    let mut keys = [0u64; 2048];
    let mut high = [0i64; 2048];
    let mut low = [0i64; 2048];
    let v = checker::pair(problem, first, second, &mut keys, &mut high, &mut low);
    text::pair_line(v)
}

fn answer_symmetries(problem: &[u8]) -> Text
    ensures { text_of result ≡ symmetries_answer problem.now }
{
    let mut out = [0u8; 256];
    let mut keys = [0u64; 2048];
    let mut high = [0i64; 2048];
    let mut low = [0i64; 2048];
    let v = sign_symmetries::symmetries(problem, &mut out, &mut keys, &mut high, &mut low);
    text::symmetries_line(v, &out)
}

fn answer_adjusted(problem: &[u8], certificate: &[u8], changes: &[u8]) -> Text
    ensures { text_of result ≡ adjusted_answer problem.now certificate.now changes.now }
{
    let mut keys = [0u64; 2048];
    let mut high = [0i64; 2048];
    let mut low = [0i64; 2048];
    let v = adjusted_bound::moved_bound(
        problem,
        certificate,
        changes,
        &mut keys,
        &mut high,
        &mut low,
    );
    text::adjusted_line(v)
}

// The line for a record, or none where its kind is unknown.
fn answer_record(kind: u8, problem: &[u8], first: &[u8], second: &[u8]) -> Text
    ensures { text_of result ≡ record_answer kind problem.now first.now second.now }
{
    // By ifs: `record_answer` decides in this order, and an arm of a `match` would tell each kind from all before it.
    if kind == b'b' {
        return answer_blocks(problem);
    }
    if kind == b'c' {
        return answer_check(problem, first);
    }
    if kind == b'p' {
        return answer_pair(problem, first, second);
    }
    if kind == b's' {
        return answer_symmetries(problem);
    }
    if kind == b'a' {
        return answer_adjusted(problem, first, second);
    }
    Text {
        bytes: [0u8; 1280],
        len: 0,
    }
}

// Arrival i of a run.
fn arrival_at(run: &[u8], i: usize) -> Fraction
    requires { 16 * i + 16 ≤ length run.now }
    ensures { result ≡ arrival_at run.now i }
{
    let at = 16 * i;
    let num = operand_reader::signed64(operand_reader::number_at(run, at, 8));
    let den = operand_reader::number_at(run, at + 8, 8);
    Fraction { num, den }
}

// The outcome of arrival i, and what stands before it.
fn append_outcome(out: &mut [u8], at: usize, i: usize, v: WindowVerdict) -> usize
    requires { at + 65 ≤ length out.old }
    ensures { Appended out.old at (separator i ++ arrival_word v) out.new result × (result ≤ at + 65) }
{
    if i == 0 {
        return text::append_arrival(out, at, b" ", v);
    }
    text::append_arrival(out, at, b"; ", v)
}

// The line for a run of arrivals, from an empty state.
fn window_line(run: &[u8], out: &mut [u8]) -> usize
    requires { 65 * (length run.now / 16) + 7 ≤ length out.old }
    ensures { take result out.new ≡ window_answer run.now }
{
    let count = run.len() / 16;
    let mut window = gap_window::empty();
    let mut at = text::append(out, 0, b"window");
    for i in 0..count {
        let pushed = gap_window::push(window, arrival_at(run, i));
        at = append_outcome(out, at, i, pushed.verdict);
        window = pushed.window;
    }
    text::append(out, at, b"\n")
}

// Answers a record of arrivals, of which there are at most 4,096.
fn answer_window(out: &impl Print, run: &[u8; 65536], n: usize) -> io::Result<()> {
    let mut line = [0u8; 270336];
    let len = window_line(text::cut(run, n), &mut line);
    out.write_all(text::cut(&line, len))
}

// The line for two certificates of a problem: what came back of them, or the refusal.
fn tighter_line<'a>(problem: &[u8], first: &'a [u8], second: &'a [u8], out: &mut [u8]) -> usize
    requires { (2 * length first.now + 92 ≤ length out.old) × (2 * length second.now + 92 ≤ length out.old) }
    ensures { take result out.new ≡ tighter_answer problem.now first.now second.now }
{
    let mut number = 0u64;
    let mut stream = 0u64;
    let mut place = 0u64;
    let mut key = 0u64;
    let mut keys = [0u64; 2048];
    let mut high = [0i64; 2048];
    let mut low = [0i64; 2048];
    let part = superseding::tighter(
        problem,
        first,
        second,
        &mut number,
        &mut stream,
        &mut place,
        &mut key,
        &mut keys,
        &mut high,
        &mut low,
    );
    text::tighter_line(out, number, stream, place, key, part)
}

// Answers a record of two certificates.
fn answer_tighter<'a>(
    out: &impl Print,
    problem: &[u8; 65536],
    a: usize,
    first: &'a [u8; 65536],
    b: usize,
    second: &'a [u8; 65536],
    c: usize,
) -> io::Result<()> {
    let mut line = [0u8; 135168];
    let len = tighter_line(
        text::cut(problem, a),
        text::cut(first, b),
        text::cut(second, c),
        &mut line,
    );
    out.write_all(text::cut(&line, len))
}

// The line for a report, with the output as it was lent.
fn report_line(records: &[u8], output: &mut [u8], line: &mut [u8]) -> usize
    requires { 2 * length output.old + 127 ≤ length line.old }
    ensures { take result line.new ≡ report_answer records.now output.old }
{
    let mut keys = [0u64; 2048];
    let mut high = [0i64; 2048];
    let mut low = [0i64; 2048];
    let v = weekly_report::report(records, output, &mut keys, &mut high, &mut low);
    text::reports::report_line(line, v, output)
}

// Answers a record of a report, whose output is the first n bytes.
fn answer_report(out: &impl Print, records: &[u8], output: &mut [u8], n: usize) -> io::Result<()> {
    if output.len() < n || 65536 < n {
        return Err(io::Error::from(ErrorKind::InvalidData));
    }
    let mut line = [0u8; 131200];
    let len = report_line(records, &mut output[..n], &mut line);
    out.write_all(text::cut(&line, len))
}

// The line for the call for a C program, with the output as it was lent.
fn tool_line(problem: &[u8], low: &[u8], high: &[u8], output: &mut [u8], line: &mut [u8]) -> usize
    requires { 2 * length output.old + 29 ≤ length line.old }
    ensures { take result line.new
        ≡ tool_answer problem.now low.now high.now output.old }
{
    let number = c_calls::zamiachisel_record(problem, low, high, output);
    text::reports::tool_line(line, number, output)
}

// Writes that line, where the output is the first n bytes.
fn write_tool(
    out: &impl Print,
    problem: &[u8],
    low: &[u8],
    high: &[u8],
    output: &mut [u8],
    n: usize,
) -> io::Result<()> {
    if output.len() < n || 65536 < n {
        return Err(io::Error::from(ErrorKind::InvalidData));
    }
    let mut line = [0u8; 131200];
    let len = tool_line(problem, low, high, &mut output[..n], &mut line);
    out.write_all(text::cut(&line, len))
}

// The line for two problems with a pair for each.
fn answer_sum(
    problem1: &[u8],
    low1: &[u8],
    high1: &[u8],
    problem2: &[u8],
    low2: &[u8],
    high2: &[u8],
) -> Text
    ensures { let a = streams problem1.now low1.now high1.now in
        let b = streams problem2.now low2.now high2.now in
        text_of result ≡ sum_answer a b }
{
    let mut keys = [0u64; 2048];
    let mut high = [0i64; 2048];
    let mut low = [0i64; 2048];
    let v = added_bounds::sum(
        problem1, low1, high1, problem2, low2, high2, &mut keys, &mut high, &mut low,
    );
    text::sum_line(v)
}

// The line for a certificate that may have notes: what the office is told, and the buffer, or the refusal.
fn office_line(problem: &[u8], certificate: &[u8], buffer: &mut [u8], line: &mut [u8]) -> usize
    requires { 2 * length buffer.old + 153 ≤ length line.old }
    ensures { take result line.new ≡ office_answer problem.now certificate.now buffer.old }
{
    let mut keys = [0u64; 2048];
    let mut high = [0i64; 2048];
    let mut low = [0i64; 2048];
    let v = office_check::office(problem, certificate, buffer, &mut keys, &mut high, &mut low);
    text::office_line(line, v, buffer)
}

// Answers a record of a certificate that may have notes, whose buffer is the first n bytes.
fn answer_office(
    out: &impl Print,
    problem: &[u8],
    certificate: &[u8],
    buffer: &mut [u8],
    n: usize,
) -> io::Result<()> {
    if buffer.len() < n || 65536 < n {
        return Err(io::Error::from(ErrorKind::InvalidData));
    }
    let mut line = [0u8; 131328];
    let len = office_line(problem, certificate, &mut buffer[..n], &mut line);
    out.write_all(text::cut(&line, len))
}

// The length that four bytes of a record's head give.
fn length_at(head: &[u8; 13], at: usize) -> usize
    requires { at + 4 ≤ 13 }
    ensures { result ≡ number 4 head.now at }
{
    operand_reader::number_at(head, at, 4) as usize
}

// The next n bytes of the input, where there is room for them.
fn fill(input: &mut impl Read, bytes: &mut [u8], n: usize) -> io::Result<()>
    ensures { OnOk result (n ≤ length bytes.new) }
{
    if bytes.len() < n {
        return Err(io::Error::from(ErrorKind::InvalidData));
    }
    input.read_exact(&mut bytes[..n])
}

// The same for three runs, one after the other.
fn fill_three(
    input: &mut impl Read,
    first: &mut [u8],
    a: usize,
    second: &mut [u8],
    b: usize,
    third: &mut [u8],
    c: usize,
) -> io::Result<()> {
    fill(input, first, a)?;
    fill(input, second, b)?;
    fill(input, third, c)
}

// Answers a record of the call for a C program, of which three lengths are read and one more follows.
fn answer_tool(
    input: &mut impl Read,
    out: &impl Print,
    a: usize,
    b: usize,
    c: usize,
) -> io::Result<()> {
    let mut more = [0u8; 4];
    fill(input, &mut more, 4)?;
    let d = operand_reader::number_at(&more, 0, 4) as usize;
    let mut problem = [0u8; 65536];
    let mut low = [0u8; 65536];
    let mut high = [0u8; 65536];
    let mut output = [0u8; 65536];
    fill_three(input, &mut problem, a, &mut low, b, &mut high, c)?;
    fill(input, &mut output, d)?;
    write_tool(
        out,
        text::cut(&problem, a),
        text::cut(&low, b),
        text::cut(&high, c),
        &mut output,
        d,
    )
}

// Writes a text, which is empty where a record's kind is unknown.
fn write(out: &impl Print, t: Text) -> io::Result<()> {
    if t.len == 0 {
        return Err(io::Error::from(ErrorKind::InvalidData));
    }
    out.write_all(text::cut(&t.bytes, t.len))
}

// Answers a record of two problems, of which the first three lengths are read.
fn answer_two_problems(
    input: &mut impl Read,
    out: &impl Print,
    a: usize,
    b: usize,
    c: usize,
) -> io::Result<()> {
    let mut rest = [0u8; 13];
    fill(input, &mut rest, 12)?;
    let d = length_at(&rest, 0);
    let e = length_at(&rest, 4);
    let f = length_at(&rest, 8);
    let mut problem1 = [0u8; 65536];
    let mut low1 = [0u8; 65536];
    let mut high1 = [0u8; 65536];
    let mut problem2 = [0u8; 65536];
    let mut low2 = [0u8; 65536];
    let mut high2 = [0u8; 65536];
    fill_three(input, &mut problem1, a, &mut low1, b, &mut high1, c)?;
    fill_three(input, &mut problem2, d, &mut low2, e, &mut high2, f)?;
    write(
        out,
        answer_sum(
            text::cut(&problem1, a),
            text::cut(&low1, b),
            text::cut(&high1, c),
            text::cut(&problem2, d),
            text::cut(&low2, e),
            text::cut(&high2, f),
        ),
    )
}

// Answers a record of three runs, of these lengths.
fn answer_three(
    input: &mut impl Read,
    out: &impl Print,
    kind: u8,
    a: usize,
    b: usize,
    c: usize,
) -> io::Result<()> {
    let mut problem = [0u8; 65536];
    let mut first = [0u8; 65536];
    let mut second = [0u8; 65536];
    fill_three(input, &mut problem, a, &mut first, b, &mut second, c)?;
    match kind {
        b'w' => answer_window(out, &problem, a),
        b't' => answer_tighter(out, &problem, a, &first, b, &second, c),
        b'r' => answer_report(out, text::cut(&problem, a), &mut first, b),
        b'n' => answer_office(
            out,
            text::cut(&problem, a),
            text::cut(&first, b),
            &mut second,
            c,
        ),
        _ => write(
            out,
            answer_record(
                kind,
                text::cut(&problem, a),
                text::cut(&first, b),
                text::cut(&second, c),
            ),
        ),
    }
}

// Answers the next record. It is an error where there is no whole one of a known kind, or its line is not written.
fn answer_next(input: &mut impl Read, out: &impl Print) -> io::Result<()> {
    let mut head = [0u8; 13];
    fill(input, &mut head, 13)?;
    let a = length_at(&head, 1);
    let b = length_at(&head, 5);
    let c = length_at(&head, 9);
    match head[0] {
        b'x' => answer_tool(input, out, a, b, c),
        b'd' => answer_two_problems(input, out, a, b, c),
        kind => answer_three(input, out, kind, a, b, c),
    }
}

fn main(rt: HostRuntime) {
    let mut input = rt.stdin();
    for _ in 0..u64::MAX {
        if answer_next(&mut input, &rt).is_err() {
            return;
        }
    }
}
