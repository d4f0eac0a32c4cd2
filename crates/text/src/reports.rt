// A report and a record as text: the lines that `replay` answers, and those that `weekcheck` writes, each in a lent
// buffer.
ghost use Rattle.std.specs.Prelude.{◌≡◌, ◌+◌, ◌*◌, ◌^◌, ◌≤◌, ◌<◌, length, take};
ghost use Rattle.format.specs.Operands.{signed};
ghost use Rattle.calls.specs.Fractions.{fraction};
ghost use Rattle.lines.specs.Lines.{refusal_line};
ghost use Rattle.lines.specs.ReportLines.{bounds_words, report_line, field_at, refused_words, record_words, record_line};
ghost use Rattle.lines.specs.ReportLines.{last_line, tool_line};
ghost use Rattle.text.specs.Appending.{Appended};

use calls::{Fraction, Refusal, ReportVerdict};

// The line of a refusal, at the start of the buffer.
pub fn put_refusal(out: &mut [u8], r: Refusal) -> usize
    requires { 92 ≤ length out.old }
    ensures { take result out.new ≡ refusal_line r }
{
    super::append_refusal(out, r.number as u64, r.stream as u64, r.place as u64, r.key)
}

// Both bounds.
fn append_bounds(out: &mut [u8], at: usize, lower: Fraction, upper: Fraction) -> usize
    requires { at + 98 ≤ length out.old }
    ensures { Appended out.old at (bounds_words lower upper) out.new result × (result ≤ at + 98) }
{
    let a = super::append_with_ratio(out, at, b" lower ", lower);
    super::append_with_ratio(out, a, b" upper ", upper)
}

// The line of a report with its output, or that of the refusal.
pub fn report_line(out: &mut [u8], v: ReportVerdict, output: &[u8]) -> usize
    requires { 2 * length output.now + 127 ≤ length out.old }
    ensures { take result out.new ≡ report_line v output.now }
{
    let r = v.refusal;
    if 0 < r.number {
        return put_refusal(out, r);
    }
    let a = super::append_with_number(out, 0, b"report ", v.accepted as u64);
    let b = append_bounds(out, a, v.lower, v.upper);
    let c = super::append(out, b, b" ");
    let d = super::append_hexadecimal(out, c, output);
    super::append(out, d, b"\n")
}

// The line of the call for a C program: the number that it returned, and the output.
pub fn tool_line(out: &mut [u8], number: u64, output: &[u8]) -> usize
    requires { 2 * length output.now + 29 ≤ length out.old }
    ensures { take result out.new ≡ tool_line number output.now }
{
    let a = super::append_with_number(out, 0, b"record ", number);
    let b = super::append(out, a, b" ");
    let c = super::append_hexadecimal(out, b, output);
    super::append(out, c, b"\n")
}

// Field k of the 32 bytes of a record.
fn field_at(bytes: &[u8], k: usize) -> u64
    requires { (k < 8) × (32 ≤ length bytes.now) }
    ensures { (result ≡ field_at bytes.now k) × (result < 256 ^ 4) }
{
    operand_reader::number_at(bytes, 4 * k, 4)
}

// A bound as it stands in a record.
fn bound(p: i32, q: u64) -> Fraction
    ensures { result ≡ fraction p q }
{
    Fraction {
        num: p as i64,
        den: q,
    }
}

// The bound in fields k and k + 1.
fn bound_at(bytes: &[u8], k: usize) -> Fraction
    requires { (k < 7) × (32 ≤ length bytes.now) }
    ensures { result ≡ fraction (signed 31 (field_at bytes.now k)) (field_at bytes.now (k + 1)) }
{
    let p = operand_reader::signed32(field_at(bytes, k));
    bound(p, field_at(bytes, k + 1))
}

// The refusal in a record.
fn append_refused(out: &mut [u8], at: usize, number: u64, bytes: &[u8]) -> usize
    requires { (at + 92 ≤ length out.old) × (32 ≤ length bytes.now) }
    ensures { Appended out.old at (refused_words number bytes.now) out.new result × (result ≤ at + 92) }
{
    let a = super::append_with_number(out, at, b" refused ", number);
    let b = super::append_with_number(out, a, b" ", field_at(bytes, 5));
    let c = super::append_with_number(out, b, b" ", field_at(bytes, 6));
    super::append_with_number(out, c, b" ", field_at(bytes, 7))
}

// The bounds in a record, or its refusal.
fn append_record_words(out: &mut [u8], at: usize, bytes: &[u8]) -> usize
    requires { (at + 98 ≤ length out.old) × (32 ≤ length bytes.now) }
    ensures { Appended out.old at (record_words bytes.now) out.new result × (result ≤ at + 98) }
{
    let number = field_at(bytes, 0);
    if 0 < number {
        return append_refused(out, at, number, bytes);
    }
    append_bounds(out, at, bound_at(bytes, 1), bound_at(bytes, 3))
}

// The line of record n, by its 32 bytes.
pub fn append_record(out: &mut [u8], at: usize, n: u64, bytes: &[u8]) -> usize
    requires { (at + 119 ≤ length out.old) × (32 ≤ length bytes.now) }
    ensures { Appended out.old at (record_line n bytes.now) out.new result × (result ≤ at + 119) }
{
    let a = super::append_number(out, at, n);
    let b = append_record_words(out, a, bytes);
    super::append(out, b, b"\n")
}

// The last line: how many were accepted, and both bounds.
pub fn append_last(out: &mut [u8], at: usize, v: ReportVerdict) -> usize
    requires { at + 128 ≤ length out.old }
    ensures { Appended out.old at (last_line v) out.new result }
{
    let a = super::append_with_number(out, at, b"accepted ", v.accepted as u64);
    let b = append_bounds(out, a, v.lower, v.upper);
    super::append(out, b, b"\n")
}
