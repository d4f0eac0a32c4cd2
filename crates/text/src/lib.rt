// Verdicts as text: the lines that the programs write, made in a buffer first, each proved equal to its definition.
#![tactic(auto)]

pub mod reports;

ghost use Rattle.std.specs.Prelude.{◌≡◌, ◌++◌, ◌+◌, ◌*◌, ◌≤◌, ◌<◌, length, take};
ghost use Rattle.io.specs.Digits.{hex_digit_ascii};
ghost use Rattle.calls.specs.Superseding.{refusal_in};
ghost use Rattle.lines.specs.Lines.{decimal, signed_decimal, ratio, hexadecimal, refusal_line, gap_word, pair_words};
ghost use Rattle.lines.specs.Lines.{pair_lines, blocks_line, check_words, check_line, pair_line, arrival_word, tighter_line};
ghost use Rattle.lines.specs.Lines.{symmetries_line, adjusted_line, office_line};
ghost use Rattle.lines.specs.SumLines.{sum_line};
ghost use Rattle.lines.specs.Texts.{text_of};
ghost use Rattle.text.specs.Appending.{Appended};

use calls::{
    AdjustedVerdict, BlocksVerdict, CheckVerdict, Fraction, OfficeVerdict, PairVerdict, Refusal,
    SumVerdict, SymmetriesVerdict, WindowVerdict,
};
use lines::Text;

// Puts a text at a place of the buffer. What this and the functions below return is the place after what they put.
pub fn append(out: &mut [u8], at: usize, text: &[u8]) -> usize
    requires { at + length text.now ≤ length out.old }
    ensures { Appended out.old at text.now out.new result }
{
    let end = at + text.len();
    out[at..end].copy_from_slice(text);
    end
}

// A number in base ten.
fn append_number(out: &mut [u8], at: usize, n: u64) -> usize
    requires { at + 20 ≤ length out.old }
    ensures { Appended out.old at (decimal n) out.new result × (result ≤ at + 20) }
{
    let mut digits = [0u8; 20];
    let count = io::decimal(n, &mut digits);
    append(out, at, &digits[..count])
}

// A number in base ten, with a minus sign below 0.
fn append_signed(out: &mut [u8], at: usize, n: i64) -> usize
    requires { at + 21 ≤ length out.old }
    ensures { Appended out.old at (signed_decimal n) out.new result × (result ≤ at + 21) }
{
    if n < 0 {
        let next = append(out, at, b"-");
        return append_number(out, next, fractions::magnitude(n));
    }
    append_number(out, at, fractions::magnitude(n))
}

// A fraction as it is, not reduced.
fn append_ratio(out: &mut [u8], at: usize, f: Fraction) -> usize
    requires { at + 42 ≤ length out.old }
    ensures { Appended out.old at (ratio f) out.new result × (result ≤ at + 42) }
{
    let a = append_signed(out, at, f.num);
    let b = append(out, a, b"/");
    append_number(out, b, f.den)
}

// A word and a number after it.
fn append_with_number(out: &mut [u8], at: usize, word: &[u8], n: u64) -> usize
    requires { at + length word.now + 20 ≤ length out.old }
    ensures { Appended out.old at (word.now ++ decimal n) out.new result
        × (result ≤ at + length word.now + 20) }
{
    let a = append(out, at, word);
    append_number(out, a, n)
}

// A word and a fraction after it.
fn append_with_ratio(out: &mut [u8], at: usize, word: &[u8], f: Fraction) -> usize
    requires { at + length word.now + 42 ≤ length out.old }
    ensures { Appended out.old at (word.now ++ ratio f) out.new result
        × (result ≤ at + length word.now + 42) }
{
    let a = append(out, at, word);
    append_ratio(out, a, f)
}

// The hexadecimal digit of a number below 16.
pub fn digit(n: u8) -> u8
    requires { n < 16 }
    ensures { result ≡ hex_digit_ascii n }
{
    if n < 10 { 48 + n } else { 87 + n }
}

// Two hexadecimal digits for each byte.
fn append_hexadecimal(out: &mut [u8], at: usize, bytes: &[u8]) -> usize
    requires { at + 2 * length bytes.now ≤ length out.old }
    ensures { Appended out.old at (hexadecimal bytes.now) out.new result
        × (result ≤ at + 2 * length bytes.now) }
{
    let mut end = at;
    for &b in bytes {
        out[end] = digit(b / 16);
        out[end + 1] = digit(b % 16);
        end += 2;
    }
    end
}

// The line of a refusal, at the start of a buffer: number, stream, place and key.
fn append_refusal(out: &mut [u8], number: u64, stream: u64, place: u64, key: u64) -> usize
    requires { 92 ≤ length out.old }
    ensures { take result out.new ≡ refusal_line (refusal_in number stream place key) }
{
    let a = append_with_number(out, 0, b"refused ", number);
    let b = append_with_number(out, a, b" ", stream);
    let c = append_with_number(out, b, b" ", place);
    let d = append_with_number(out, c, b" ", key);
    append(out, d, b"\n")
}

// The same as a text.
fn refusal_line(r: Refusal) -> Text
    ensures { text_of result ≡ refusal_line r }
{
    let mut out = [0u8; 1280];
    let len = append_refusal(
        &mut out,
        r.number as u64,
        r.stream as u64,
        r.place as u64,
        r.key,
    );
    Text { bytes: out, len }
}

// A word and a gap after it, or that it is empty.
fn append_with_gap(out: &mut [u8], at: usize, word: &[u8], empty: bool, gap: Fraction) -> usize
    requires { at + length word.now + 42 ≤ length out.old }
    ensures { Appended out.old at (word.now ++ gap_word empty gap) out.new result
        × (result ≤ at + length word.now + 42) }
{
    if empty {
        let a = append(out, at, word);
        return append(out, a, b"empty");
    }
    append_with_ratio(out, at, word, gap)
}

// The bounds, the gap and the rounds of a pair, with the word that stands before each.
fn append_pair(
    out: &mut [u8],
    at: usize,
    v: PairVerdict,
    lower: &[u8],
    upper: &[u8],
    gap: &[u8],
    rounds: &[u8],
) -> usize
    requires { at + length lower.now + length upper.now + length gap.now + length rounds.now + 146
        ≤ length out.old }
    ensures { let l = lower.now in
        let u = upper.now in
        let g = gap.now in
        let w = rounds.now in Appended out.old at (pair_words l u g w v) out.new result
        × (result ≤ at + length l + length u + length g + length w + 146) }
{
    let a = append_with_ratio(out, at, lower, v.lower);
    let b = append_with_ratio(out, a, upper, v.upper);
    let c = append_with_gap(out, b, gap, v.empty, v.gap);
    append_with_number(out, c, rounds, v.rounds as u64)
}

// What gapcheck writes: the bounds, the gap and the rounds, a line each, or the line of the refusal.
pub fn pair_lines(v: PairVerdict) -> Text
    ensures { text_of result ≡ pair_lines v }
{
    let r = v.refusal;
    if 0 < r.number {
        return refusal_line(r);
    }
    let mut out = [0u8; 1280];
    let a = append_pair(
        &mut out,
        0,
        v,
        b"lower ",
        b"\nupper ",
        b"\ngap ",
        b"\nrounds ",
    );
    let len = append(&mut out, a, b"\n");
    Text { bytes: out, len }
}

// The line of the blocks call, with the 576 bytes that it left, or that of the refusal.
pub fn blocks_line(v: BlocksVerdict, bytes: &[u8; 576]) -> Text
    ensures { text_of result ≡ blocks_line v bytes.now }
{
    let r = v.refusal;
    if 0 < r.number {
        return refusal_line(r);
    }
    let mut out = [0u8; 1280];
    let a = append_with_number(&mut out, 0, b"blocks ", v.blocks as u64);
    let b = append_with_number(&mut out, a, b" rounds ", v.rounds as u64);
    let c = append_with_number(&mut out, b, b" rule ", v.rule as u64);
    let d = append(&mut out, c, b" ");
    let e = append_hexadecimal(&mut out, d, bytes);
    let len = append(&mut out, e, b"\n");
    Text { bytes: out, len }
}

// What the check says, at the start of a buffer, after a word.
fn append_check(out: &mut [u8], word: &[u8], v: CheckVerdict) -> usize
    requires { length word.now + 117 ≤ length out.old }
    ensures { Appended out.old 0 (check_words word.now v) out.new result
        × (result ≤ length word.now + 117) }
{
    let a = append_with_number(out, 0, word, v.side as u64);
    let b = append_with_ratio(out, a, b" ", v.bound);
    let c = append_with_number(out, b, b" rounds ", v.rounds as u64);
    append_with_number(out, c, b" rule ", v.rule as u64)
}

// The line of the check, or that of the refusal.
pub fn check_line(v: CheckVerdict) -> Text
    ensures { text_of result ≡ check_line v }
{
    let r = v.refusal;
    if 0 < r.number {
        return refusal_line(r);
    }
    let mut out = [0u8; 1280];
    let a = append_check(&mut out, b"check ", v);
    let len = append(&mut out, a, b"\n");
    Text { bytes: out, len }
}

// The line of the pair, or that of the refusal.
pub fn pair_line(v: PairVerdict) -> Text
    ensures { text_of result ≡ pair_line v }
{
    let r = v.refusal;
    if 0 < r.number {
        return refusal_line(r);
    }
    let mut out = [0u8; 1280];
    let a = append_pair(&mut out, 0, v, b"pair ", b" ", b" gap ", b" rounds ");
    let b = append_with_number(&mut out, a, b" rule ", v.rule as u64);
    let len = append(&mut out, b, b"\n");
    Text { bytes: out, len }
}

// The line of two problems with a pair for each, or that of the refusal.
pub fn sum_line(v: SumVerdict) -> Text
    ensures { text_of result ≡ sum_line v }
{
    let r = v.refusal;
    if 0 < r.number {
        return refusal_line(r);
    }
    let rules = v.rules;
    let mut out = [0u8; 1280];
    let a = append_with_ratio(&mut out, 0, b"sum ", v.lower);
    let b = append_with_ratio(&mut out, a, b" ", v.upper);
    let c = append_with_number(&mut out, b, b" rules ", rules.first as u64);
    let d = append_with_number(&mut out, c, b" ", rules.second as u64);
    let len = append(&mut out, d, b"\n");
    Text { bytes: out, len }
}

// The outcome of an arrival, and the word before it.
pub fn append_arrival(out: &mut [u8], at: usize, word: &[u8], v: WindowVerdict) -> usize
    requires { at + length word.now + 63 ≤ length out.old }
    ensures { Appended out.old at (word.now ++ arrival_word v) out.new result
        × (result ≤ at + length word.now + 63) }
{
    let a = append(out, at, word);
    let r = v.refusal;
    if 0 < r.number {
        return append_number(out, a, r.number as u64);
    }
    let b = append_ratio(out, a, v.widest);
    append_with_number(out, b, b" ", v.age as u64)
}

// The bytes that came back of two certificates, or the line of the refusal in the four numbers, at the start of a
// buffer.
pub fn tighter_line(
    out: &mut [u8],
    number: u64,
    stream: u64,
    place: u64,
    key: u64,
    part: &[u8],
) -> usize
    requires { 2 * length part.now + 92 ≤ length out.old }
    ensures { take result out.new ≡ tighter_line (refusal_in number stream place key) part.now }
{
    if 0 < number {
        return append_refusal(out, number, stream, place, key);
    }
    let a = append(out, 0, b"tighter ");
    let b = append_hexadecimal(out, a, part);
    append(out, b, b"\n")
}

// The line of the moved bound, or that of the refusal.
pub fn adjusted_line(v: AdjustedVerdict) -> Text
    ensures { text_of result ≡ adjusted_line v }
{
    let r = v.refusal;
    if 0 < r.number {
        return refusal_line(r);
    }
    let mut out = [0u8; 1280];
    let a = append_with_ratio(&mut out, 0, b"adjusted ", v.bound);
    let len = append(&mut out, a, b"\n");
    Text { bytes: out, len }
}

// What the office's check says, the number of notes and the buffer that it left, or the line of the refusal, at the
// start of a buffer.
pub fn office_line(out: &mut [u8], v: OfficeVerdict, buffer: &[u8]) -> usize
    requires { 2 * length buffer.now + 153 ≤ length out.old }
    ensures { take result out.new ≡ office_line v buffer.now }
{
    let check = v.check;
    let r = check.refusal;
    if 0 < r.number {
        return append_refusal(out, r.number as u64, r.stream as u64, r.place as u64, r.key);
    }
    let a = append_check(out, b"office ", check);
    let b = append_with_number(out, a, b" notes ", v.notes as u64);
    let c = append(out, b, b" ");
    let d = append_hexadecimal(out, c, buffer);
    append(out, d, b"\n")
}

// The first n bytes, or all.
pub fn cut(bytes: &[u8], n: usize) -> &[u8]
    ensures { result.now ≡ take n bytes.now }
{
    if n <= bytes.len() { &bytes[..n] } else { bytes }
}

// The line of the symmetries call, with the 256 bytes that it left, or that of the refusal.
pub fn symmetries_line(v: SymmetriesVerdict, bytes: &[u8; 256]) -> Text
    ensures { text_of result ≡ symmetries_line v bytes.now }
{
    let r = v.refusal;
    if 0 < r.number {
        return refusal_line(r);
    }
    let mut out = [0u8; 1280];
    let a = append_with_number(&mut out, 0, b"symmetries ", v.masks as u64);
    let b = append(&mut out, a, b" ");
    let c = append_hexadecimal(&mut out, b, bytes);
    let len = append(&mut out, c, b"\n");
    Text { bytes: out, len }
}
