// Request 10, notes that only the office sees: the check of a certificate with its notes removed, and the notes in a
// lent buffer. A walk over the commands tells the notes. Where there are none, the certificate itself is checked; else
// a copy without them, of as many bytes as a certificate is read by.
#![tactic(auto)]

ghost use Rattle.std.specs.Prelude.{◌≡◌, List, ◌++◌, ℕ, ◌*◌, ◌<◌, ◌≤◌, length, take, drop, MatchOption};
ghost use Rattle.std.proofs.Math.Seq.{slice};
ghost use Rattle.format.specs.Notes.{note_text, office_size, walk_start, step_at, note_offsets, walk_end, body_end};
ghost use Rattle.format.specs.Notes.{without_notes, place_sent, note_texts};
ghost use Rattle.format.proofs.Walk.{Walking};
ghost use Rattle.calls.specs.Tables.{tables, tables_short, TablesLeft};
ghost use Rattle.calls.specs.Check.{check_verdict};
ghost use Rattle.calls.specs.Promises.{HoldsBySide, CheckDiffers, SevenExactly, RoundsTaken, FewRounds, RuleUsed};
ghost use Rattle.calls.specs.Zeros.{OfficeZeros};
ghost use Rattle.calls.specs.Rules.{UnderOne, AtLarger};
ghost use Rattle.calls.specs.Office.{verdict_sent, note_count, refused_notes, office_of, office_verdict, buffer_left};
ghost use Rattle.calls.specs.Office.{OfficeNumbered, StrictBeside, SameForOthers, CutNote, ThirteenExactly, Untouched};
ghost use Rattle.calls.specs.Office.{NotesPassed, PlacesSent, NotesCopied, OfficeExactly, OfficeSplits, OfficeKept};
ghost use Rattle.calls.specs.RowOrder.{OfficeAnyOrder};
ghost use Rattle.office_check.specs.Steps.{note_here, Reached, Filled, Sendable, buffer_told};

use calls::{CheckVerdict, OfficeVerdict, Refusal};

// The length of the note or of the command that a byte begins, with its byte; 0 where it is neither.
fn length_of(byte: u8) -> usize
    ensures { result ≡ office_size byte }
{
    if byte == 0x40 {
        9
    } else {
        certificate_commands::length_of(byte)
    }
}

// Where the walk begins: behind the 10, or at the end of a stream that does not begin with a whole one.
fn walk_start(s: &[u8]) -> usize
    ensures { result ≡ walk_start s.now }
{
    if s.len() < 10 {
        return s.len();
    }
    let first = s[0];
    if first == 0x10 { 10 } else { s.len() }
}

// How far the walk goes at an offset, unless it ends there.
fn step_at(s: &[u8], at: usize) -> Option<usize>
    ensures { MatchOption result (step_at s.now at ≡ 0) (λ n. (n ≡ step_at s.now at) × (0 < n)) }
{
    if at >= s.len() || s[at] == 0x13 {
        return None;
    }
    let n = length_of(s[at]);
    if n == 0 || s.len() - at < n {
        return None;
    }
    Some(n)
}

// Whether a whole note stands at an offset of the walk.
fn note_at(s: &[u8], at: usize) -> bool
    requires { at ≤ length s.now }
    ensures { result ≡ note_here s.now at }
{
    if s.len() - at < 9 {
        return false;
    }
    s[at] == 0x40
}

// The walk from an offset on, to the next note or to its end.
fn next_note(s: &[u8], from: usize) -> usize
    requires { from ≤ length s.now }
    ensures by_index { (l : List ℕ) (e : ℕ) → Walking s.now from l e → Reached s.now l e result }
    ensures inside { (from ≤ result) × (result ≤ length s.now) }
{
    let mut at = from;
    // By steps: each command or note says how long it is.
    while let Some(n) = step_at(s, at) {
        if s[at] == 0x40 {
            return at;
        }
        at += n;
    }
    at
}

// The first note, or the end of the walk.
fn first_note(s: &[u8]) -> usize
    ensures { Reached s.now (note_offsets s.now) (walk_end s.now) result
        × (result ≤ length s.now) }
{
    next_note(s, walk_start(s))
}

// What the walk finds: the number of notes, and where the commands end.
#[derive(Drop)]
struct Findings {
    notes: usize,
    end: usize,
}

// At the end of the walk: a note that is cut stands there, or none.
fn at_end(s: &[u8], at: usize, notes: usize) -> Findings
    requires { at ≡ walk_end s.now }
    ensures { (result.notes ≡ notes) × (result.end ≡ body_end s.now) }
{
    let end = if at < s.len() && s[at] == 0x40 {
        at
    } else {
        s.len()
    };
    Findings { notes, end }
}

// The walk over a certificate stream.
fn walk(s: &[u8]) -> Findings
    ensures { (result.notes ≡ note_count s.now) × (result.end ≡ body_end s.now) }
{
    let mut notes = 0;
    let mut at = first_note(s);
    // By steps: from note to note.
    while note_at(s, at) {
        notes += 1;
        at = next_note(s, at + 9);
    }
    at_end(s, at, notes)
}

// Puts the bytes between two offsets of a stream behind the first `len` bytes of a copy, as many of them as it holds;
// how many it has then.
fn append(s: &[u8], from: usize, to: usize, copy: &mut [u8], len: usize) -> usize
    requires { (from ≤ to) × (to ≤ length s.now) × (len ≤ length copy.old) }
    ensures { Filled copy.old len (slice from to s.now) copy.new result }
{
    let n = (to - from).min(copy.len() - len);
    let end = from + n;
    copy[len..len + n].copy_from_slice(&s[from..end]);
    len + n
}

// A copy of the stream with notes removed, as far as it holds it; how many bytes it has. The commands end at `end`.
fn remove(s: &[u8], end: usize, copy: &mut [u8]) -> usize
    requires { end ≡ body_end s.now }
    ensures { (take result copy.new ≡ take (length copy.old) (without_notes s.now))
        × (result ≤ length copy.old) }
{
    let mut from = 0;
    let mut len = 0;
    let mut at = first_note(s);
    // By steps: from note to note.
    while note_at(s, at) {
        len = append(s, from, at, copy, len);
        from = at + 9;
        at = next_note(s, from);
    }
    append(s, from, end, copy, len)
}

// The place as sent of a place in the stream with notes removed.
fn place_sent(s: &[u8], place: usize) -> usize
    requires { place_sent (note_offsets s.now) place ≤ length s.now }
    ensures { result ≡ place_sent (note_offsets s.now) place }
{
    let mut x = place;
    let mut at = first_note(s);
    // By steps: from note to note.
    while note_at(s, at) {
        if x < at {
            return x;
        }
        x += 9;
        at = next_note(s, at + 9);
    }
    x
}

// The notes, put into a buffer that holds them.
fn put_notes(s: &[u8], buffer: &mut [u8])
    requires { note_text * note_count s.now ≤ length buffer.old }
    ensures { let t = s.now in
        buffer.new ≡ note_texts t ++ drop (note_text * note_count t) buffer.old }
{
    let mut len = 0;
    let mut at = first_note(s);
    // By steps: from note to note.
    while note_at(s, at) {
        len = append(s, at + 1, at + 9, buffer, len);
        at = next_note(s, at + 9);
    }
}

// The check of a certificate that has notes, on a copy without them.
fn check_noted(
    problem: &[u8],
    certificate: &[u8],
    end: usize,
    keys: &mut [u64],
    high: &mut [i64],
    low: &mut [i64],
) -> CheckVerdict
    requires { end ≡ body_end certificate.now }
    ensures verdict { let lent = tables keys.old high.old low.old in
        result ≡ check_verdict (tables_short lent) problem.now (without_notes certificate.now) }
    ensures tables { let lent = tables keys.old high.old low.old in
        let left = tables keys.new high.new low.new in
        TablesLeft (tables_short lent) lent left }
{
    let mut copy = [0u8; 49684];
    let len = remove(certificate, end, &mut copy);
    checker::check(problem, &copy[..len], keys, high, low)
}

// A verdict on the certificate with notes removed, with its place as sent.
fn verdict_sent(certificate: &[u8], v: CheckVerdict) -> CheckVerdict
    requires { Sendable certificate.now v }
    ensures { result ≡ verdict_sent certificate.now v }
{
    if v.refusal.stream != 1 {
        return v;
    }
    let place = place_sent(certificate, v.refusal.place);
    CheckVerdict {
        refusal: Refusal { place, ..v.refusal },
        ..v
    }
}

// Refusal 13.
fn refuse_notes() -> OfficeVerdict
    ensures { result ≡ refused_notes }
{
    OfficeVerdict {
        check: CheckVerdict {
            refusal: certificate_judge::certificate_refusal(1, 13, 0, 0),
            side: 0,
            bound: fractions::NONE,
            rounds: 0,
            rule: 0,
        },
        notes: 0,
    }
}

// What the check says of a certificate with notes removed, told to the office.
fn answer(certificate: &[u8], notes: usize, v: CheckVerdict, buffer: &mut [u8]) -> OfficeVerdict
    requires { (notes ≡ note_count certificate.now) × Sendable certificate.now v }
    ensures verdict { result ≡ office_of certificate.now (length buffer.old) v }
    ensures buffer { buffer.new ≡ buffer_told certificate.now result.check buffer.old }
{
    let check = verdict_sent(certificate, v);
    if check.refusal.number > 0 {
        return OfficeVerdict { check, notes: 0 };
    }
    if buffer.len() < 8 * notes {
        return refuse_notes();
    }
    put_notes(certificate, buffer);
    OfficeVerdict { check, notes }
}

// Whether one certificate, which may have notes, holds for a problem. `buffer` gets the notes; `keys`, `high` and `low`
// are the work tables.
pub fn office(
    problem: &[u8],
    certificate: &[u8],
    buffer: &mut [u8],
    keys: &mut [u64],
    high: &mut [i64],
    low: &mut [i64],
) -> OfficeVerdict
    ensures verdict { let lent = tables keys.old high.old low.old in
        let t = certificate.now in
        result ≡ office_verdict (tables_short lent) problem.now t (length buffer.old) }
    ensures buffer { let lent = tables keys.old high.old low.old in
        let t = certificate.now in
        let before = buffer.old in
        buffer.new ≡ buffer_left (tables_short lent) problem.now t before }
    ensures tables { let lent = tables keys.old high.old low.old in
        let left = tables keys.new high.new low.new in
        TablesLeft (tables_short lent) lent left }
    ensures untouched { Untouched result buffer.old buffer.new }
    ensures numbered { OfficeNumbered result.check.refusal.number }
    ensures strict { let lent = tables keys.old high.old low.old in
        StrictBeside (tables_short lent) problem.now certificate.now result }
    ensures same { let lent = tables keys.old high.old low.old in
        let t = certificate.now in
        SameForOthers (tables_short lent) problem.now t (length buffer.old) result }
    ensures holds { HoldsBySide problem.now result.check }
    ensures cut { let lent = tables keys.old high.old low.old in
        CutNote (tables_short lent) problem.now certificate.now result.check.refusal }
    ensures thirteen { let lent = tables keys.old high.old low.old in
        let t = certificate.now in
        let room = length buffer.old in
        ThirteenExactly (tables_short lent) problem.now t room result.check.refusal }
    ensures passed { let lent = tables keys.old high.old low.old in
        let t = certificate.now in
        let before = buffer.old in
        NotesPassed (tables_short lent) problem.now t before result buffer.new }
    ensures places { let lent = tables keys.old high.old low.old in
        PlacesSent (tables_short lent) problem.now certificate.now result.check.refusal }
    ensures copied { NotesCopied certificate.now result buffer.new }
    ensures accepted { let lent = tables keys.old high.old low.old in
        let t = certificate.now in
        OfficeExactly (tables_short lent) problem.now t (length buffer.old) result }
    ensures eight { let lent = tables keys.old high.old low.old in
        OfficeSplits (tables_short lent) problem.now certificate.now result.check.refusal }
    ensures differs { let lent = tables keys.old high.old low.old in
        let t = certificate.now in
        CheckDiffers (tables_short lent) problem.now (without_notes t) result.check.refusal }
    ensures seven { let lent = tables keys.old high.old low.old in
        SevenExactly (tables_short lent) problem.now result.check.refusal }
    ensures rounds { RoundsTaken problem.now result.check.refusal.number result.check.rounds }
    ensures few_rounds { FewRounds problem.now result.check.refusal.number result.check.rounds }
    ensures rule { RuleUsed problem.now result.check.refusal.number result.check.rule }
    ensures zeros { OfficeZeros result }
    ensures under_one { let lent = tables keys.old high.old low.old in
        let t = certificate.now in
        let room = length buffer.old in
        OfficeKept UnderOne (tables_short lent) problem.now t room result }
    ensures at_larger { let lent = tables keys.old high.old low.old in
        let t = certificate.now in
        let room = length buffer.old in
        OfficeKept AtLarger (tables_short lent) problem.now t room result }
    ensures rows { let lent = tables keys.old high.old low.old in
        let t = certificate.now in
        let room = length buffer.old in
        OfficeAnyOrder (tables_short lent) problem.now t room result }
{
    let w = walk(certificate);
    let notes = w.notes;
    let end = w.end;
    if notes == 0 {
        let check = checker::check(problem, &certificate[..end], keys, high, low);
        return OfficeVerdict { check, notes: 0 };
    }
    let v = check_noted(problem, certificate, end, keys, high, low);
    answer(certificate, notes, v, buffer)
}
