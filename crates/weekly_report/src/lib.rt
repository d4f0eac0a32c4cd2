// Request 07: a week's pairs in one report. The public call is `report`: it looks through the records first, and then
// answers each by the pair.
#![tactic(auto)]

ghost use Rattle.std.specs.Prelude.{◌≡◌, false, cond, ◌||◌, ℕ, ◌+◌, ◌^◌, ◌≤◌, ◌<◌, eqb, length, None, Some};
ghost use Rattle.format.specs.Commands.{refused};
ghost use Rattle.format.specs.Operands.{number};
ghost use Rattle.calls.specs.Tables.{tables, tables_short, TablesLeft};
ghost use Rattle.calls.specs.Report.{record_end, is_cut, runs_at, records_of, record_count, pair_on, checked_records};
ghost use Rattle.calls.specs.Report.{output_left, is_short, with_accepted, with_verdict, refused_report};
ghost use Rattle.calls.specs.Report.{report_verdict, ReportNumbered, EachRecord, EachTold, OutputKept, WithinBounds};
ghost use Rattle.calls.specs.Report.{Summarised, EachZeros, EachKept};
ghost use Rattle.calls.specs.Rules.{UnderOne, AtLarger};
ghost use Rattle.calls.specs.Zeros.{ReportZeros};
ghost use Rattle.calls.specs.RowOrder.{ReportAnyOrder};
ghost use Rattle.work_tables.specs.Tables.{Long};
ghost use Rattle.weekly_report.specs.Steps.{count_outcome, count_from, Roomy, Answered};

use calls::{Fraction, PairVerdict, ReportVerdict};
use certificate_judge::NO_REFUSAL;

// One of the three lengths of a record.
fn length_at(s: &[u8], at: usize) -> usize
    requires { at + 2 ≤ length s.now }
    ensures { (result ≡ number 2 s.now at) × (result < 256 ^ 2) }
{
    operand_reader::number_at(s, at, 2) as usize
}

// Where the record at an offset ends, unless it is cut short.
fn end_at(s: &[u8], at: usize) -> Option<usize>
    requires { at ≤ length s.now }
    ensures { result ≡ cond (is_cut s.now at) None (Some (record_end s.now at)) }
{
    let left = s.len() - at;
    if left < 6 {
        return None;
    }
    let runs = length_at(s, at) + length_at(s, at + 2) + length_at(s, at + 4);
    if left - 6 < runs {
        return None;
    }
    Some(at + 6 + runs)
}

// How many records the input holds; or the offset of a record that is cut or of a byte after the 64th.
fn count_records(s: &[u8]) -> Result<usize, usize>
    ensures { count_outcome result ≡ count_from 0 (records_of s.now) }
{
    let mut at = 0;
    let mut count = 0;
    // By steps: a record says how long it is.
    while at < s.len() {
        if count == 64 {
            return Err(at);
        }
        at = end_at(s, at).ok_or(at)?;
        count += 1;
    }
    Ok(count)
}

// How many records the input holds; none where one is cut.
pub fn record_count(records: &[u8]) -> usize
    ensures count { result ≡ record_count (records_of records.now) }
    ensures zeros { (place : ℕ) → records_of records.now ≡ refused 12 place → result ≡ 0 }
{
    count_records(records).unwrap_or(0)
}

// The pair on the three runs of the record at an offset.
fn pair_at(s: &[u8], at: usize, keys: &mut [u64], high: &mut [i64], low: &mut [i64]) -> PairVerdict
    requires { (record_end s.now at ≤ length s.now) × Long (tables keys.old high.old low.old) }
    ensures verdict { result ≡ pair_on (runs_at s.now at) }
    ensures tables { let lent = tables keys.old high.old low.old in
        TablesLeft false lent (tables keys.new high.new low.new) }
{
    let a = at + 6;
    let b = a + length_at(s, at);
    let c = b + length_at(s, at + 2);
    let d = c + length_at(s, at + 4);
    checker::pair(&s[a..b], &s[b..c], &s[c..d], keys, high, low)
}

// The bound that stands after one more: the next where none stood or where it is ahead, and else the one that stood.
fn chosen(accepted: usize, ahead: bool, next: Fraction, standing: Fraction) -> Fraction
    ensures { result ≡ cond (eqb accepted 0 || ahead) next standing }
{
    if accepted == 0 || ahead {
        next
    } else {
        standing
    }
}

// The result with one more record that is accepted.
fn with_accepted(t: ReportVerdict, v: PairVerdict) -> ReportVerdict
    requires { t.accepted < 64 }
    ensures { result ≡ with_accepted t v }
{
    let smaller = fractions::less(v.lower, t.lower);
    let larger = fractions::less(t.upper, v.upper);
    ReportVerdict {
        refusal: NO_REFUSAL,
        accepted: t.accepted + 1,
        lower: chosen(t.accepted, smaller, v.lower, t.lower),
        upper: chosen(t.accepted, larger, v.upper, t.upper),
    }
}

// The result with one more record.
#[tactic(auto, unfolding(calls::specs::Report::with_verdict))]
fn with_verdict(t: ReportVerdict, v: PairVerdict) -> ReportVerdict
    requires { t.accepted < 64 }
    ensures { result ≡ with_verdict t v }
{
    if v.refusal.number > 0 {
        t
    } else {
        with_accepted(t, v)
    }
}

// A refusal of the call. With number 0 it is the result of no records.
fn refuse(number: u8, place: usize) -> ReportVerdict
    ensures { result ≡ refused_report number place }
{
    ReportVerdict {
        refusal: certificate_judge::problem_refusal(number, place),
        accepted: 0,
        lower: fractions::NONE,
        upper: fractions::NONE,
    }
}

// Every record answered, with room for all. The pair leaves the tables cleared, so they are cleared here only where
// there is no record.
fn answer_records(
    s: &[u8],
    out: &mut [u8],
    keys: &mut [u64],
    high: &mut [i64],
    low: &mut [i64],
) -> ReportVerdict
    requires { Roomy s.now out.old × Long (tables keys.old high.old low.old) }
    ensures answers { Answered s.now out.old result out.new }
    ensures tables { let lent = tables keys.old high.old low.old in
        TablesLeft false lent (tables keys.new high.new low.new) }
{
    let mut t = refuse(0, 0);
    let mut at = 0;
    let mut i = 0;
    // By steps: a record says where it ends.
    while let Some(end) = end_at(s, at) {
        let v = pair_at(s, at, keys, high, low);
        let position = 32 * i;
        record_writer::put_record(&mut out[position..], v);
        t = with_verdict(t, v);
        at = end;
        i += 1;
    }
    if i == 0 {
        work_tables::clear_tables(keys, high, low);
    }
    t
}

// A report on the records of the input, whose 32 bytes for each go to `out`. `keys`, `high` and `low` are the work
// tables.
pub fn report(
    records: &[u8],
    out: &mut [u8],
    keys: &mut [u64],
    high: &mut [i64],
    low: &mut [i64],
) -> ReportVerdict
    ensures verdict { let lent = tables keys.old high.old low.old in
        result ≡ report_verdict (checked_records (tables_short lent) records.now out.old) }
    ensures output { let lent = tables keys.old high.old low.old in
        let before = out.old in
        out.new ≡ output_left (checked_records (tables_short lent) records.now before) before }
    ensures tables { let lent = tables keys.old high.old low.old in
        let left = tables keys.new high.new low.new in
        let o = checked_records (tables_short lent) records.now out.old in
        TablesLeft (is_short o) lent left }
    ensures numbered { ReportNumbered result.refusal.number }
    ensures each { EachRecord records.now result.refusal.number out.new }
    ensures told { EachTold records.now result.refusal.number out.new }
    ensures kept { OutputKept records.now result.refusal.number out.old out.new }
    ensures within { WithinBounds records.now result }
    ensures summary { Summarised records.now result }
    ensures zeros { ReportZeros result }
    ensures record_zeros { EachZeros records.now result.refusal.number out.new }
    ensures under_one { EachKept UnderOne records.now result.refusal.number out.new }
    ensures at_larger { EachKept AtLarger records.now result.refusal.number out.new }
    ensures rows { let lent = tables keys.old high.old low.old in
        ReportAnyOrder (tables_short lent) records.now out.old result }
{
    if work_tables::is_short(keys.len(), high.len(), low.len()) {
        return refuse(1, 0);
    }
    match count_records(records) {
        Ok(count) => {
            if out.len() / 32 < count {
                return refuse(1, 0);
            }
            answer_records(records, out, keys, high, low)
        }
        Err(place) => {
            work_tables::clear_tables(keys, high, low);
            refuse(12, place)
        }
    }
}
