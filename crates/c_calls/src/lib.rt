// The calls for programs in other languages, which crates/c_calls_c exports. Every field of a verdict goes into a lent
// run of numbers, at the places that crates/verdict_numbers defines; what else a function leaves behind it is what the
// call leaves. A run that is too short is refused with 1, as a short work table is.
#![tactic(auto)]

ghost use Rattle.std.specs.Prelude.{◌≡◌, ◌<◌, length};
ghost use Rattle.calls.specs.Tables.{tables, tables_short, TablesLeft};
ghost use Rattle.calls.specs.Blocks.{blocks_short, blocks_verdict, bytes_left};
ghost use Rattle.calls.specs.Check.{check_verdict};
ghost use Rattle.calls.specs.Pair.{pair_verdict};
ghost use Rattle.calls.specs.Superseding.{superseding_verdict, stream_of, refusal_in};
ghost use Rattle.calls.specs.Symmetries.{symmetries_short, symmetries_verdict, masks_left};
ghost use Rattle.calls.specs.Report.{three_runs, checked_records, report_verdict, output_left, is_short};
ghost use Rattle.calls.specs.Report.{records_of, record_count};
ghost use Rattle.calls.specs.BidTool.{tool_number, tool_bytes, OneRecord, AnyOrder, ToolZeros, ToolKept};
ghost use Rattle.calls.specs.Rules.{UnderOne, AtLarger};
ghost use Rattle.calls.specs.Zeros.{RefusalZeros};
ghost use Rattle.calls.specs.Fractions.{fraction};
ghost use Rattle.calls.specs.AddedBounds.{streams, sum_verdict};
ghost use Rattle.calls.specs.Adjusted.{adjusted_verdict};
ghost use Rattle.calls.specs.Office.{office_verdict, buffer_left};
ghost use Rattle.verdict_numbers.specs.Numbers.{run_short, numbers_left, RunZeros};
ghost use Rattle.verdict_numbers.specs.Numbers.{blocks_numbers, check_numbers, pair_numbers, chosen_numbers};
ghost use Rattle.verdict_numbers.specs.Numbers.{two_checks, two_numbers};
ghost use Rattle.verdict_numbers.specs.Numbers.{symmetries_numbers, report_numbers, sum_numbers, adjusted_numbers};
ghost use Rattle.verdict_numbers.specs.Numbers.{office_numbers, push_numbers};
ghost use Rattle.verdict_numbers.specs.States.{window_short, window_verdict, state_left, StateArrivals};
ghost use Rattle.verdict_numbers.specs.Texts.{text_left};
ghost use Rattle.lines.specs.Answers.{answer_to};
ghost use Rattle.lines.specs.Texts.{text_of};

use calls::Fraction;
use lines::Text;

// How many numbers each verdict has, by crates/verdict_numbers.
const BLOCKS: usize = 7;

const CHECK: usize = 9;

const PAIR: usize = 13;

const TWO: usize = 18;

const CHOOSE: usize = 5;

const SYMMETRIES: usize = 5;

const REPORT: usize = 9;

const SUM: usize = 10;

const MOVED: usize = 6;

const OFFICE: usize = 10;

const WINDOW: usize = 7;

// The blocks call.
pub fn zamiachisel_blocks(
    problem: &[u8],
    out: &mut [u8],
    verdict: &mut [u64],
    keys: &mut [u64],
    high: &mut [i64],
    low: &mut [i64],
) -> u64
    ensures number { let lent = tables keys.old high.old low.old in
        let short = run_short 7 verdict.old (blocks_short out.old lent) in
        let v = blocks_verdict short problem.now in
        result ≡ v.refusal.number }
    ensures verdict { let lent = tables keys.old high.old low.old in
        let short = run_short 7 verdict.old (blocks_short out.old lent) in
        let v = blocks_verdict short problem.now in
        verdict.new ≡ numbers_left (blocks_numbers v) verdict.old }
    ensures bytes { let lent = tables keys.old high.old low.old in
        let short = run_short 7 verdict.old (blocks_short out.old lent) in
        out.new ≡ bytes_left short problem.now out.old }
    ensures tables { let lent = tables keys.old high.old low.old in
        let left = tables keys.new high.new low.new in
        let short = run_short 7 verdict.old (blocks_short out.old lent) in
        TablesLeft short lent left }
    ensures zeros { RunZeros 7 result verdict.new }
{
    if verdict.len() < BLOCKS {
        return 1;
    }
    let v = checker::blocks(problem, out, keys, high, low);
    let numbers = verdict_writer::blocks_numbers(v);
    verdict_writer::put_numbers(verdict, &numbers)
}

// The check.
pub fn zamiachisel_check(
    problem: &[u8],
    certificate: &[u8],
    verdict: &mut [u64],
    keys: &mut [u64],
    high: &mut [i64],
    low: &mut [i64],
) -> u64
    ensures number { let lent = tables keys.old high.old low.old in
        let short = run_short 9 verdict.old (tables_short lent) in
        let v = check_verdict short problem.now certificate.now in
        result ≡ v.refusal.number }
    ensures verdict { let lent = tables keys.old high.old low.old in
        let short = run_short 9 verdict.old (tables_short lent) in
        let v = check_verdict short problem.now certificate.now in
        verdict.new ≡ numbers_left (check_numbers v) verdict.old }
    ensures tables { let lent = tables keys.old high.old low.old in
        let left = tables keys.new high.new low.new in
        let short = run_short 9 verdict.old (tables_short lent) in
        TablesLeft short lent left }
    ensures zeros { RunZeros 9 result verdict.new }
{
    if verdict.len() < CHECK {
        return 1;
    }
    let v = checker::check(problem, certificate, keys, high, low);
    let numbers = verdict_writer::check_numbers(v);
    verdict_writer::put_numbers(verdict, &numbers)
}

// The pair.
pub fn zamiachisel_pair(
    problem: &[u8],
    first: &[u8],
    second: &[u8],
    verdict: &mut [u64],
    keys: &mut [u64],
    high: &mut [i64],
    low: &mut [i64],
) -> u64
    ensures number { let lent = tables keys.old high.old low.old in
        let short = run_short 13 verdict.old (tables_short lent) in
        let v = pair_verdict short problem.now first.now second.now in
        result ≡ v.refusal.number }
    ensures verdict { let lent = tables keys.old high.old low.old in
        let short = run_short 13 verdict.old (tables_short lent) in
        let v = pair_verdict short problem.now first.now second.now in
        verdict.new ≡ numbers_left (pair_numbers v) verdict.old }
    ensures tables { let lent = tables keys.old high.old low.old in
        let left = tables keys.new high.new low.new in
        let short = run_short 13 verdict.old (tables_short lent) in
        TablesLeft short lent left }
    ensures zeros { RunZeros 13 result verdict.new }
{
    if verdict.len() < PAIR {
        return 1;
    }
    let v = checker::pair(problem, first, second, keys, high, low);
    let numbers = verdict_writer::pair_numbers(v);
    verdict_writer::put_numbers(verdict, &numbers)
}

// The check of two certificates for one problem, each as if it were alone. The number of the first one's refusal comes
// back.
pub fn zamiachisel_check_two(
    problem: &[u8],
    first: &[u8],
    second: &[u8],
    verdict: &mut [u64],
    keys: &mut [u64],
    high: &mut [i64],
    low: &mut [i64],
) -> u64
    ensures number { let lent = tables keys.old high.old low.old in
        let short = run_short 18 verdict.old (tables_short lent) in
        let s = problem.now in
        let v = two_checks (check_verdict short s first.now) (check_verdict short s second.now) in
        result ≡ v.first.refusal.number }
    ensures verdict { let lent = tables keys.old high.old low.old in
        let short = run_short 18 verdict.old (tables_short lent) in
        let s = problem.now in
        let v = two_checks (check_verdict short s first.now) (check_verdict short s second.now) in
        verdict.new ≡ numbers_left (two_numbers v) verdict.old }
    ensures tables { let lent = tables keys.old high.old low.old in
        let left = tables keys.new high.new low.new in
        let short = run_short 18 verdict.old (tables_short lent) in
        TablesLeft short lent left }
{
    if verdict.len() < TWO {
        return 1;
    }
    let v = checker::check_two(problem, first, second, keys, high, low);
    let numbers = verdict_writer::two_numbers(v);
    verdict_writer::put_numbers(verdict, &numbers)
}

// The call on two certificates for one problem (request 02): which one comes back, as the number of its stream.
pub fn zamiachisel_choose(
    problem: &[u8],
    first: &[u8],
    second: &[u8],
    verdict: &mut [u64],
    keys: &mut [u64],
    high: &mut [i64],
    low: &mut [i64],
) -> u64
    ensures number { let lent = tables keys.old high.old low.old in
        let short = run_short 5 verdict.old (tables_short lent) in
        let s = problem.now in
        let v = superseding_verdict short s first.now second.now in
        result ≡ v.refusal.number }
    ensures verdict { let lent = tables keys.old high.old low.old in
        let short = run_short 5 verdict.old (tables_short lent) in
        let s = problem.now in
        let v = superseding_verdict short s first.now second.now in
        verdict.new ≡ numbers_left (chosen_numbers v) verdict.old }
    ensures tables { let lent = tables keys.old high.old low.old in
        let left = tables keys.new high.new low.new in
        let short = run_short 5 verdict.old (tables_short lent) in
        TablesLeft short lent left }
    ensures zeros { RunZeros 5 result verdict.new }
{
    if verdict.len() < CHOOSE {
        return 1;
    }
    let mut number = 0u64;
    let mut stream = 0u64;
    let mut place = 0u64;
    let mut key = 0u64;
    let chosen = superseding::choose(
        problem,
        first,
        second,
        &mut number,
        &mut stream,
        &mut place,
        &mut key,
        keys,
        high,
        low,
    );
    let back = verdict_writer::stream_of(chosen);
    let numbers = [number, stream, place, key, back];
    verdict_writer::put_numbers(verdict, &numbers)
}

// The same in the words of request 02, with four numbers lent singly. C gets no part of a run, so what comes back is the
// number of the stream that does, 1 for the first certificate and 2 for the second, and 0 for neither.
pub fn zamiachisel_tighter(
    problem: &[u8],
    first: &[u8],
    second: &[u8],
    number: &mut u64,
    stream: &mut u64,
    place: &mut u64,
    key: &mut u64,
    keys: &mut [u64],
    high: &mut [i64],
    low: &mut [i64],
) -> u64
    ensures chosen { let lent = tables keys.old high.old low.old in
        let s = problem.now in
        let v = superseding_verdict (tables_short lent) s first.now second.now in
        result ≡ stream_of v.chosen }
    ensures numbers { let lent = tables keys.old high.old low.old in
        let s = problem.now in
        let v = superseding_verdict (tables_short lent) s first.now second.now in
        refusal_in number.new stream.new place.new key.new ≡ v.refusal }
    ensures tables { let lent = tables keys.old high.old low.old in
        let left = tables keys.new high.new low.new in
        TablesLeft (tables_short lent) lent left }
    ensures zeros { let f = refusal_in number.new stream.new place.new key.new in
        RefusalZeros f × (0 < f.number → result ≡ 0) }
{
    let chosen = superseding::choose(
        problem, first, second, number, stream, place, key, keys, high, low,
    );
    verdict_writer::stream_of(chosen)
}

// The symmetries call.
pub fn zamiachisel_symmetries(
    problem: &[u8],
    out: &mut [u8],
    verdict: &mut [u64],
    keys: &mut [u64],
    high: &mut [i64],
    low: &mut [i64],
) -> u64
    ensures number { let lent = tables keys.old high.old low.old in
        let short = run_short 5 verdict.old (symmetries_short out.old lent) in
        let v = symmetries_verdict short problem.now in
        result ≡ v.refusal.number }
    ensures verdict { let lent = tables keys.old high.old low.old in
        let short = run_short 5 verdict.old (symmetries_short out.old lent) in
        let v = symmetries_verdict short problem.now in
        verdict.new ≡ numbers_left (symmetries_numbers v) verdict.old }
    ensures bytes { let lent = tables keys.old high.old low.old in
        let short = run_short 5 verdict.old (symmetries_short out.old lent) in
        out.new ≡ masks_left short problem.now out.old }
    ensures tables { let lent = tables keys.old high.old low.old in
        let left = tables keys.new high.new low.new in
        let short = run_short 5 verdict.old (symmetries_short out.old lent) in
        TablesLeft short lent left }
    ensures zeros { RunZeros 5 result verdict.new }
{
    if verdict.len() < SYMMETRIES {
        return 1;
    }
    let v = sign_symmetries::symmetries(problem, out, keys, high, low);
    let numbers = verdict_writer::symmetries_numbers(v);
    verdict_writer::put_numbers(verdict, &numbers)
}

// The report on a week's pairs.
pub fn zamiachisel_report(
    records: &[u8],
    out: &mut [u8],
    verdict: &mut [u64],
    keys: &mut [u64],
    high: &mut [i64],
    low: &mut [i64],
) -> u64
    ensures number { let lent = tables keys.old high.old low.old in
        let short = run_short 9 verdict.old (tables_short lent) in
        let v = report_verdict (checked_records short records.now out.old) in
        result ≡ v.refusal.number }
    ensures verdict { let lent = tables keys.old high.old low.old in
        let short = run_short 9 verdict.old (tables_short lent) in
        let v = report_verdict (checked_records short records.now out.old) in
        verdict.new ≡ numbers_left (report_numbers v) verdict.old }
    ensures output { let lent = tables keys.old high.old low.old in
        let short = run_short 9 verdict.old (tables_short lent) in
        let o = checked_records short records.now out.old in
        out.new ≡ output_left o out.old }
    ensures tables { let lent = tables keys.old high.old low.old in
        let left = tables keys.new high.new low.new in
        let short = run_short 9 verdict.old (tables_short lent) in
        let o = checked_records short records.now out.old in
        TablesLeft (is_short o) lent left }
    ensures zeros { RunZeros 9 result verdict.new }
{
    if verdict.len() < REPORT {
        return 1;
    }
    let v = weekly_report::report(records, out, keys, high, low);
    let numbers = verdict_writer::report_numbers(v);
    verdict_writer::put_numbers(verdict, &numbers)
}

// How many records a week's input has, none where it is refused.
pub fn zamiachisel_record_count(records: &[u8]) -> u64
    ensures { result ≡ record_count (records_of records.now) }
{
    weekly_report::record_count(records) as u64
}

// Two problems over one region, with a pair for each.
pub fn zamiachisel_sum(
    problem1: &[u8],
    low1: &[u8],
    high1: &[u8],
    problem2: &[u8],
    low2: &[u8],
    high2: &[u8],
    verdict: &mut [u64],
    keys: &mut [u64],
    high: &mut [i64],
    low: &mut [i64],
) -> u64
    ensures number { let lent = tables keys.old high.old low.old in
        let short = run_short 10 verdict.old (tables_short lent) in
        let a = streams problem1.now low1.now high1.now in
        let b = streams problem2.now low2.now high2.now in
        let v = sum_verdict short a b in
        result ≡ v.refusal.number }
    ensures verdict { let lent = tables keys.old high.old low.old in
        let short = run_short 10 verdict.old (tables_short lent) in
        let a = streams problem1.now low1.now high1.now in
        let b = streams problem2.now low2.now high2.now in
        let v = sum_verdict short a b in
        verdict.new ≡ numbers_left (sum_numbers v) verdict.old }
    ensures tables { let lent = tables keys.old high.old low.old in
        let left = tables keys.new high.new low.new in
        let short = run_short 10 verdict.old (tables_short lent) in
        TablesLeft short lent left }
    ensures zeros { RunZeros 10 result verdict.new }
{
    if verdict.len() < SUM {
        return 1;
    }
    let v = added_bounds::sum(
        problem1, low1, high1, problem2, low2, high2, keys, high, low,
    );
    let numbers = verdict_writer::sum_numbers(v);
    verdict_writer::put_numbers(verdict, &numbers)
}

// The call on changes of the objective.
pub fn zamiachisel_moved_bound(
    problem: &[u8],
    certificate: &[u8],
    changes: &[u8],
    verdict: &mut [u64],
    keys: &mut [u64],
    high: &mut [i64],
    low: &mut [i64],
) -> u64
    ensures number { let lent = tables keys.old high.old low.old in
        let short = run_short 6 verdict.old (tables_short lent) in
        let s = problem.now in
        let v = adjusted_verdict short s certificate.now changes.now in
        result ≡ v.refusal.number }
    ensures verdict { let lent = tables keys.old high.old low.old in
        let short = run_short 6 verdict.old (tables_short lent) in
        let s = problem.now in
        let v = adjusted_verdict short s certificate.now changes.now in
        verdict.new ≡ numbers_left (adjusted_numbers v) verdict.old }
    ensures tables { let lent = tables keys.old high.old low.old in
        let left = tables keys.new high.new low.new in
        let short = run_short 6 verdict.old (tables_short lent) in
        TablesLeft short lent left }
    ensures zeros { RunZeros 6 result verdict.new }
{
    if verdict.len() < MOVED {
        return 1;
    }
    let v = adjusted_bound::moved_bound(problem, certificate, changes, keys, high, low);
    let numbers = verdict_writer::adjusted_numbers(v);
    verdict_writer::put_numbers(verdict, &numbers)
}

// The office's check.
pub fn zamiachisel_office(
    problem: &[u8],
    certificate: &[u8],
    buffer: &mut [u8],
    verdict: &mut [u64],
    keys: &mut [u64],
    high: &mut [i64],
    low: &mut [i64],
) -> u64
    ensures number { let lent = tables keys.old high.old low.old in
        let short = run_short 10 verdict.old (tables_short lent) in
        let t = certificate.now in
        let v = office_verdict short problem.now t (length buffer.old) in
        result ≡ v.check.refusal.number }
    ensures verdict { let lent = tables keys.old high.old low.old in
        let short = run_short 10 verdict.old (tables_short lent) in
        let t = certificate.now in
        let v = office_verdict short problem.now t (length buffer.old) in
        verdict.new ≡ numbers_left (office_numbers v) verdict.old }
    ensures buffer { let lent = tables keys.old high.old low.old in
        let short = run_short 10 verdict.old (tables_short lent) in
        let t = certificate.now in
        buffer.new ≡ buffer_left short problem.now t buffer.old }
    ensures tables { let lent = tables keys.old high.old low.old in
        let left = tables keys.new high.new low.new in
        let short = run_short 10 verdict.old (tables_short lent) in
        TablesLeft short lent left }
    ensures zeros { RunZeros 10 result verdict.new }
{
    if verdict.len() < OFFICE {
        return 1;
    }
    let v = office_check::office(problem, certificate, buffer, keys, high, low);
    let numbers = verdict_writer::office_numbers(v);
    verdict_writer::put_numbers(verdict, &numbers)
}

// A gap arrives at a window, whose state is lent as numbers (request 11).
pub fn zamiachisel_window_push(
    numerator: i64,
    denominator: u64,
    state: &mut [u64],
    verdict: &mut [u64],
) -> u64
    ensures number { let short = window_short verdict.old state.old in
        let v = window_verdict short state.old (fraction numerator denominator) in
        result ≡ v.refusal.number }
    ensures verdict { let short = window_short verdict.old state.old in
        let v = window_verdict short state.old (fraction numerator denominator) in
        verdict.new ≡ numbers_left (push_numbers v) verdict.old }
    ensures state { let short = window_short verdict.old state.old in
        state.new ≡ state_left short state.old (fraction numerator denominator) }
    ensures arrivals { let short = window_short verdict.old state.old in
        StateArrivals short state.old (fraction numerator denominator) state.new }
    ensures zeros { RunZeros 7 result verdict.new }
{
    if verdict.len() < WINDOW {
        return 1;
    }
    if state.len() < 65 {
        return 1;
    }
    let arrival = Fraction {
        num: numerator,
        den: denominator,
    };
    let v = window_state::push(state, arrival);
    let numbers = verdict_writer::push_numbers(v);
    verdict_writer::put_numbers(verdict, &numbers)
}

// The call for the bid tool (request 14): the pair's verdict as one record. The tables are the call's own. The number
// of the refusal comes back, or 0, or 1 where fewer than 32 bytes are lent.
pub fn zamiachisel_record(problem: &[u8], low: &[u8], high: &[u8], out: &mut [u8]) -> u64
    ensures number { let runs = three_runs problem.now low.now high.now in
        result ≡ tool_number out.old runs }
    ensures bytes { let runs = three_runs problem.now low.now high.now in
        out.new ≡ tool_bytes out.old runs }
    ensures told { let runs = three_runs problem.now low.now high.now in
        OneRecord out.old runs out.new result }
    ensures order { let runs = three_runs problem.now low.now high.now in
        AnyOrder out.old runs result }
    ensures zeros { ToolZeros out.old out.new }
    ensures under_one { let runs = three_runs problem.now low.now high.now in
        ToolKept UnderOne out.old runs out.new result }
    ensures at_larger { let runs = three_runs problem.now low.now high.now in
        ToolKept AtLarger out.old runs out.new result }
{
    if out.len() < 32 {
        return 1;
    }
    let mut keys = [0u64; 2048];
    let mut high_sums = [0i64; 2048];
    let mut low_sums = [0i64; 2048];
    let v = checker::pair(problem, low, high, &mut keys, &mut high_sums, &mut low_sums);
    record_writer::put_record(out, v);
    verdict_writer::number_of(v.refusal)
}

// A text at the start of `out`, where it fits; otherwise nothing is written. Its length comes back.
fn put_text(t: Text, out: &mut [u8]) -> u64
    ensures length { result ≡ length (text_of t) }
    ensures bytes { out.new ≡ text_left (text_of t) out.old }
{
    let bytes = t.bytes;
    let text = text::cut(&bytes, t.len);
    let length = text.len();
    if length <= out.len() {
        out[..length].copy_from_slice(text);
    }
    length as u64
}

// The lines that gapcheck writes for three streams, at the start of `out` where they fit; otherwise nothing is written.
// Their length comes back. The tables are the call's own.
pub fn zamiachisel_lines(problem: &[u8], low: &[u8], high: &[u8], out: &mut [u8]) -> u64
    ensures length { result ≡ length (answer_to problem.now low.now high.now) }
    ensures bytes { let text = answer_to problem.now low.now high.now in
        out.new ≡ text_left text out.old }
{
    let mut table = [0u64; 2048];
    let mut sums_high = [0i64; 2048];
    let mut sums_low = [0i64; 2048];
    let v = checker::pair(
        problem,
        low,
        high,
        &mut table,
        &mut sums_high,
        &mut sums_low,
    );
    put_text(text::pair_lines(v), out)
}
