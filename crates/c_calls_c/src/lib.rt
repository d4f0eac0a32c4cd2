// The C functions: each call of crates/c_calls under its own name, as C calls it. Each lent slice is a pointer and a
// length, and the clauses are those of the call. A crate is a library for other crates or an archive for C, not both, so
// the exports stand here and what they do stands there.
#![tactic(auto)]

ghost use Rattle.std.specs.Prelude.{◌≡◌, ◌<◌, length};
ghost use Rattle.calls.specs.Tables.{tables, tables_short, TablesLeft};
ghost use Rattle.calls.specs.Blocks.{blocks_short, blocks_verdict, bytes_left};
ghost use Rattle.calls.specs.Check.{check_verdict};
ghost use Rattle.calls.specs.Pair.{pair_verdict};
ghost use Rattle.calls.specs.Superseding.{superseding_verdict, stream_of, refusal_in};
ghost use Rattle.calls.specs.Symmetries.{symmetries_short, symmetries_verdict, masks_left};
ghost use Rattle.calls.specs.Report.{three_runs, checked_records, report_verdict, output_left, is_short};
ghost use Rattle.calls.specs.Report.{records_of, record_count};
ghost use Rattle.calls.specs.BidTool.{tool_number, tool_bytes, OneRecord, AnyOrder, ToolZeros, ToolKept};
ghost use Rattle.calls.specs.Rules.{UnderOne, AtLarger};
ghost use Rattle.calls.specs.Zeros.{RefusalZeros};
ghost use Rattle.calls.specs.Fractions.{fraction};
ghost use Rattle.calls.specs.AddedBounds.{streams, sum_verdict};
ghost use Rattle.calls.specs.Adjusted.{adjusted_verdict};
ghost use Rattle.calls.specs.Office.{office_verdict, buffer_left};
ghost use Rattle.verdict_numbers.specs.Numbers.{run_short, numbers_left, RunZeros};
ghost use Rattle.verdict_numbers.specs.Numbers.{blocks_numbers, check_numbers, pair_numbers, chosen_numbers};
ghost use Rattle.verdict_numbers.specs.Numbers.{two_checks, two_numbers};
ghost use Rattle.verdict_numbers.specs.Numbers.{symmetries_numbers, report_numbers, sum_numbers, adjusted_numbers};
ghost use Rattle.verdict_numbers.specs.Numbers.{office_numbers, push_numbers};
ghost use Rattle.verdict_numbers.specs.States.{window_short, window_verdict, state_left, StateArrivals};
ghost use Rattle.verdict_numbers.specs.Texts.{text_left};
ghost use Rattle.lines.specs.Answers.{answer_to};

// The blocks call.
// stack: see docs/measured/stack-bound.tsv
#[unsafe(no_mangle)]
pub extern "C" fn zamiachisel_blocks(
    problem: &[u8],
    out: &mut [u8],
    verdict: &mut [u64],
    keys: &mut [u64],
    high: &mut [i64],
    low: &mut [i64],
) -> u64
    ensures number { let lent = tables keys.old high.old low.old in
        let short = run_short 7 verdict.old (blocks_short out.old lent) in
        let v = blocks_verdict short problem.now in
        result ≡ v.refusal.number }
    ensures verdict { let lent = tables keys.old high.old low.old in
        let short = run_short 7 verdict.old (blocks_short out.old lent) in
        let v = blocks_verdict short problem.now in
        verdict.new ≡ numbers_left (blocks_numbers v) verdict.old }
    ensures bytes { let lent = tables keys.old high.old low.old in
        let short = run_short 7 verdict.old (blocks_short out.old lent) in
        out.new ≡ bytes_left short problem.now out.old }
    ensures tables { let lent = tables keys.old high.old low.old in
        let left = tables keys.new high.new low.new in
        let short = run_short 7 verdict.old (blocks_short out.old lent) in
        TablesLeft short lent left }
    ensures zeros { RunZeros 7 result verdict.new }
{
    c_calls::zamiachisel_blocks(problem, out, verdict, keys, high, low)
}

// The check.
// stack: see docs/measured/stack-bound.tsv
#[unsafe(no_mangle)]
pub extern "C" fn zamiachisel_check(
    problem: &[u8],
    certificate: &[u8],
    verdict: &mut [u64],
    keys: &mut [u64],
    high: &mut [i64],
    low: &mut [i64],
) -> u64
    ensures number { let lent = tables keys.old high.old low.old in
        let short = run_short 9 verdict.old (tables_short lent) in
        let v = check_verdict short problem.now certificate.now in
        result ≡ v.refusal.number }
    ensures verdict { let lent = tables keys.old high.old low.old in
        let short = run_short 9 verdict.old (tables_short lent) in
        let v = check_verdict short problem.now certificate.now in
        verdict.new ≡ numbers_left (check_numbers v) verdict.old }
    ensures tables { let lent = tables keys.old high.old low.old in
        let left = tables keys.new high.new low.new in
        let short = run_short 9 verdict.old (tables_short lent) in
        TablesLeft short lent left }
    ensures zeros { RunZeros 9 result verdict.new }
{
    c_calls::zamiachisel_check(problem, certificate, verdict, keys, high, low)
}

// The pair.
// stack: see docs/measured/stack-bound.tsv
#[unsafe(no_mangle)]
pub extern "C" fn zamiachisel_pair(
    problem: &[u8],
    first: &[u8],
    second: &[u8],
    verdict: &mut [u64],
    keys: &mut [u64],
    high: &mut [i64],
    low: &mut [i64],
) -> u64
    ensures number { let lent = tables keys.old high.old low.old in
        let short = run_short 13 verdict.old (tables_short lent) in
        let v = pair_verdict short problem.now first.now second.now in
        result ≡ v.refusal.number }
    ensures verdict { let lent = tables keys.old high.old low.old in
        let short = run_short 13 verdict.old (tables_short lent) in
        let v = pair_verdict short problem.now first.now second.now in
        verdict.new ≡ numbers_left (pair_numbers v) verdict.old }
    ensures tables { let lent = tables keys.old high.old low.old in
        let left = tables keys.new high.new low.new in
        let short = run_short 13 verdict.old (tables_short lent) in
        TablesLeft short lent left }
    ensures zeros { RunZeros 13 result verdict.new }
{
    c_calls::zamiachisel_pair(problem, first, second, verdict, keys, high, low)
}

// The check of two certificates for one problem, each as if it were alone. The number of the first one's refusal comes
// back.
// stack: see docs/measured/stack-bound.tsv
#[unsafe(no_mangle)]
pub extern "C" fn zamiachisel_check_two(
    problem: &[u8],
    first: &[u8],
    second: &[u8],
    verdict: &mut [u64],
    keys: &mut [u64],
    high: &mut [i64],
    low: &mut [i64],
) -> u64
    ensures number { let lent = tables keys.old high.old low.old in
        let short = run_short 18 verdict.old (tables_short lent) in
        let s = problem.now in
        let v = two_checks (check_verdict short s first.now) (check_verdict short s second.now) in
        result ≡ v.first.refusal.number }
    ensures verdict { let lent = tables keys.old high.old low.old in
        let short = run_short 18 verdict.old (tables_short lent) in
        let s = problem.now in
        let v = two_checks (check_verdict short s first.now) (check_verdict short s second.now) in
        verdict.new ≡ numbers_left (two_numbers v) verdict.old }
    ensures tables { let lent = tables keys.old high.old low.old in
        let left = tables keys.new high.new low.new in
        let short = run_short 18 verdict.old (tables_short lent) in
        TablesLeft short lent left }
{
    c_calls::zamiachisel_check_two(problem, first, second, verdict, keys, high, low)
}

// The call on two certificates for one problem (request 02): which one comes back, as the number of its stream.
// stack: see docs/measured/stack-bound.tsv
#[unsafe(no_mangle)]
pub extern "C" fn zamiachisel_choose(
    problem: &[u8],
    first: &[u8],
    second: &[u8],
    verdict: &mut [u64],
    keys: &mut [u64],
    high: &mut [i64],
    low: &mut [i64],
) -> u64
    ensures number { let lent = tables keys.old high.old low.old in
        let short = run_short 5 verdict.old (tables_short lent) in
        let s = problem.now in
        let v = superseding_verdict short s first.now second.now in
        result ≡ v.refusal.number }
    ensures verdict { let lent = tables keys.old high.old low.old in
        let short = run_short 5 verdict.old (tables_short lent) in
        let s = problem.now in
        let v = superseding_verdict short s first.now second.now in
        verdict.new ≡ numbers_left (chosen_numbers v) verdict.old }
    ensures tables { let lent = tables keys.old high.old low.old in
        let left = tables keys.new high.new low.new in
        let short = run_short 5 verdict.old (tables_short lent) in
        TablesLeft short lent left }
    ensures zeros { RunZeros 5 result verdict.new }
{
    c_calls::zamiachisel_choose(problem, first, second, verdict, keys, high, low)
}

// The same in the words of request 02, with four numbers lent singly. C gets no part of a run, so what comes back is the
// number of the stream that does, 1 for the first certificate and 2 for the second, and 0 for neither.
// stack: see docs/measured/stack-bound.tsv
#[unsafe(no_mangle)]
pub extern "C" fn zamiachisel_tighter(
    problem: &[u8],
    first: &[u8],
    second: &[u8],
    number: &mut u64,
    stream: &mut u64,
    place: &mut u64,
    key: &mut u64,
    keys: &mut [u64],
    high: &mut [i64],
    low: &mut [i64],
) -> u64
    ensures chosen { let lent = tables keys.old high.old low.old in
        let s = problem.now in
        let v = superseding_verdict (tables_short lent) s first.now second.now in
        result ≡ stream_of v.chosen }
    ensures numbers { let lent = tables keys.old high.old low.old in
        let s = problem.now in
        let v = superseding_verdict (tables_short lent) s first.now second.now in
        refusal_in number.new stream.new place.new key.new ≡ v.refusal }
    ensures tables { let lent = tables keys.old high.old low.old in
        let left = tables keys.new high.new low.new in
        TablesLeft (tables_short lent) lent left }
    ensures zeros { let f = refusal_in number.new stream.new place.new key.new in
        RefusalZeros f × (0 < f.number → result ≡ 0) }
{
    c_calls::zamiachisel_tighter(
        problem, first, second, number, stream, place, key, keys, high, low,
    )
}

// The symmetries call.
// stack: see docs/measured/stack-bound.tsv
#[unsafe(no_mangle)]
pub extern "C" fn zamiachisel_symmetries(
    problem: &[u8],
    out: &mut [u8],
    verdict: &mut [u64],
    keys: &mut [u64],
    high: &mut [i64],
    low: &mut [i64],
) -> u64
    ensures number { let lent = tables keys.old high.old low.old in
        let short = run_short 5 verdict.old (symmetries_short out.old lent) in
        let v = symmetries_verdict short problem.now in
        result ≡ v.refusal.number }
    ensures verdict { let lent = tables keys.old high.old low.old in
        let short = run_short 5 verdict.old (symmetries_short out.old lent) in
        let v = symmetries_verdict short problem.now in
        verdict.new ≡ numbers_left (symmetries_numbers v) verdict.old }
    ensures bytes { let lent = tables keys.old high.old low.old in
        let short = run_short 5 verdict.old (symmetries_short out.old lent) in
        out.new ≡ masks_left short problem.now out.old }
    ensures tables { let lent = tables keys.old high.old low.old in
        let left = tables keys.new high.new low.new in
        let short = run_short 5 verdict.old (symmetries_short out.old lent) in
        TablesLeft short lent left }
    ensures zeros { RunZeros 5 result verdict.new }
{
    c_calls::zamiachisel_symmetries(problem, out, verdict, keys, high, low)
}

// The report on a week's pairs.
// stack: see docs/measured/stack-bound.tsv
#[unsafe(no_mangle)]
pub extern "C" fn zamiachisel_report(
    records: &[u8],
    out: &mut [u8],
    verdict: &mut [u64],
    keys: &mut [u64],
    high: &mut [i64],
    low: &mut [i64],
) -> u64
    ensures number { let lent = tables keys.old high.old low.old in
        let short = run_short 9 verdict.old (tables_short lent) in
        let v = report_verdict (checked_records short records.now out.old) in
        result ≡ v.refusal.number }
    ensures verdict { let lent = tables keys.old high.old low.old in
        let short = run_short 9 verdict.old (tables_short lent) in
        let v = report_verdict (checked_records short records.now out.old) in
        verdict.new ≡ numbers_left (report_numbers v) verdict.old }
    ensures output { let lent = tables keys.old high.old low.old in
        let short = run_short 9 verdict.old (tables_short lent) in
        let o = checked_records short records.now out.old in
        out.new ≡ output_left o out.old }
    ensures tables { let lent = tables keys.old high.old low.old in
        let left = tables keys.new high.new low.new in
        let short = run_short 9 verdict.old (tables_short lent) in
        let o = checked_records short records.now out.old in
        TablesLeft (is_short o) lent left }
    ensures zeros { RunZeros 9 result verdict.new }
{
    c_calls::zamiachisel_report(records, out, verdict, keys, high, low)
}

// How many records a week's input has, none where it is refused.
// stack: see docs/measured/stack-bound.tsv
#[unsafe(no_mangle)]
pub extern "C" fn zamiachisel_record_count(records: &[u8]) -> u64
    ensures { result ≡ record_count (records_of records.now) }
{
    c_calls::zamiachisel_record_count(records)
}

// Two problems over one region, with a pair for each.
// stack: see docs/measured/stack-bound.tsv
#[unsafe(no_mangle)]
pub extern "C" fn zamiachisel_sum(
    problem1: &[u8],
    low1: &[u8],
    high1: &[u8],
    problem2: &[u8],
    low2: &[u8],
    high2: &[u8],
    verdict: &mut [u64],
    keys: &mut [u64],
    high: &mut [i64],
    low: &mut [i64],
) -> u64
    ensures number { let lent = tables keys.old high.old low.old in
        let short = run_short 10 verdict.old (tables_short lent) in
        let a = streams problem1.now low1.now high1.now in
        let b = streams problem2.now low2.now high2.now in
        let v = sum_verdict short a b in
        result ≡ v.refusal.number }
    ensures verdict { let lent = tables keys.old high.old low.old in
        let short = run_short 10 verdict.old (tables_short lent) in
        let a = streams problem1.now low1.now high1.now in
        let b = streams problem2.now low2.now high2.now in
        let v = sum_verdict short a b in
        verdict.new ≡ numbers_left (sum_numbers v) verdict.old }
    ensures tables { let lent = tables keys.old high.old low.old in
        let left = tables keys.new high.new low.new in
        let short = run_short 10 verdict.old (tables_short lent) in
        TablesLeft short lent left }
    ensures zeros { RunZeros 10 result verdict.new }
{
    c_calls::zamiachisel_sum(
        problem1, low1, high1, problem2, low2, high2, verdict, keys, high, low,
    )
}

// The call on changes of the objective.
// stack: see docs/measured/stack-bound.tsv
#[unsafe(no_mangle)]
pub extern "C" fn zamiachisel_moved_bound(
    problem: &[u8],
    certificate: &[u8],
    changes: &[u8],
    verdict: &mut [u64],
    keys: &mut [u64],
    high: &mut [i64],
    low: &mut [i64],
) -> u64
    ensures number { let lent = tables keys.old high.old low.old in
        let short = run_short 6 verdict.old (tables_short lent) in
        let s = problem.now in
        let v = adjusted_verdict short s certificate.now changes.now in
        result ≡ v.refusal.number }
    ensures verdict { let lent = tables keys.old high.old low.old in
        let short = run_short 6 verdict.old (tables_short lent) in
        let s = problem.now in
        let v = adjusted_verdict short s certificate.now changes.now in
        verdict.new ≡ numbers_left (adjusted_numbers v) verdict.old }
    ensures tables { let lent = tables keys.old high.old low.old in
        let left = tables keys.new high.new low.new in
        let short = run_short 6 verdict.old (tables_short lent) in
        TablesLeft short lent left }
    ensures zeros { RunZeros 6 result verdict.new }
{
    c_calls::zamiachisel_moved_bound(problem, certificate, changes, verdict, keys, high, low)
}

// The office's check.
// stack: see docs/measured/stack-bound.tsv
#[unsafe(no_mangle)]
pub extern "C" fn zamiachisel_office(
    problem: &[u8],
    certificate: &[u8],
    buffer: &mut [u8],
    verdict: &mut [u64],
    keys: &mut [u64],
    high: &mut [i64],
    low: &mut [i64],
) -> u64
    ensures number { let lent = tables keys.old high.old low.old in
        let short = run_short 10 verdict.old (tables_short lent) in
        let t = certificate.now in
        let v = office_verdict short problem.now t (length buffer.old) in
        result ≡ v.check.refusal.number }
    ensures verdict { let lent = tables keys.old high.old low.old in
        let short = run_short 10 verdict.old (tables_short lent) in
        let t = certificate.now in
        let v = office_verdict short problem.now t (length buffer.old) in
        verdict.new ≡ numbers_left (office_numbers v) verdict.old }
    ensures buffer { let lent = tables keys.old high.old low.old in
        let short = run_short 10 verdict.old (tables_short lent) in
        let t = certificate.now in
        buffer.new ≡ buffer_left short problem.now t buffer.old }
    ensures tables { let lent = tables keys.old high.old low.old in
        let left = tables keys.new high.new low.new in
        let short = run_short 10 verdict.old (tables_short lent) in
        TablesLeft short lent left }
    ensures zeros { RunZeros 10 result verdict.new }
{
    c_calls::zamiachisel_office(problem, certificate, buffer, verdict, keys, high, low)
}

// A gap arrives at a window, whose state is lent as numbers (request 11).
// stack: see docs/measured/stack-bound.tsv
#[unsafe(no_mangle)]
pub extern "C" fn zamiachisel_window_push(
    numerator: i64,
    denominator: u64,
    state: &mut [u64],
    verdict: &mut [u64],
) -> u64
    ensures number { let short = window_short verdict.old state.old in
        let v = window_verdict short state.old (fraction numerator denominator) in
        result ≡ v.refusal.number }
    ensures verdict { let short = window_short verdict.old state.old in
        let v = window_verdict short state.old (fraction numerator denominator) in
        verdict.new ≡ numbers_left (push_numbers v) verdict.old }
    ensures state { let short = window_short verdict.old state.old in
        state.new ≡ state_left short state.old (fraction numerator denominator) }
    ensures arrivals { let short = window_short verdict.old state.old in
        StateArrivals short state.old (fraction numerator denominator) state.new }
    ensures zeros { RunZeros 7 result verdict.new }
{
    c_calls::zamiachisel_window_push(numerator, denominator, state, verdict)
}

// The call for the bid tool (request 14): the pair's verdict as one record. The tables are the call's own. The number
// of the refusal comes back, or 0, or 1 where fewer than 32 bytes are lent.
// stack: see docs/measured/stack-bound.tsv
#[unsafe(no_mangle)]
pub extern "C" fn zamiachisel_record(problem: &[u8], low: &[u8], high: &[u8], out: &mut [u8]) -> u64
    ensures number { let runs = three_runs problem.now low.now high.now in
        result ≡ tool_number out.old runs }
    ensures bytes { let runs = three_runs problem.now low.now high.now in
        out.new ≡ tool_bytes out.old runs }
    ensures told { let runs = three_runs problem.now low.now high.now in
        OneRecord out.old runs out.new result }
    ensures order { let runs = three_runs problem.now low.now high.now in
        AnyOrder out.old runs result }
    ensures zeros { ToolZeros out.old out.new }
    ensures under_one { let runs = three_runs problem.now low.now high.now in
        ToolKept UnderOne out.old runs out.new result }
    ensures at_larger { let runs = three_runs problem.now low.now high.now in
        ToolKept AtLarger out.old runs out.new result }
{
    c_calls::zamiachisel_record(problem, low, high, out)
}

// The lines that gapcheck writes for three streams, at the start of `out` where they fit; otherwise nothing is written.
// Their length comes back. The tables are the call's own.
// stack: see docs/measured/stack-bound.tsv
#[unsafe(no_mangle)]
pub extern "C" fn zamiachisel_lines(problem: &[u8], low: &[u8], high: &[u8], out: &mut [u8]) -> u64
    ensures length { result ≡ length (answer_to problem.now low.now high.now) }
    ensures bytes { let text = answer_to problem.now low.now high.now in
        out.new ≡ text_left text out.old }
{
    c_calls::zamiachisel_lines(problem, low, high, out)
}
