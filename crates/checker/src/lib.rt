// The public calls: the blocks of a problem, the check of one certificate and the pair of two. Each makes its verdict
// of what became of the problem and its certificates, which `problem_judge` finds.
#![tactic(auto)]

ghost use Rattle.std.specs.Prelude.{◌≡◌, false, ◌≤◌, length, drop};
ghost use Rattle.joining_rule.specs.Bytes.{block_byte_count};
ghost use Rattle.calls.specs.Tables.{table_length, tables, tables_short, TablesLeft};
ghost use Rattle.calls.specs.Refusals.{certificate_refusal};
ghost use Rattle.calls.specs.Blocks.{blocks_short, refused_blocks, blocks_verdict, bytes_left};
ghost use Rattle.calls.specs.Check.{refused_check, check_verdict};
ghost use Rattle.calls.specs.Pair.{refused_pair, pair_verdict};
ghost use Rattle.calls.specs.Promises.{NumberedTo, BlocksClosed, BlocksLeast, BlocksLowest, BlocksCounted, BlocksAfter};
ghost use Rattle.calls.specs.Promises.{RoundsTaken, FewRounds, SevenExactly, RuleUsed};
ghost use Rattle.calls.specs.Promises.{AcceptedExactly, CheckSplits, CheckDiffers, HoldsBySide};
ghost use Rattle.calls.specs.Promises.{PairExactly, PairDiffers, HoldsBelow, HoldsAbove, HoldsGap, NoPoints};
ghost use Rattle.calls.specs.Promises.{PairSplits, TenExactly, GapPushable};
ghost use Rattle.calls.specs.Zeros.{BlocksZeros, CheckZeros, TwoZeros, PairZeros};
ghost use Rattle.calls.specs.Rules.{BlocksUnderOne, CheckUnderOne, PairUnderOne};
ghost use Rattle.calls.specs.Rules.{BlocksAtLarger, CheckAtLarger, PairAtLarger};
ghost use Rattle.calls.specs.RowOrder.{CheckAnyOrder, PairAnyOrder};
ghost use Rattle.checker.specs.Verdicts.{outcome_of, check_from, pair_both, pair_from};

use calls::{BlocksVerdict, CheckVerdict, PairVerdict, Refusal, TwoChecks};
use certificate_judge::NO_REFUSAL;
use flat::RULE;
use format::certificate::Header;
use problem_judge::TwoJudged;

// All other fields are 0.
fn refuse_blocks(refusal: Refusal) -> BlocksVerdict
    ensures { result ≡ refused_blocks refusal }
{
    BlocksVerdict {
        refusal,
        blocks: 0,
        rounds: 0,
        rule: 0,
    }
}

// The blocks of a problem stream, with tables that are long enough. The problem stands in arrays of the call.
fn answer_blocks(problem: &[u8], out: &mut [u8], table: &mut [u64]) -> BlocksVerdict
    requires { (block_byte_count ≤ length out.old) × (table_length ≤ length table.old) }
    ensures { (result ≡ blocks_verdict false problem.now)
        × (out.new ≡ bytes_left false problem.now out.old)
        × (drop table_length table.new ≡ drop table_length table.old) }
{
    let mut keys = [0u64; 1120];
    let mut coefficients = [0i32; 544];
    let mut sizes = [0usize; 31];
    let mut labels = [255u8; 576];
    let mut index = [0u16; 6144];
    match problem_judge::prepare(
        problem,
        &mut keys,
        &mut coefficients,
        &mut sizes,
        &mut labels,
        table,
        &mut index,
    ) {
        Err(f) => refuse_blocks(f),
        Ok(j) => {
            out[..576].copy_from_slice(&labels);
            BlocksVerdict {
                refusal: NO_REFUSAL,
                blocks: j.blocks,
                rounds: j.rounds,
                rule: sizes[RULE],
            }
        }
    }
}

// The blocks of a problem. `out` gets the 576 block numbers; `keys`, `high` and `low` are the work tables.
pub fn blocks(
    problem: &[u8],
    out: &mut [u8],
    keys: &mut [u64],
    high: &mut [i64],
    low: &mut [i64],
) -> BlocksVerdict
    ensures verdict { let lent = tables keys.old high.old low.old in
        result ≡ blocks_verdict (blocks_short out.old lent) problem.now }
    ensures bytes { let lent = tables keys.old high.old low.old in
        let before = out.old in
        out.new ≡ bytes_left (blocks_short before lent) problem.now before }
    ensures tables { let lent = tables keys.old high.old low.old in
        let left = tables keys.new high.new low.new in
        TablesLeft (blocks_short out.old lent) lent left }
    ensures numbered { NumberedTo 7 result.refusal.number }
    ensures closed { BlocksClosed problem.now result.refusal.number out.new }
    ensures least { BlocksLeast problem.now result.refusal.number out.new }
    ensures lowest { BlocksLowest problem.now result.refusal.number out.new }
    ensures counted { BlocksCounted problem.now result.refusal.number out.new result.blocks }
    ensures rounds { RoundsTaken problem.now result.refusal.number result.rounds }
    ensures few_rounds { FewRounds problem.now result.refusal.number result.rounds }
    ensures seven { let lent = tables keys.old high.old low.old in
        SevenExactly (blocks_short out.old lent) problem.now result.refusal }
    ensures rule { RuleUsed problem.now result.refusal.number result.rule }
    ensures under_one { let lent = tables keys.old high.old low.old in
        let before = out.old in
        BlocksUnderOne (blocks_short before lent) problem.now before result.refusal.number
        out.new }
    ensures after { BlocksAfter problem.now result.refusal.number out.new result.rounds }
    ensures at_larger { let lent = tables keys.old high.old low.old in
        let before = out.old in
        BlocksAtLarger (blocks_short before lent) problem.now before result.refusal.number
        out.new }
    ensures zeros { BlocksZeros result }
{
    if out.len() < 576 {
        return refuse_blocks(certificate_judge::problem_refusal(1, 0));
    }
    if work_tables::is_short(keys.len(), high.len(), low.len()) {
        return refuse_blocks(certificate_judge::problem_refusal(1, 0));
    }
    let v = answer_blocks(problem, out, keys);
    work_tables::clear_tables(keys, high, low);
    v
}

fn refuse_check(refusal: Refusal) -> CheckVerdict
    ensures { result ≡ refused_check refusal }
{
    CheckVerdict {
        refusal,
        side: 0,
        bound: fractions::NONE,
        rounds: 0,
        rule: 0,
    }
}

// The verdict on one certificate.
fn check_one(judged: Result<Header, Refusal>, rounds: usize, rule: usize) -> CheckVerdict
    ensures { result ≡ check_from judged rounds rule }
{
    match judged {
        Ok(t) => CheckVerdict {
            refusal: NO_REFUSAL,
            side: t.side,
            bound: fractions::bound(t.p, t.q),
            rounds,
            rule,
        },
        Err(f) => refuse_check(f),
    }
}

// The check of two certificates for one problem, which is read and joined once: of each what `check` says of it alone.
pub fn check_two(
    problem: &[u8],
    first: &[u8],
    second: &[u8],
    keys: &mut [u64],
    high: &mut [i64],
    low: &mut [i64],
) -> TwoChecks
    ensures first { let lent = tables keys.old high.old low.old in
        result.first ≡ check_verdict (tables_short lent) problem.now first.now }
    ensures second { let lent = tables keys.old high.old low.old in
        result.second ≡ check_verdict (tables_short lent) problem.now second.now }
    ensures tables { let lent = tables keys.old high.old low.old in
        let left = tables keys.new high.new low.new in
        TablesLeft (tables_short lent) lent left }
    ensures zeros { TwoZeros result }
{
    let two = problem_judge::judge_two(1, problem, first, second, keys, high, low);
    TwoChecks {
        first: check_one(two.first, two.rounds, two.rule),
        second: check_one(two.second, two.rounds, two.rule),
    }
}

// Whether one certificate holds for a problem. `keys`, `high` and `low` are the work tables.
pub fn check(
    problem: &[u8],
    certificate: &[u8],
    keys: &mut [u64],
    high: &mut [i64],
    low: &mut [i64],
) -> CheckVerdict
    ensures verdict { let lent = tables keys.old high.old low.old in
        result ≡ check_verdict (tables_short lent) problem.now certificate.now }
    ensures tables { let lent = tables keys.old high.old low.old in
        let left = tables keys.new high.new low.new in
        TablesLeft (tables_short lent) lent left }
    ensures numbered { NumberedTo 9 result.refusal.number }
    ensures accepted { let lent = tables keys.old high.old low.old in
        AcceptedExactly (tables_short lent) problem.now certificate.now result }
    ensures differs { let lent = tables keys.old high.old low.old in
        CheckDiffers (tables_short lent) problem.now certificate.now result.refusal }
    ensures holds { HoldsBySide problem.now result }
    ensures rounds { RoundsTaken problem.now result.refusal.number result.rounds }
    ensures few_rounds { FewRounds problem.now result.refusal.number result.rounds }
    ensures rule { RuleUsed problem.now result.refusal.number result.rule }
    ensures under_one { let lent = tables keys.old high.old low.old in
        CheckUnderOne (tables_short lent) problem.now certificate.now result }
    ensures at_larger { let lent = tables keys.old high.old low.old in
        CheckAtLarger (tables_short lent) problem.now certificate.now result }
    ensures zeros { CheckZeros result }
    ensures seven { let lent = tables keys.old high.old low.old in
        SevenExactly (tables_short lent) problem.now result.refusal }
    ensures eight { let lent = tables keys.old high.old low.old in
        CheckSplits (tables_short lent) problem.now certificate.now result.refusal }
    ensures rows { let lent = tables keys.old high.old low.old in
        CheckAnyOrder (tables_short lent) problem.now certificate.now result }
{
    let two = check_two(problem, certificate, &certificate[..0], keys, high, low);
    two.first
}

fn refuse_pair(refusal: Refusal) -> PairVerdict
    ensures { result ≡ refused_pair refusal }
{
    PairVerdict {
        refusal,
        lower: fractions::NONE,
        upper: fractions::NONE,
        gap: fractions::NONE,
        empty: false,
        rounds: 0,
        rule: 0,
    }
}

// Refusal 10 of a certificate of a pair that is not of its side.
fn wrong_side(stream: u8) -> Refusal
    ensures { result ≡ certificate_refusal stream 10 0 0 }
{
    certificate_judge::certificate_refusal(stream, 10, 0, 0)
}

// The verdict on two certificates that are accepted, or the refusal of the first check that fails.
fn pair_sides(two: TwoJudged) -> Result<PairVerdict, Refusal>
    ensures { outcome_of result ≡ pair_both two.first two.second two.rounds two.rule }
{
    let lower = two.first?;
    let upper = two.second?;
    if lower.side != 0 {
        return Err(wrong_side(1));
    }
    if upper.side != 1 {
        return Err(wrong_side(2));
    }
    let a = fractions::bound(lower.p, lower.q);
    let b = fractions::bound(upper.p, upper.q);
    let gap = fractions::gap(a, b);
    Ok(PairVerdict {
        refusal: NO_REFUSAL,
        lower: a,
        upper: b,
        gap: fractions::unless_negative(gap),
        empty: fractions::is_negative(gap),
        rounds: two.rounds,
        rule: two.rule,
    })
}

// The verdict on a pair, by what became of both certificates.
fn pair_of(two: TwoJudged) -> PairVerdict
    ensures { result ≡ pair_from two }
{
    pair_sides(two).unwrap_or_else(refuse_pair)
}

// Whether two certificates hold for a problem: `first` of a lower bound and `second` of an upper one.
pub fn pair(
    problem: &[u8],
    first: &[u8],
    second: &[u8],
    keys: &mut [u64],
    high: &mut [i64],
    low: &mut [i64],
) -> PairVerdict
    ensures verdict { let lent = tables keys.old high.old low.old in
        result ≡ pair_verdict (tables_short lent) problem.now first.now second.now }
    ensures tables { let lent = tables keys.old high.old low.old in
        let left = tables keys.new high.new low.new in
        TablesLeft (tables_short lent) lent left }
    ensures numbered { NumberedTo 10 result.refusal.number }
    ensures accepted { let lent = tables keys.old high.old low.old in
        PairExactly (tables_short lent) problem.now first.now second.now result }
    ensures differs { let lent = tables keys.old high.old low.old in
        PairDiffers (tables_short lent) problem.now first.now second.now
        result.refusal }
    ensures below { HoldsBelow problem.now result.refusal.number result.lower }
    ensures above { HoldsAbove problem.now result.refusal.number result.upper }
    ensures gap { HoldsGap problem.now result.refusal.number result.empty result.gap }
    ensures empty { NoPoints problem.now result }
    ensures rounds { RoundsTaken problem.now result.refusal.number result.rounds }
    ensures few_rounds { FewRounds problem.now result.refusal.number result.rounds }
    ensures rule { RuleUsed problem.now result.refusal.number result.rule }
    ensures under_one { let lent = tables keys.old high.old low.old in
        PairUnderOne (tables_short lent) problem.now first.now second.now result }
    ensures at_larger { let lent = tables keys.old high.old low.old in
        PairAtLarger (tables_short lent) problem.now first.now second.now result }
    ensures zeros { PairZeros result }
    ensures seven { let lent = tables keys.old high.old low.old in
        SevenExactly (tables_short lent) problem.now result.refusal }
    ensures eight { let lent = tables keys.old high.old low.old in
        PairSplits (tables_short lent) problem.now first.now second.now
        result.refusal }
    ensures ten { let lent = tables keys.old high.old low.old in
        TenExactly (tables_short lent) problem.now first.now second.now
        result.refusal }
    ensures pushable { GapPushable result }
    ensures rows { let lent = tables keys.old high.old low.old in
        PairAnyOrder (tables_short lent) problem.now first.now second.now result }
{
    pair_of(problem_judge::judge_two(2, problem, first, second, keys, high, low))
}
