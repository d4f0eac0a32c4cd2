// Request 12, two errors added: two problems over one region, with a pair for each. The public call is `sum`. Both
// pairs are the checker's own.
#![tactic(auto)]

ghost use Rattle.std.specs.Prelude.{◌≡◌, ◌≤◌};
ghost use Rattle.format.specs.ProblemRules.{read_problem};
ghost use Rattle.fractions.specs.Ranges.{Bound};
ghost use Rattle.calls.specs.Tables.{tables, tables_short, TablesLeft};
ghost use Rattle.calls.specs.Promises.{RuleUsed};
ghost use Rattle.calls.specs.Pair.{pair_verdict};
ghost use Rattle.calls.specs.AddedBounds.{same_region_read, refused_sum, accepted_sum, of_second, sum_second, sum_verdict};
ghost use Rattle.calls.specs.AddedBounds.{streams, SumNumbered, SumExactly, FifteenExactly, PairRefusals, HoldsBetween};
ghost use Rattle.calls.specs.AddedBounds.{SumKept};
ghost use Rattle.calls.specs.Rules.{UnderOne, AtLarger};
ghost use Rattle.calls.specs.Zeros.{SumZeros};
ghost use Rattle.calls.specs.RowOrder.{SumAnyOrder};

use calls::{PairVerdict, Refusal, RulesUsed, SumVerdict};
use certificate_judge::NO_REFUSAL;

fn refuse(refusal: Refusal) -> SumVerdict
    ensures { result ≡ refused_sum refusal }
{
    SumVerdict {
        refusal,
        lower: fractions::NONE,
        upper: fractions::NONE,
        rules: RulesUsed {
            first: 0,
            second: 0,
        },
    }
}

// A refusal of the second problem's pair, whose streams are 3 to 5.
fn of_second(f: Refusal) -> Refusal
    requires { f.stream ≤ 2 }
    ensures { result ≡ of_second f }
{
    Refusal {
        stream: f.stream + 3,
        ..f
    }
}

// The sums of the bounds of two pairs that are accepted.
fn add(v: PairVerdict, w: PairVerdict) -> SumVerdict
    requires { Bound v.lower × Bound v.upper × Bound w.lower × Bound w.upper }
    ensures { result ≡ accepted_sum v w }
{
    SumVerdict {
        refusal: NO_REFUSAL,
        lower: fractions::sum(v.lower, w.lower),
        upper: fractions::sum(v.upper, w.upper),
        rules: RulesUsed {
            first: v.rule,
            second: w.rule,
        },
    }
}

// The second pair and the regions, after the first pair was accepted with the verdict v.
fn sum_second(
    v: PairVerdict,
    problem1: &[u8],
    problem2: &[u8],
    low2: &[u8],
    high2: &[u8],
    keys: &mut [u64],
    high: &mut [i64],
    low: &mut [i64],
) -> SumVerdict
    requires { Bound v.lower × Bound v.upper }
    ensures verdict { let lent = tables keys.old high.old low.old in
        let second = problem2.now in
        let same = same_region_read (read_problem problem1.now) (read_problem second) in
        let w = pair_verdict (tables_short lent) second low2.now high2.now in
        result ≡ sum_second same v w }
    ensures tables { let lent = tables keys.old high.old low.old in
        let left = tables keys.new high.new low.new in
        TablesLeft (tables_short lent) lent left }
{
    let w = checker::pair(problem2, low2, high2, keys, high, low);
    if w.refusal.number > 0 {
        return refuse(of_second(w.refusal));
    }
    if !regions::is_same(problem1, problem2) {
        return refuse(certificate_judge::problem_refusal(15, 0));
    }
    add(v, w)
}

// Two problems over one region and a pair for each: the sum of the lower bounds and that of the upper bounds.
// `problem1`, `low1` and `high1` are the streams 0 to 2, and `problem2`, `low2` and `high2` the streams 3 to 5; `keys`,
// `high` and `low` are the work tables.
pub fn sum(
    problem1: &[u8],
    low1: &[u8],
    high1: &[u8],
    problem2: &[u8],
    low2: &[u8],
    high2: &[u8],
    keys: &mut [u64],
    high: &mut [i64],
    low: &mut [i64],
) -> SumVerdict
    ensures verdict { let lent = tables keys.old high.old low.old in
        let a = streams problem1.now low1.now high1.now in
        let b = streams problem2.now low2.now high2.now in
        result ≡ sum_verdict (tables_short lent) a b }
    ensures tables { let lent = tables keys.old high.old low.old in
        let left = tables keys.new high.new low.new in
        TablesLeft (tables_short lent) lent left }
    ensures numbered { SumNumbered result.refusal.number }
    ensures accepted { let lent = tables keys.old high.old low.old in
        let a = streams problem1.now low1.now high1.now in
        let b = streams problem2.now low2.now high2.now in
        SumExactly (tables_short lent) a b result }
    ensures fifteen { let lent = tables keys.old high.old low.old in
        let a = streams problem1.now low1.now high1.now in
        let b = streams problem2.now low2.now high2.now in
        FifteenExactly (tables_short lent) a b result.refusal }
    ensures pairs { let lent = tables keys.old high.old low.old in
        let a = streams problem1.now low1.now high1.now in
        let b = streams problem2.now low2.now high2.now in
        PairRefusals (tables_short lent) a b result.refusal }
    ensures between { let a = streams problem1.now low1.now high1.now in
        let b = streams problem2.now low2.now high2.now in
        HoldsBetween a b result }
    ensures first_rule { RuleUsed problem1.now result.refusal.number result.rules.first }
    ensures second_rule { RuleUsed problem2.now result.refusal.number result.rules.second }
    ensures zeros { SumZeros result }
    ensures under_one { let lent = tables keys.old high.old low.old in
        let a = streams problem1.now low1.now high1.now in
        let b = streams problem2.now low2.now high2.now in
        SumKept UnderOne (tables_short lent) a b result }
    ensures at_larger { let lent = tables keys.old high.old low.old in
        let a = streams problem1.now low1.now high1.now in
        let b = streams problem2.now low2.now high2.now in
        SumKept AtLarger (tables_short lent) a b result }
    ensures rows { let lent = tables keys.old high.old low.old in
        let a = streams problem1.now low1.now high1.now in
        let b = streams problem2.now low2.now high2.now in
        SumAnyOrder (tables_short lent) a b result }
{
    let v = checker::pair(problem1, low1, high1, keys, high, low);
    let f = v.refusal;
    if 0 < f.number {
        return refuse(f);
    }
    sum_second(v, problem1, problem2, low2, high2, keys, high, low)
}
