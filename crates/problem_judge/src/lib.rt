// The one chain from bytes to what became of a problem and its certificates: the problem is read and joined, two
// certificates are judged against it, and the lent tables are cleared. A call makes its verdict of what this returns.
#![tactic(auto)]

ghost use Rattle.std.specs.Prelude.{◌≡◌, false, ◌≤◌, length};
ghost use Rattle.format.specs.ProblemRules.{Problem};
ghost use Rattle.joining_rule.specs.Joining.{closing};
ghost use Rattle.calls.specs.Tables.{table_length, tables, tables_short, TablesLeft};
ghost use Rattle.flat.specs.Flat.{FlatZero};
ghost use Rattle.key_set.specs.Table.{Indexed};
ghost use Rattle.work_tables.specs.Tables.{Long, Rest};
ghost use Rattle.certificate_judge.specs.Steps.{LongSums, SumsRest};
ghost use Rattle.certificate_judge.specs.Bundles.{JoinedIn, JudgeableIn};
ghost use Rattle.problem_judge.specs.Chain.{PreparedLeft, both_refused, ends_with, two_of, two_judged};

use calls::Refusal;
use certificate_judge::Prepared;
use closure::Joined;
use flat::{Arrays, RULE};
use format::certificate::Header;
use identity_sums::Compared;

// What became of two certificates for one problem, with its rounds and its rule. Where the problem is refused, so is
// each certificate, and rounds and rule are 0.
#[derive(Clone, Copy)]
pub struct TwoJudged {
    pub first: Result<Header, Refusal>,
    pub second: Result<Header, Refusal>,
    pub rounds: usize,
    pub rule: usize,
}

// The problem by commands, and 7; or it stands in the arrays, which held zeros, with its blocks, and the compared keys
// are the first numbers of `table`, with `index`. The table is changed before place 2,048 only.
pub fn prepare(
    problem: &[u8],
    keys: &mut [u64; 1120],
    coefficients: &mut [i32; 544],
    sizes: &mut [usize; 31],
    labels: &mut [u8; 576],
    table: &mut [u64],
    index: &mut [u16; 6144],
) -> Result<Joined, Refusal>
    requires { FlatZero keys.old coefficients.old sizes.old
        × (table_length ≤ length table.old)
        × Indexed index.old table.old 0 }
    ensures { PreparedLeft problem.now result keys.new coefficients.new sizes.new
        labels.new table.old table.new index.new }
{
    if let Err(m) = problem_reader::read(problem, keys, coefficients, sizes) {
        return Err(certificate_judge::problem_refusal(u8::from(m.fault), m.place));
    }
    match closure::join(keys, sizes, labels, table, index) {
        Ok(j) => Ok(j),
        Err(_) => Err(certificate_judge::problem_refusal(7, 0)),
    }
}

// A refusal before a certificate is looked at is that of both.
fn both_refused(refusal: Refusal) -> TwoJudged
    ensures { result ≡ both_refused refusal }
{
    TwoJudged {
        first: Err(refusal),
        second: Err(refusal),
        rounds: 0,
        rule: 0,
    }
}

// Whether the first certificate ends the call. The second of a pair, stream 2, is looked at only where the first was
// accepted; one that stands by itself, stream 1, always is.
fn ends_with(stream: u8, first: Result<Header, Refusal>) -> bool
    ensures { result ≡ ends_with stream first }
{
    first.is_err() && stream == 2
}

// Two certificates against a problem with its blocks, which took so many rounds.
fn judge_both(
    stream: u8,
    first: &[u8],
    second: &[u8],
    prepared: Prepared,
    rounds: usize,
    high: &mut [i64],
    low: &mut [i64],
) -> TwoJudged
    requires { JudgeableIn prepared × LongSums high.old low.old }
    ensures judged { (p : Problem) → JoinedIn p prepared.entry → rounds ≡ (closing p).rounds
        → result ≡ two_of stream p first.now second.now }
    ensures rest { SumsRest high.old low.old high.new low.new }
{
    let rule = prepared.problem.sizes[RULE];
    let a = certificate_judge::judge(1, first, prepared, high, low);
    let b = if ends_with(stream, a) {
        a
    } else {
        certificate_judge::judge(stream, second, prepared, high, low)
    };
    TwoJudged {
        first: a,
        second: b,
        rounds,
        rule,
    }
}

// A problem stream and two certificates, with tables that are long enough. The problem stands in arrays of the call.
fn judge_streams(
    stream: u8,
    problem: &[u8],
    first: &[u8],
    second: &[u8],
    table: &mut [u64],
    high: &mut [i64],
    low: &mut [i64],
) -> TwoJudged
    requires { Long (tables table.old high.old low.old) }
    ensures { let lent = tables table.old high.old low.old in
        let left = tables table.new high.new low.new in
        (result ≡ two_judged stream false problem.now first.now second.now)
        × Rest lent left }
{
    let mut keys = [0u64; 1120];
    let mut coefficients = [0i32; 544];
    let mut sizes = [0usize; 31];
    let mut labels = [255u8; 576];
    let mut index = [0u16; 6144];
    match prepare(
        problem,
        &mut keys,
        &mut coefficients,
        &mut sizes,
        &mut labels,
        table,
        &mut index,
    ) {
        Err(f) => both_refused(f),
        Ok(j) => {
            let prepared = Prepared {
                problem: Arrays {
                    keys: &keys,
                    coefficients: &coefficients,
                    sizes: &sizes,
                },
                labels: &labels,
                keys: Compared {
                    table,
                    count: j.len,
                    index: &index,
                },
            };
            judge_both(stream, first, second, prepared, j.rounds, high, low)
        }
    }
}

// What becomes of two certificates for one problem, which is read and joined once: 1; the problem; the first
// certificate, as stream 1; the second, as `stream`.
pub fn judge_two(
    stream: u8,
    problem: &[u8],
    first: &[u8],
    second: &[u8],
    table: &mut [u64],
    high: &mut [i64],
    low: &mut [i64],
) -> TwoJudged
    ensures judged { let lent = tables table.old high.old low.old in
        result ≡ two_judged stream (tables_short lent) problem.now first.now second.now }
    ensures tables { let lent = tables table.old high.old low.old in
        let left = tables table.new high.new low.new in
        TablesLeft (tables_short lent) lent left }
{
    if work_tables::is_short(table.len(), high.len(), low.len()) {
        return both_refused(certificate_judge::problem_refusal(1, 0));
    }
    let two = judge_streams(stream, problem, first, second, table, high, low);
    work_tables::clear_tables(table, high, low);
    two
}
