// What the public calls share: one certificate that is judged against a problem with its blocks.
#![tactic(auto)]

ghost use Rattle.std.specs.Prelude.{◌≡◌};
ghost use Rattle.format.specs.ProblemRules.{Problem};
ghost use Rattle.accepting.specs.Judgement as J;
ghost use Rattle.calls.specs.Refusals.{problem_refusal, certificate_refusal};
ghost use Rattle.key_set.specs.Table.{Holds, Indexed};
ghost use Rattle.identity_rows.specs.Bundles.{ComparableIn};
ghost use Rattle.identity_check.specs.Bundles.{AnsweredFor};
ghost use Rattle.certificate_judge.specs.Steps.{LongSums, SumsRest};
ghost use Rattle.certificate_judge.specs.Bundles.{JoinedIn, JudgeableIn};
ghost use Rattle.certificate_judge.specs.Steps.{judged_of, judged_from};

use calls::Refusal;
use certificate_rows::Rows;
use flat::Arrays;
use format::certificate::Header;
use identity_sums::Compared;

// Where nothing is refused: number 0, and the other fields are 0.
pub const NO_REFUSAL: Refusal = Refusal {
    number: 0,
    stream: 0,
    place: 0,
    key: 0,
};

// A refusal of the problem, which is stream 0. Only refusal 9 has a key, and it is a certificate's.
pub fn problem_refusal(number: u8, place: usize) -> Refusal
    ensures { result ≡ problem_refusal number place }
{
    certificate_refusal(0, number, place, 0)
}

// A refusal of a certificate, which is stream 1 or 2.
pub fn certificate_refusal(stream: u8, number: u8, place: usize, key: u64) -> Refusal
    ensures { result ≡ certificate_refusal stream number place key }
{
    Refusal {
        number,
        stream,
        place,
        key,
    }
}

// A certificate whose rows keep to the blocks, by its identity: the key at which the sides differ, if they do.
fn by_identity(stream: u8, header: Header, found: Option<u64>) -> Result<Header, Refusal>
    ensures { result ≡ judged_from stream header found }
{
    match found {
        Some(key) => Err(certificate_refusal(stream, 9, 0, key)),
        None => Ok(header),
    }
}

// The sums at the compared keys set to 0, and the identity of a certificate whose rows keep to the blocks looked at.
fn difference(
    rows: Rows,
    header: Header,
    problem: Arrays,
    keys: Compared,
    high: &mut [i64],
    low: &mut [i64],
) -> Option<u64>
    requires { (Holds keys.table.now keys.count × Indexed keys.index.now keys.table.now keys.count)
        × ComparableIn rows problem
        × LongSums high.old low.old }
    ensures { AnsweredFor rows.entry header problem.entry keys.entry result
        high.old low.old high.new low.new }
{
    high[..keys.count].fill(0);
    low[..keys.count].fill(0);
    identity_check::compare(rows, header, problem, keys, high, low)
}

// A problem that was read and joined: it stands in its arrays, byte 64j + i of `labels` is the block number of index i in
// basis j, and the compared keys are those that were counted.
#[derive(Clone, Copy)]
pub struct Prepared<'a> {
    pub problem: Arrays<'a>,
    pub labels: &'a [u8],
    pub keys: Compared<'a>,
}

// What becomes of one certificate against a problem with its blocks: it by commands, 8 by rows, 9; or it is accepted,
// and what its first command states. The sums at the compared keys are kept in `high` and `low`, before place 2,048 only.
pub fn judge(
    stream: u8,
    s: &[u8],
    prepared: Prepared,
    high: &mut [i64],
    low: &mut [i64],
) -> Result<Header, Refusal>
    requires { JudgeableIn prepared × LongSums high.old low.old }
    ensures judgement { (p : Problem) → JoinedIn p prepared.entry → result ≡ judged_of stream (J.judge p s.now) }
    ensures rest { SumsRest high.old low.old high.new low.new }
{
    let mut starts = [0usize; 129];
    // A `match`, as what a closure of `map_err` ensures reads long at the `Err`.
    let r = match certificate_reader::validate(prepared.problem.sizes, s, &mut starts) {
        Ok(r) => r,
        Err(m) => return Err(certificate_refusal(stream, u8::from(m.fault), m.place, 0)),
    };
    let rows = Rows {
        stream: s,
        starts: &starts,
        count: r.rows,
    };
    if let Some(place) = row_blocks::split_place(rows, prepared.labels) {
        return Err(certificate_refusal(stream, 8, place, 0));
    }
    let found = difference(rows, r.header, prepared.problem, prepared.keys, high, low);
    by_identity(stream, r.header, found)
}
