// A verdict as a run of 64-bit numbers: the numbers of each kind of verdict, in an array of their own, and what a lent
// run is left with.
#![tactic(auto)]

ghost use Rattle.std.specs.Prelude.{◌≡◌, ◌≤◌, ◌<◌, length, get_or};
ghost use Rattle.verdict_numbers.specs.Numbers.{blocks_numbers, check_numbers, pair_numbers, two_numbers};
ghost use Rattle.verdict_numbers.specs.Numbers.{symmetries_numbers, report_numbers, office_numbers};
ghost use Rattle.verdict_numbers.specs.Numbers.{push_numbers, sum_numbers, adjusted_numbers, numbers_left};
ghost use Rattle.calls.specs.Report.{unsigned};
ghost use Rattle.calls.specs.Superseding.{stream_of};

use calls::{
    AdjustedVerdict, BlocksVerdict, CheckVerdict, Chosen, Fraction, OfficeVerdict, PairVerdict,
    Refusal, ReportVerdict, SumVerdict, SymmetriesVerdict, TwoChecks, WindowVerdict,
};

// The numerator of a fraction as the 64 bits that stand for it.
fn numerator(f: Fraction) -> u64
    ensures { result ≡ unsigned 63 f.num }
{
    record_writer::bits(f.num)
}

// The number of a refusal, 0 where nothing is refused, as C programs get it.
pub fn number_of(r: Refusal) -> u64
    ensures { result ≡ r.number }
{
    u64::from(r.number)
}

// The stream of the certificate that comes back, 0 for neither.
pub fn stream_of(chosen: Chosen) -> u64
    ensures { result ≡ stream_of chosen }
{
    match chosen {
        Chosen::First => 1,
        Chosen::Second => 2,
        Chosen::Neither => 0,
    }
}

#[tactic(auto, unfolding(verdict_numbers::specs::Numbers::blocks_numbers))]
pub fn blocks_numbers(v: BlocksVerdict) -> [u64; 7]
    ensures { result ≡ blocks_numbers v }
{
    let f = v.refusal;
    [
        u64::from(f.number),
        u64::from(f.stream),
        f.place as u64,
        f.key,
        v.blocks as u64,
        v.rounds as u64,
        v.rule as u64,
    ]
}

#[tactic(auto, unfolding(verdict_numbers::specs::Numbers::check_numbers))]
pub fn check_numbers(v: CheckVerdict) -> [u64; 9]
    ensures { result ≡ check_numbers v }
{
    let f = v.refusal;
    [
        u64::from(f.number),
        u64::from(f.stream),
        f.place as u64,
        f.key,
        v.side as u64,
        numerator(v.bound),
        v.bound.den,
        v.rounds as u64,
        v.rule as u64,
    ]
}

#[tactic(auto, unfolding(verdict_numbers::specs::Numbers::pair_numbers))]
pub fn pair_numbers(v: PairVerdict) -> [u64; 13]
    ensures { result ≡ pair_numbers v }
{
    let f = v.refusal;
    [
        u64::from(f.number),
        u64::from(f.stream),
        f.place as u64,
        f.key,
        numerator(v.lower),
        v.lower.den,
        numerator(v.upper),
        v.upper.den,
        numerator(v.gap),
        v.gap.den,
        u64::from(v.empty),
        v.rounds as u64,
        v.rule as u64,
    ]
}

// Two verdicts of the check, one after the other.
pub fn two_numbers(v: TwoChecks) -> [u64; 18]
    ensures { result ≡ two_numbers v }
{
    let mut numbers = [0; 18];
    numbers[..9].copy_from_slice(&check_numbers(v.first));
    numbers[9..].copy_from_slice(&check_numbers(v.second));
    numbers
}

#[tactic(auto, unfolding(verdict_numbers::specs::Numbers::symmetries_numbers))]
pub fn symmetries_numbers(v: SymmetriesVerdict) -> [u64; 5]
    ensures { result ≡ symmetries_numbers v }
{
    let f = v.refusal;
    [
        u64::from(f.number),
        u64::from(f.stream),
        f.place as u64,
        f.key,
        v.masks as u64,
    ]
}

#[tactic(auto, unfolding(verdict_numbers::specs::Numbers::report_numbers))]
pub fn report_numbers(v: ReportVerdict) -> [u64; 9]
    ensures { result ≡ report_numbers v }
{
    let f = v.refusal;
    [
        u64::from(f.number),
        u64::from(f.stream),
        f.place as u64,
        f.key,
        v.accepted as u64,
        numerator(v.lower),
        v.lower.den,
        numerator(v.upper),
        v.upper.den,
    ]
}

// The check's numbers, and the number of notes.
pub fn office_numbers(v: OfficeVerdict) -> [u64; 10]
    ensures { result ≡ office_numbers v }
{
    let mut numbers = [0; 10];
    numbers[..9].copy_from_slice(&check_numbers(v.check));
    numbers[9] = v.notes as u64;
    numbers
}

#[tactic(auto, unfolding(verdict_numbers::specs::Numbers::push_numbers))]
pub fn push_numbers(v: WindowVerdict) -> [u64; 7]
    ensures { result ≡ push_numbers v }
{
    let f = v.refusal;
    [
        u64::from(f.number),
        u64::from(f.stream),
        f.place as u64,
        f.key,
        numerator(v.widest),
        v.widest.den,
        v.age as u64,
    ]
}

#[tactic(auto, unfolding(verdict_numbers::specs::Numbers::sum_numbers))]
pub fn sum_numbers(v: SumVerdict) -> [u64; 10]
    ensures { result ≡ sum_numbers v }
{
    let f = v.refusal;
    [
        u64::from(f.number),
        u64::from(f.stream),
        f.place as u64,
        f.key,
        numerator(v.lower),
        v.lower.den,
        numerator(v.upper),
        v.upper.den,
        v.rules.first as u64,
        v.rules.second as u64,
    ]
}

#[tactic(auto, unfolding(verdict_numbers::specs::Numbers::adjusted_numbers))]
pub fn adjusted_numbers(v: AdjustedVerdict) -> [u64; 6]
    ensures { result ≡ adjusted_numbers v }
{
    let f = v.refusal;
    let bound = v.bound;
    [
        u64::from(f.number),
        u64::from(f.stream),
        f.place as u64,
        f.key,
        numerator(bound),
        bound.den,
    ]
}

// The numbers of a verdict at the start of the run that is lent, unless its refusal is 1; what is past them stays. The
// number of the refusal comes back.
#[tactic(auto, unfolding(verdict_numbers::specs::Numbers::numbers_left))]
pub fn put_numbers(run: &mut [u64], numbers: &[u64]) -> u64
    requires { (0 < length numbers.now) × (length numbers.now ≤ length run.old) }
    ensures number { result ≡ get_or numbers.now 0 0 }
    ensures run { run.new ≡ numbers_left numbers.now run.old }
{
    let number = numbers[0];
    if number != 1 {
        run[..numbers.len()].copy_from_slice(numbers);
    }
    number
}
