// Request 02, the certificate that supersedes: of two certificates for one problem the tighter one comes back. What to
// do is decided on plain values first; then four lent numbers are set, and the part is chosen.
#![tactic(auto)]

ghost use Rattle.std.specs.Prelude.{◌≡◌};
ghost use Rattle.calls.specs.declared.Chosen.TheVariants as Chosen;
ghost use Rattle.calls.specs.Tables.{tables, tables_short, TablesLeft};
ghost use Rattle.calls.specs.Rules.{UnderOne, AtLarger};
ghost use Rattle.calls.specs.RowOrder.{SupersedingAnyOrder};
ghost use Rattle.calls.specs.Superseding.{is_tighter, comes_back, none_back, tighter_of, superseding_of, superseding_verdict};
ghost use Rattle.calls.specs.Superseding.{part_of, refusal_in};
ghost use Rattle.calls.specs.Superseding.{SupersedingNumbered, ZeroExactly, ChosenZeros, PartZeros, HoldsBack};
ghost use Rattle.calls.specs.Superseding.{TighterBack, AloneBack, FirstRefusal, ElevenExactly, TighterKept};

use calls::{CheckVerdict, Chosen, Fraction, Refusal, SupersedingVerdict};
use certificate_judge::NO_REFUSAL;

// Whether a bound is tighter than another of the same side: the larger lower bound or the smaller upper bound.
#[tactic(auto, unfolding(calls::specs::Superseding::is_tighter))]
fn is_tighter(side: usize, f: Fraction, g: Fraction) -> bool
    ensures { result ≡ is_tighter side f g }
{
    if side == 0 {
        fractions::less(g, f)
    } else {
        fractions::less(f, g)
    }
}

// A certificate comes back.
fn comes_back(chosen: Chosen) -> SupersedingVerdict
    ensures { result ≡ comes_back chosen }
{
    SupersedingVerdict {
        refusal: NO_REFUSAL,
        chosen,
    }
}

// None does, with a refusal.
fn none_back(refusal: Refusal) -> SupersedingVerdict
    ensures { result ≡ none_back refusal }
{
    SupersedingVerdict {
        refusal,
        chosen: Chosen::Neither,
    }
}

// Two that are accepted: the tighter one, the first when equal; or refusal 11.
#[tactic(auto, unfolding(calls::specs::Superseding::tighter_of))]
fn tighter_of(a: CheckVerdict, b: CheckVerdict) -> SupersedingVerdict
    ensures { result ≡ tighter_of a b }
{
    if a.side != b.side {
        return none_back(certificate_judge::certificate_refusal(2, 11, 0, 0));
    }
    let second = is_tighter(a.side, b.bound, a.bound);
    comes_back(if second {
        Chosen::Second
    } else {
        Chosen::First
    })
}

// What becomes of two certificates, by what the check says of each.
#[tactic(auto, unfolding(calls::specs::Superseding::superseding_of))]
fn decide(a: CheckVerdict, b: CheckVerdict) -> SupersedingVerdict
    ensures { result ≡ superseding_of a b }
{
    match (a.refusal.number, b.refusal.number) {
        (0, 0) => tighter_of(a, b),
        (0, _) => comes_back(Chosen::First),
        (_, 0) => comes_back(Chosen::Second),
        _ => none_back(a.refusal),
    }
}

// Which of two certificates for one problem comes back. The four numbers receive the refusal; `keys`, `high` and `low`
// are the work tables.
pub fn choose(
    problem: &[u8],
    first: &[u8],
    second: &[u8],
    number: &mut u64,
    stream: &mut u64,
    place: &mut u64,
    key: &mut u64,
    keys: &mut [u64],
    high: &mut [i64],
    low: &mut [i64],
) -> Chosen
    ensures chosen { let lent = tables keys.old high.old low.old in
        let s = problem.now in
        let v = superseding_verdict (tables_short lent) s first.now second.now in
        result ≡ v.chosen }
    ensures numbers { let lent = tables keys.old high.old low.old in
        let s = problem.now in
        let v = superseding_verdict (tables_short lent) s first.now second.now in
        refusal_in number.new stream.new place.new key.new ≡ v.refusal }
    ensures tables { let lent = tables keys.old high.old low.old in
        let left = tables keys.new high.new low.new in
        TablesLeft (tables_short lent) lent left }
    ensures zeros { let f = refusal_in number.new stream.new place.new key.new in
        ChosenZeros f result }
{
    let two = checker::check_two(problem, first, second, keys, high, low);
    let v = decide(two.first, two.second);
    let f = v.refusal;
    *number = f.number as u64;
    *stream = f.stream as u64;
    *place = f.place as u64;
    *key = f.key;
    v.chosen
}

// Of two certificates for one problem the tighter one, or an empty part of the first: what is lent comes back, and
// nothing is copied. The four numbers and the tables are as in `choose`.
pub fn tighter<'a>(
    problem: &[u8],
    first: &'a [u8],
    second: &'a [u8],
    number: &mut u64,
    stream: &mut u64,
    place: &mut u64,
    key: &mut u64,
    keys: &mut [u64],
    high: &mut [i64],
    low: &mut [i64],
) -> &'a [u8]
    ensures part { let lent = tables keys.old high.old low.old in
        let s = problem.now in
        let v = superseding_verdict (tables_short lent) s first.now second.now in
        result.now ≡ part_of v.chosen first.now second.now }
    ensures lent { let lent = tables keys.old high.old low.old in
        let s = problem.now in
        let v = superseding_verdict (tables_short lent) s first.now second.now in
        (v.chosen ≡ Chosen.First → result ≡ first.entry) × (v.chosen ≡ Chosen.Second → result ≡ second.entry)
        × (v.chosen ≡ Chosen.Neither → result.ref_ptr ≡ first.entry.ref_ptr) }
    ensures numbers { let lent = tables keys.old high.old low.old in
        let s = problem.now in
        let v = superseding_verdict (tables_short lent) s first.now second.now in
        refusal_in number.new stream.new place.new key.new ≡ v.refusal }
    ensures tables { let lent = tables keys.old high.old low.old in
        let left = tables keys.new high.new low.new in
        TablesLeft (tables_short lent) lent left }
    ensures numbered { SupersedingNumbered number.new }
    ensures zero { let f = refusal_in number.new stream.new place.new key.new in
        ZeroExactly result.now f }
    ensures holds { HoldsBack problem.now result.now }
    ensures tighter { let lent = tables keys.old high.old low.old in
        TighterBack (tables_short lent) problem.now first.now second.now result.now }
    ensures alone { let lent = tables keys.old high.old low.old in
        AloneBack (tables_short lent) problem.now first.now second.now result.now }
    ensures neither { let lent = tables keys.old high.old low.old in
        let f = refusal_in number.new stream.new place.new key.new in
        FirstRefusal (tables_short lent) problem.now first.now f }
    ensures eleven { let lent = tables keys.old high.old low.old in
        let f = refusal_in number.new stream.new place.new key.new in
        ElevenExactly (tables_short lent) problem.now first.now second.now f }
    ensures zeros { let f = refusal_in number.new stream.new place.new key.new in
        PartZeros f result.now }
    ensures under_one { let lent = tables keys.old high.old low.old in
        let s = problem.now in
        let f = refusal_in number.new stream.new place.new key.new in
        TighterKept UnderOne (tables_short lent) s first.now second.now result.now f }
    ensures at_larger { let lent = tables keys.old high.old low.old in
        let s = problem.now in
        let f = refusal_in number.new stream.new place.new key.new in
        TighterKept AtLarger (tables_short lent) s first.now second.now result.now f }
    ensures rows { let lent = tables keys.old high.old low.old in
        let s = problem.now in
        let f = refusal_in number.new stream.new place.new key.new in
        SupersedingAnyOrder (tables_short lent) s first.now second.now result.now f }
{
    let chosen = choose(
        problem, first, second, number, stream, place, key, keys, high, low,
    );
    match chosen {
        Chosen::First => first,
        Chosen::Second => second,
        Chosen::Neither => &first[..0],
    }
}
