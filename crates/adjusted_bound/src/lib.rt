// Request 13: how far an adjusted coefficient moves the bound. The check decides on the certificate first; then the
// changes are looked at, then the boxes, in the problem read once more, and then the side.
#![tactic(auto)]

ghost use Rattle.std.specs.Prelude.{◌≡◌, ◌&&◌, List, ℕ, ◌^◌, ◌≤◌, ◌<◌, negsuc, MatchResult};
ghost use Rattle.polynomial.specs.Terms.{Term, term};
ghost use Rattle.format.specs.ProblemRules.{Problem, read_problem};
ghost use Rattle.flat.specs.Flat.{FlatLimits, FlatProblem};
ghost use Rattle.fractions.specs.Ranges.{Bound};
ghost use Rattle.calls.specs.Refusals.{no_refusal};
ghost use Rattle.calls.specs.Tables.{tables, tables_short, TablesLeft};
ghost use Rattle.calls.specs.Adjusted.{change_count, changes_of, most_changes, change_refusal, first_unfit, unfit_refusal};
ghost use Rattle.calls.specs.Adjusted.{changes_refusal, square_key, unit, has_box, boxed_to, absolute_sum};
ghost use Rattle.calls.specs.SameTerms.{same_term};
ghost use Rattle.calls.specs.Adjusted.{moved_bound, refused_adjusted, adjusted_of, adjusted_read, adjusted_verdict};
ghost use Rattle.calls.specs.Adjusted.{AdjustedNumber, AdjustedExactly, HoldsChanged, InOrder, AdjustedKept};
ghost use Rattle.calls.specs.Rules.{UnderOne, AtLarger};
ghost use Rattle.calls.specs.Zeros.{AdjustedZeros};
ghost use Rattle.calls.specs.RowOrder.{AdjustedAnyOrder};
ghost use Rattle.adjusted_bound.specs.Boxes.{box_in};
ghost use Rattle.adjusted_bound.specs.Found.{told_bound};

use calls::{AdjustedVerdict, CheckVerdict, Fraction, Refusal};
use certificate_judge::NO_REFUSAL;
use flat::{CONDITIONS, TERMS};

// A refusal of the changes, at the index of one.
fn change_refusal(number: u8, index: usize) -> Refusal
    ensures { result ≡ change_refusal number index }
{
    certificate_judge::certificate_refusal(2, number, index, 0)
}

// Refusal 4 of the first change that does not fit.
fn check_fit(n: usize, changes: &[u8]) -> Result<(), Refusal>
    ensures { let told = unfit_refusal (first_unfit n 0 (changes_of changes.now)) in
        MatchResult result (λ _. told ≡ no_refusal) (λ f. (f ≡ told) × (0 < f.number)) }
{
    // By index: it is the place of the refusal.
    for i in 0..changes.len() / 12 {
        let key = operand_reader::number_at(changes, 12 * i, 8);
        if !problem_commands::is_fitting(n, 32, key) {
            return Err(change_refusal(4, i));
        }
    }
    Ok(())
}

// The refusal of the changes, in n variables.
#[tactic(auto, unfolding(calls::specs::Adjusted::changes_refusal))]
fn check_changes(n: usize, changes: &[u8]) -> Result<(), Refusal>
    ensures { let told = changes_refusal n changes.now in
        MatchResult result (λ _. told ≡ no_refusal) (λ f. (f ≡ told) × (0 < f.number)) }
{
    let count = changes.len() / 12;
    if 0 < changes.len() % 12 {
        return Err(change_refusal(2, count));
    }
    if 256 < count {
        return Err(change_refusal(6, 256));
    }
    check_fit(n, changes)
}

// The sum of the absolute values: at most 2^31 for each of at most 256.
fn absolute_sum(changes: &[u8]) -> u64
    requires { change_count changes.now ≤ most_changes }
    ensures { (result ≡ absolute_sum (changes_of changes.now)) × (result ≤ 2 ^ 39) }
{
    let mut sum: u64 = 0;
    for i in 0..changes.len() / 12 {
        let d = operand_reader::signed32(operand_reader::number_at(changes, 12 * i + 8, 4));
        let size = d.unsigned_abs() as u64;
        sum += size;
    }
    sum
}

// The moved bound. q is below 2^16 and the sum at most 2^39, so their product is below 2^55.
fn moved(f: Fraction, sum: u64) -> Fraction
    requires { Bound f × (sum ≤ 2 ^ 39) }
    ensures { (l : List Term) → sum ≡ absolute_sum l → result ≡ moved_bound f l }
{
    Fraction {
        num: f.num - ((f.den * sum) as i64),
        den: f.den,
    }
}

// Whether a term is another.
fn is_term(key: u64, c: i32, other: u64, d: i32) -> bool
    ensures { result ≡ same_term (term key c) (term other d) }
{
    key == other && c == d
}

// Whether two terms are 1 and − x², where `square` is the key of x².
fn are_terms(k: u64, c: i32, l: u64, d: i32, square: u64) -> bool
    ensures { result ≡ (same_term (term k c) unit && same_term (term l d) (term square (negsuc 0))) }
{
    is_term(k, c, 0, 1) && is_term(l, d, square, -1)
}

// Whether g_j is an inequality that is exactly 1 − x², where `square` is the key of x².
fn is_box(keys: &[u64], coefficients: &[i32], sizes: &[usize], j: usize, square: u64) -> bool
    requires { FlatLimits keys.now coefficients.now sizes.now × (j < 9) }
    ensures { (i : ℕ) → square ≡ square_key i
        → result ≡ box_in i keys.now coefficients.now sizes.now j }
{
    if flat::is_equality(sizes, j) {
        return false;
    }
    if sizes[9 + j] != 2 {
        return false;
    }
    let at = 32 * j;
    let k = keys[TERMS + at];
    let l = keys[TERMS + at + 1];
    let c = coefficients[at];
    let d = coefficients[at + 1];
    if are_terms(k, c, l, d, square) {
        return true;
    }
    are_terms(l, d, k, c, square)
}

// Whether some inequality is exactly 1 − x², where `square` is the key of x².
fn has_box(keys: &[u64], coefficients: &[i32], sizes: &[usize], square: u64) -> bool
    requires { FlatLimits keys.now coefficients.now sizes.now }
    ensures { (p : Problem) → FlatProblem p keys.now coefficients.now sizes.now
        → (i : ℕ) → square ≡ square_key i → result ≡ has_box i p.conditions }
{
    // By number: the conditions stand side by side in the arrays.
    for j in 0..sizes[CONDITIONS] {
        if is_box(keys, coefficients, sizes, j + 1, square) {
            return true;
        }
    }
    false
}

// Whether every variable up to n has one. The key of x_n² is the last that is asked for, and the largest.
fn are_boxed(keys: &[u64], coefficients: &[i32], sizes: &[usize], n: usize) -> bool
    requires { FlatLimits keys.now coefficients.now sizes.now × (1 ≤ n) × (n ≤ 8) }
    ensures { (p : Problem) → FlatProblem p keys.now coefficients.now sizes.now
        → result ≡ boxed_to n p.conditions }
{
    let mut square: u64 = 2;
    for i in 1..n {
        if !has_box(keys, coefficients, sizes, square) {
            return false;
        }
        square *= 256;
    }
    has_box(keys, coefficients, sizes, square)
}

fn refuse(refusal: Refusal) -> AdjustedVerdict
    ensures { result ≡ refused_adjusted refusal }
{
    AdjustedVerdict {
        refusal,
        bound: fractions::NONE,
    }
}

// The moved bound for the problem in the arrays, in n variables, by what the check says of an accepted certificate; or
// the refusal of the first test that fails.
fn decide(
    keys: &[u64],
    coefficients: &[i32],
    sizes: &[usize],
    n: usize,
    v: CheckVerdict,
    changes: &[u8],
) -> Result<Fraction, Refusal>
    requires { FlatLimits keys.now coefficients.now sizes.now × (1 ≤ n) × (n ≤ 8) × Bound v.bound }
    ensures { (p : Problem) → FlatProblem p keys.now coefficients.now sizes.now
        → p.variables ≡ n → told_bound result ≡ adjusted_of p v changes.now }
{
    check_changes(n, changes)?;
    let boxed = are_boxed(keys, coefficients, sizes, n);
    if !boxed {
        return Err(certificate_judge::problem_refusal(16, 0));
    }
    if v.side != 0 {
        return Err(certificate_judge::problem_refusal(17, 0));
    }
    Ok(moved(v.bound, absolute_sum(changes)))
}

// The same for a problem stream. The problem is read into arrays of the call; the number of variables is the stream's
// second byte.
fn find(problem: &[u8], v: CheckVerdict, changes: &[u8]) -> Result<Fraction, Refusal>
    requires { Bound v.bound }
    ensures { told_bound result ≡ adjusted_read (read_problem problem.now) v changes.now }
{
    let mut keys = [0u64; 1120];
    let mut coefficients = [0i32; 544];
    let mut sizes = [0usize; 31];
    if let Err(m) = problem_reader::read(problem, &mut keys, &mut coefficients, &mut sizes) {
        return Err(certificate_judge::problem_refusal(u8::from(m.fault), m.place));
    }
    let n = problem[1] as usize;
    decide(&keys, &coefficients, &sizes, n, v, changes)
}

// The verdict on an accepted certificate and changes of the objective.
fn answer(problem: &[u8], v: CheckVerdict, changes: &[u8]) -> AdjustedVerdict
    requires { Bound v.bound }
    ensures { result ≡ adjusted_read (read_problem problem.now) v changes.now }
{
    match find(problem, v, changes) {
        Ok(bound) => AdjustedVerdict {
            refusal: NO_REFUSAL,
            bound,
        },
        Err(f) => refuse(f),
    }
}

// The bound of a lower certificate, moved by changes of the objective. `keys`, `high` and `low` are the work tables.
// p has 32 bits, q 16, and the changes move p by less than 2^55, so the moved bound fits a fraction.
pub fn moved_bound(
    problem: &[u8],
    certificate: &[u8],
    changes: &[u8],
    keys: &mut [u64],
    high: &mut [i64],
    low: &mut [i64],
) -> AdjustedVerdict
    ensures verdict { let lent = tables keys.old high.old low.old in
        let s = problem.now in
        result ≡ adjusted_verdict (tables_short lent) s certificate.now changes.now }
    ensures tables { let lent = tables keys.old high.old low.old in
        let left = tables keys.new high.new low.new in
        TablesLeft (tables_short lent) lent left }
    ensures numbered { AdjustedNumber result.refusal.number }
    ensures accepted { let lent = tables keys.old high.old low.old in
        let s = problem.now in
        AdjustedExactly (tables_short lent) s certificate.now changes.now result }
    ensures holds { HoldsChanged problem.now changes.now result.refusal.number result.bound }
    ensures order { let lent = tables keys.old high.old low.old in
        let s = problem.now in
        InOrder (tables_short lent) s certificate.now changes.now result.refusal }
    ensures zeros { AdjustedZeros result }
    ensures under_one { let lent = tables keys.old high.old low.old in
        let s = problem.now in
        AdjustedKept UnderOne (tables_short lent) s certificate.now changes.now result }
    ensures at_larger { let lent = tables keys.old high.old low.old in
        let s = problem.now in
        AdjustedKept AtLarger (tables_short lent) s certificate.now changes.now result }
    ensures rows { let lent = tables keys.old high.old low.old in
        let s = problem.now in
        AdjustedAnyOrder (tables_short lent) s certificate.now changes.now result }
{
    let v = checker::check(problem, certificate, keys, high, low);
    let f = v.refusal;
    if f.number != 0 {
        return refuse(f);
    }
    answer(problem, v, changes)
}
