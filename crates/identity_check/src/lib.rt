// Refusal 9: whether the identity of a certificate that was read holds, key by key. Minus the claim and the weighted
// squares of the rows are added up at each key that is compared; a sum that is not 0 is a difference.
//
// Where a row has a factor of 32 bits the squares are added in three parts, the second 2^16 times and the third 2^32
// times. The sums are divided by 2^16 before the second and before the third. One that is no multiple of 2^16 is a
// difference, whatever is added later, and the smallest key of such a sum is kept. So a sum holds no more than a part.
//
// The parameters stand in the order of identity_rows.
#![tactic(auto)]

ghost use Rattle.std.specs.Prelude.{◌≡◌, false, ℕ, ◌+◌, ◌*◌, ◌^◌, ◌≤◌, ◌<◌, pos, ◌*ℤ◌, length, get_or};
ghost use Rattle.polynomial.specs.Algebra.{coefficient};
ghost use Rattle.format.specs.ProblemLimits.{most_bases};
ghost use Rattle.accepting.specs.Identity.{squares};
ghost use Rattle.wide_sums.specs.Sums.{step, HasRoom};
ghost use Rattle.identity_sums.specs.Bundles.{ReadyFor};
ghost use Rattle.identity_rows.specs.Spread.{table_unit};
ghost use Rattle.identity_rows.specs.Walk.{RoomFor, bases_in, beyond};
ghost use Rattle.identity_rows.specs.Bundles.{rows_in, ComparableIn};
ghost use Rattle.identity_check.specs.Compare.{smaller_of, Smallest, Nonzero, DividedSums};
ghost use Rattle.identity_check.specs.Bundles.{ZeroedAt, CarriedAt, AnsweredFor};

use certificate_rows::Rows;
use flat::Arrays;
use format::certificate::Header;
use identity_sums::Compared;
use row_digits::Part;

// The smaller of a key that may be known and another.
fn smaller(known: Option<u64>, key: u64) -> u64
    ensures { result ≡ smaller_of known key }
{
    known.map_or(key, |k| k.min(key))
}

// Divides the sums by 2^16, rounding down. A sum that is no multiple of 2^16 cannot become 0 by what is added to it 2^16
// times: the smallest key of those and of `found`, if there is any.
fn divide_sums(keys: Compared, hi: &mut [i64], lo: &mut [i64], found: Option<u64>) -> Option<u64>
    requires { (keys.count ≤ length keys.table.now) × HasRoom keys.count (2 ^ 36) hi.old × (keys.count ≤ length lo.old) }
    ensures { DividedSums keys.entry.table.now keys.entry.count found hi.old lo.old hi.new lo.new result }
{
    let mut least = found;
    for k in 0..keys.count {
        if !wide_sums::divide(hi, lo, k) {
            least = Some(smaller(least, keys.table[k]));
        }
    }
    least
}

// The smallest key of those whose sum is not 0 and of `found`, if there is any.
fn smallest(keys: Compared, hi: &[i64], lo: &[i64], found: Option<u64>) -> Option<u64>
    requires { (keys.count ≤ length keys.table.now) × (keys.count ≤ length hi.now) × (keys.count ≤ length lo.now) }
    ensures { Smallest (Nonzero hi.now lo.now) keys.entry.table.now keys.entry.count found result }
{
    let mut least = found;
    for i in 0..keys.count {
        if !wide_sums::is_zero(hi, lo, i) {
            least = Some(smaller(least, keys.table[i]));
        }
    }
    least
}

// Adds the parts of the squares that only wide factors have, 2^16 and 2^32 times. The sums are divided by 2^16 before
// each, so that they stay as small as a part: the smallest key of those whose sum is known not to become 0, if there is
// any.
fn add_wide_parts(
    g: &mut [i64],
    rows: Rows,
    problem: Arrays,
    keys: Compared,
    hi: &mut [i64],
    lo: &mut [i64],
) -> Option<u64>
    requires ready { ReadyFor keys hi.old lo.old (2 ^ 36) }
    requires comparable { ComparableIn rows problem × RoomFor problem.sizes.now g.old }
    ensures { CarriedAt
        (λ p k. pos step *ℤ beyond (rows_in rows.entry) (bases_in problem.entry.sizes.now) p k)
        problem.entry keys.entry hi.old lo.old hi.new lo.new result }
{
    let first = divide_sums(keys, hi, lo, None);
    identity_rows::sum_rows(g, rows, Part::Cross, problem, keys, hi, lo);
    let second = divide_sums(keys, hi, lo, first);
    identity_rows::sum_rows(g, rows, Part::High, problem, keys, hi, lo);
    second
}

// Adds the weighted square of every row: the first part of the products, and where a row has a wide factor the others.
// The smallest key of those whose sum is known not to be 0, if there is any.
fn add_squares(
    g: &mut [i64],
    rows: Rows,
    problem: Arrays,
    keys: Compared,
    hi: &mut [i64],
    lo: &mut [i64],
) -> Option<u64>
    requires ready { ReadyFor keys hi.old lo.old (9 * table_unit + 2 ^ 36) }
    requires comparable { ComparableIn rows problem × RoomFor problem.sizes.now g.old }
    ensures { CarriedAt (λ p k. coefficient k (squares p (rows_in rows.entry)))
        problem.entry keys.entry hi.old lo.old hi.new lo.new result }
{
    if identity_rows::sum_rows(g, rows, Part::Low, problem, keys, hi, lo) {
        return add_wide_parts(g, rows, problem, keys, hi, lo);
    }
    None
}

// Compares the claim with the weighted squares, at the compared keys, with a table of sums by indices of N places: minus
// the claim and all squares are added up at each key, and a sum that is not 0 is a difference.
fn compare_in<const N: usize>(
    rows: Rows,
    header: Header,
    problem: Arrays,
    keys: Compared,
    hi: &mut [i64],
    lo: &mut [i64],
) -> Option<u64>
    requires comparable { ZeroedAt keys hi.old lo.old × ComparableIn rows problem }
    requires room { ((j : ℕ) → j < most_bases → 64 * get_or problem.sizes.now j 0 ≤ N) × (N ≤ 4096) }
    ensures { AnsweredFor rows.entry header problem.entry keys.entry result
        hi.old lo.old hi.new lo.new }
{
    let mut g = [0i64; N];
    let objective = identity_sums::polynomial(problem, flat::OBJECTIVE);
    identity_sums::add_claim(keys, hi, lo, objective, header);
    let known = add_squares(&mut g, rows, problem, keys, hi, lo);
    smallest(keys, hi, lo, known)
}

// Whether some basis is not small.
fn is_large(sizes: &[usize]) -> bool
    requires { most_bases ≤ length sizes.now }
    ensures { result ≡ false → (j : ℕ) → j < most_bases → get_or sizes.now j 0 ≤ 16 }
{
    sizes[..flat::OBJECTIVE]
        .iter()
        .any(|&size| identity_rows::SMALL < size)
}

// The smallest key at which the sides of the identity of a certificate that was read differ, if they do. The table of
// sums by indices is made here, when all that can be refused before is past. One that has room for the largest basis is
// large, and most calls do not need it.
pub fn compare(
    rows: Rows,
    header: Header,
    problem: Arrays,
    keys: Compared,
    hi: &mut [i64],
    lo: &mut [i64],
) -> Option<u64>
    requires { ZeroedAt keys hi.old lo.old × ComparableIn rows problem }
    ensures { AnsweredFor rows.entry header problem.entry keys.entry result
        hi.old lo.old hi.new lo.new }
{
    if is_large(problem.sizes) {
        compare_in::<4096>(rows, header, problem, keys, hi, lo)
    } else {
        compare_in::<1024>(rows, header, problem, keys, hi, lo)
    }
}
