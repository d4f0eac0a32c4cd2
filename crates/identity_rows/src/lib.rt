// The weighted squares of all rows added at the compared keys, one part of their products at a time: the table of sums by
// indices of each basis, times its multiplier.
//
// What goes through these functions stands always in this order: the table of sums by indices, the rows of the
// certificate, the problem, the compared keys, and the two tables of sums at them.
#![tactic(auto)]

ghost use Rattle.std.specs.Prelude.{◌≡◌, false, ◌*◌, ◌^◌, ◌≤◌, ◌<◌, ◌*ℤ◌, length};
ghost use Rattle.format.specs.ProblemLimits.{most_bases};
ghost use Rattle.row_outer.specs.Frame.{share, spread_at, Framed, Entered};
ghost use Rattle.row_outer.specs.Outer.{gathered_most};
ghost use Rattle.row_folding.specs.Fold.{folded_most, FoldedTable};
ghost use Rattle.counting.specs.Counting.{Bounded};
ghost use Rattle.identity_sums.specs.Bundles.{ReadyFor, Grown, held, PlacedBy};
ghost use Rattle.identity_rows.specs.Spread.{entry_unit, table_unit};
ghost use Rattle.identity_rows.specs.Walk.{RoomFor, on_basis, on_bases, bases_in, Alone};
ghost use Rattle.identity_rows.specs.Bundles.{SpreadableTerms, SpreadOver, rows_in, ComparableIn, SummedAt};

use certificate_rows::Rows;
use flat::Arrays;
use identity_sums::{Compared, Placed, Terms};
use row_digits::Part;

// Adds one entry of the table of sums: a times b * b' for the indices of its place, times the multiplier.
fn add_entry(
    basis: &[u64],
    multiplier: &Placed,
    keys: Compared,
    hi: &mut [i64],
    lo: &mut [i64],
    x: usize,
    a: i64,
)
    requires ready { ReadyFor keys hi.old lo.old entry_unit × PlacedBy keys multiplier.now }
    requires spreadable { SpreadableTerms basis.now multiplier.now.terms × Entered folded_most basis.now x a }
    ensures { Grown keys.entry hi.old lo.old
        (λ k. a *ℤ share basis.now (held multiplier.now.terms) k x) entry_unit hi.new lo.new }
{
    if a == 0 {
        return;
    }
    let key = basis[x / 64] + basis[x % 64];
    identity_sums::add_terms(keys, hi, lo, multiplier, key, a);
}

// Adds the whole table of sums, and clears it. It holds nothing below the diagonal, nor past the basis's last index.
fn spread(
    g: &mut [i64],
    basis: &[u64],
    multiplier: Terms,
    keys: Compared,
    hi: &mut [i64],
    lo: &mut [i64],
)
    requires ready { ReadyFor keys hi.old lo.old table_unit }
    requires spreadable { SpreadableTerms basis.now multiplier × Framed (length basis.now) folded_most g.old }
    ensures { SpreadOver keys.entry (spread_at basis.now (held multiplier.entry) g.old)
        g.old hi.old lo.old g.new hi.new lo.new }
{
    let placed = identity_sums::place(keys, multiplier);
    let size = basis.len();
    let last = 64 * size;
    let mut x = 0;
    // Not by one: `next_place` passes over what is below the diagonal.
    while x < last {
        let a = g[x];
        g[x] = 0;
        add_entry(basis, &placed, keys, hi, lo, x, a);
        x = row_folding::next_place(x, size);
    }
}

// The size up to which a basis is small: few of its products b * b' are the same, and a small table of sums has room.
pub const SMALL: usize = 16;

// Sums the entries with the same product b * b' at one place, where there are many of them.
fn fold_large(g: &mut [i64], basis: &[u64])
    requires { (length basis.now ≤ 64) × Bounded (8 * 2 ^ 56) basis.now × Framed (length basis.now) gathered_most g.old }
    ensures { FoldedTable basis.now g.old g.new }
{
    if SMALL < basis.len() {
        row_folding::fold(g, basis);
    }
}

// Adds one part of the weighted squares of the rows on basis j times its multiplier: their products are summed by their
// indices first, so that a product with the multiplier is made once for all of them. The table of sums is empty before
// and after. Whether a row has a wide factor.
fn add_basis(
    g: &mut [i64],
    rows: Rows,
    j: usize,
    part: Part,
    problem: Arrays,
    keys: Compared,
    hi: &mut [i64],
    lo: &mut [i64],
) -> bool
    requires ready { ReadyFor keys hi.old lo.old table_unit × RoomFor problem.sizes.now g.old }
    requires comparable { ComparableIn rows problem × (j < most_bases) }
    ensures { SummedAt (on_basis (rows_in rows.entry) j part) problem.entry keys.entry 1
        hi.old lo.old hi.new lo.new
        × RoomFor problem.entry.sizes.now g.new
        × (result ≡ false → Alone (on_basis (rows_in rows.entry) j)) }
{
    let Some(wide) = row_products::add_basis_rows(g, rows, j, part) else {
        return false;
    };
    let basis = flat::basis(problem.keys, problem.sizes, j);
    let multiplier = identity_sums::polynomial(problem, j);
    fold_large(g, basis);
    spread(g, basis, multiplier, keys, hi, lo);
    wide
}

// Adds one part of the weighted square of every row times its multiplier, basis by basis; whether a row has a wide
// factor.
pub fn sum_rows(
    g: &mut [i64],
    rows: Rows,
    part: Part,
    problem: Arrays,
    keys: Compared,
    hi: &mut [i64],
    lo: &mut [i64],
) -> bool
    requires ready { ReadyFor keys hi.old lo.old (9 * table_unit) }
    requires comparable { ComparableIn rows problem × RoomFor problem.sizes.now g.old }
    ensures { SummedAt (on_bases (rows_in rows.entry) (bases_in problem.entry.sizes.now) part)
        problem.entry keys.entry 9 hi.old lo.old hi.new lo.new
        × RoomFor problem.entry.sizes.now g.new
        × (result ≡ false → Alone (on_bases (rows_in rows.entry) (bases_in problem.entry.sizes.now))) }
{
    let mut wide = false;
    for j in 0..=problem.sizes[flat::CONDITIONS] {
        wide |= add_basis(g, rows, j, part, problem, keys, hi, lo);
    }
    wide
}
