// The table of sums, 64 places to an index: the products w * d * d' of the digits of one row are summed by their indices,
// on and above the diagonal.
#![tactic(auto)]

ghost use Rattle.std.specs.Prelude.{◌*◌, ◌^◌, ◌≤◌, ◌<◌, nat_abs, ◌*ℤ◌, length, get_or};
ghost use Rattle.polynomial.specs.Algebra.{match};
ghost use Rattle.flat.specs.TermArrays.{terms_in};
ghost use Rattle.row_outer.specs.Frame.{Below};
ghost use Rattle.row_outer.specs.Outer.{weight_most, digit_most, Entries};
ghost use Rattle.row_outer.specs.Outer.{Raised, in_row, outer_at};

// Adds a times a digit to the entry at place x. There is room: the limits of the rows keep every sum far below 2^63.
fn add_at(g: &mut [i64], x: usize, a: i64, factor: i32)
    requires { (x < length g.old)
        × Below (2 ^ 61) g.old
        × (nat_abs a ≤ 2 * (weight_most * digit_most))
        × (nat_abs factor ≤ digit_most) }
    ensures { Raised g.old (λ y. a *ℤ factor *ℤ match y x) g.new }
{
    g[x] += a * i64::from(factor);
}

// Adds a times each factor of a row from entry `first` on, in the table's row of that entry's index: with itself once,
// and with a later one twice, for its mirror image too.
fn add_products(
    g: &mut [i64],
    indices: &[u8; 64],
    factors: &[i32; 64],
    count: usize,
    first: usize,
    a: i64,
)
    requires { Entries digit_most indices.now factors.now count (length g.old)
        × Below (2 ^ 60) g.old
        × (first < count)
        × (nat_abs a ≤ weight_most * digit_most) }
    ensures { Raised g.old
        (λ x. a *ℤ in_row (terms_in count indices.now factors.now) x
        (get_or indices.now first 0)) g.new }
{
    let i = usize::from(indices[first]);
    add_at(g, 65 * i, a, factors[first]);
    for k in first + 1..count {
        add_at(g, 64 * i + usize::from(indices[k]), 2 * a, factors[k]);
    }
}

// Adds the products w * d * d' of each digit d on the left and d' on the right, an entry with itself and with those
// after it, to the table of sums.
pub fn add_outer(
    g: &mut [i64],
    indices: &[u8; 64],
    left: &[i32; 64],
    right: &[i32; 64],
    count: usize,
    w: i64,
)
    requires { Entries digit_most indices.now left.now count (length g.old)
        × Entries digit_most indices.now right.now count (length g.old)
        × Below (2 ^ 59) g.old
        × (nat_abs w ≤ weight_most) }
    ensures { Raised g.old
        (outer_at w (terms_in count indices.now left.now)
        (terms_in count indices.now right.now)) g.new }
{
    for k in 0..count {
        add_products(g, indices, right, count, k, w * i64::from(left[k]));
    }
}
