// The table of sums folded: its entries with the same product b * b' are summed at one place. The compared keys have no
// part in it.
#![tactic(auto)]

ghost use Rattle.std.specs.Prelude.{◌≡◌, true, ◌*◌, ◌^◌, ◌≤◌, ◌<◌, pos, nat_abs, length, get_or};
ghost use Rattle.counting.specs.Counting.{Bounded};
ghost use Rattle.row_outer.specs.Frame.{Next, Framed, Entered};
ghost use Rattle.row_outer.specs.Outer.{gathered_most};
ghost use Rattle.row_folding.specs.Fold.{WithProduct, Folded, FoldedTable};

// The place after x on or above the diagonal, for a basis of this size. A row begins at its diagonal, 65 * i: only half
// of the table is walked.
pub fn next_place(x: usize, size: usize) -> usize
    requires { (x < 64 * size) × (size ≤ 64) }
    ensures { Next size x result }
{
    if x % 64 + 1 < size {
        return x + 1;
    }
    65 * (x / 64 + 1)
}

// Whether place y is one of the basis, on or above the diagonal, with this product b * b'.
fn is_pair(basis: &[u64], y: usize, key: u64) -> bool
    requires { Bounded (8 * 2 ^ 56) basis.now }
    ensures { result ≡ true → WithProduct basis.now y key }
{
    let i = y / 64;
    let k = y % 64;
    i <= k && k < basis.len() && basis[i] + basis[k] == key
}

// At most 2^53 in size, so that there is room for another entry.
fn is_low(z: i64) -> bool
    ensures { result ≡ true → nat_abs z ≤ 2 ^ 53 }
{
    z.unsigned_abs() <= 1 << 53
}

// Where `lasts` names a place with this product b * b'.
fn hint(key: u64) -> usize
    ensures { result < 1024 }
{
    (key % 1017) as usize
}

// Moves the entry at place x to an earlier place with the same product b * b', if `lasts` names one. What it names is
// looked at before it is believed.
fn fold_entry(g: &mut [i64], basis: &[u64], lasts: &mut [u16; 1024], x: usize)
    requires { Bounded (8 * 2 ^ 56) basis.now
        × (x < 4096)
        × (x < length g.old)
        × Entered gathered_most basis.now x (get_or g.old x (pos 0)) }
    ensures { Folded basis.now x g.old g.new }
{
    let a = g[x];
    if a == 0 {
        return;
    }
    let i = x / 64;
    let k = x % 64;
    let key = basis[i] + basis[k];
    let t = hint(key);
    let y = usize::from(lasts[t]);
    if y < x && is_pair(basis, y, key) && is_low(g[y]) {
        g[y] += a;
        g[x] = 0;
    } else {
        lasts[t] = x as u16;
    }
}

// Sums the entries with the same product b * b', so that most products with the multiplier are made once for all of
// them.
pub fn fold(g: &mut [i64], basis: &[u64])
    requires { (length basis.now ≤ 64)
        × Bounded (8 * 2 ^ 56) basis.now
        × Framed (length basis.now) gathered_most g.old }
    ensures { FoldedTable basis.now g.old g.new }
{
    let mut lasts = [0u16; 1024];
    let size = basis.len();
    let mut x = 0;
    // Not by one: `next_place` passes over what is below the diagonal.
    while x < 64 * size {
        fold_entry(g, basis, &mut lasts, x);
        x = next_place(x, size);
    }
}
