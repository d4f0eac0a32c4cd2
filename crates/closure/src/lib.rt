// The joining rule applied to a problem that stands in the arrays of the crate flat: from its start to the closed
// support, or the one reached where a sparse order ends the rounds, what is counted with it, and the blocks. The first
// `len` numbers of `table` are the support, in the order in which they came, with `index`.
#![tactic(auto)]

ghost use Rattle.std.specs.Prelude.{◌≡◌, List, ◌*◌, ◌^◌, ◌≤◌, ℤ, length, IfOk};
ghost use Rattle.counting.specs.Counting.{from_to, Bounded};
ghost use Rattle.format.specs.ProblemRules.{Problem};
ghost use Rattle.joining_rule.specs.Sets.{insert_all};
ghost use Rattle.joining_rule.specs.Rounds.{most_rounds, closing_of};
ghost use Rattle.joining_rule.specs.Joining.{multiples, bases_of, closing};
ghost use Rattle.key_set.specs.Table.{keys_in, count_in, Holds, Indexed, Stored};
ghost use Rattle.flat.specs.Flat.{FlatProblem};
ghost use Rattle.joining_bases.specs.Parts.{exponents_in, bases_in};
ghost use Rattle.joining_bases.specs.Settled.{Starting};
ghost use Rattle.closure.specs.Tables.{FlatKeys, start_in, ClosureLeft};

use joining_bases::Support;
use key_set::Full;

// The support with each key times `factor` put in, and the number of its keys.
fn put_keys(
    table: &mut [u64],
    index: &mut [u16],
    len: usize,
    keys: &[u64],
    factor: u64,
) -> Result<usize, Full>
    requires { (Holds table.old len × Indexed index.old table.old len)
        × Bounded (32 * 2 ^ 56) keys.now
        × (factor ≤ 2) }
    ensures { Stored len (insert_all (multiples factor keys.now) (keys_in len table.old))
        table.old (count_in result) table.new index.new
        × IfOk result (λ n. n ≤ 2048) }
{
    let mut n = len;
    for &key in keys {
        n = key_set::put(table, index, n, factor * key)?;
    }
    Ok(n)
}

// The exponents of polynomial j put in.
fn put_polynomial(
    table: &mut [u64],
    index: &mut [u16],
    len: usize,
    keys: &[u64],
    sizes: &[usize],
    j: usize,
) -> Result<usize, Full>
    requires { (Holds table.old len × Indexed index.old table.old len) × FlatKeys keys.now sizes.now × (j ≤ 9) }
    ensures { Stored len
        (insert_all (exponents_in keys.now sizes.now j) (keys_in len table.old))
        table.old (count_in result) table.new index.new
        × IfOk result (λ n. n ≤ 2048) }
{
    let exponents = flat::exponents(keys, sizes, j);
    put_keys(table, index, len, exponents, 1)
}

// The exponents of every condition put in.
fn put_conditions(
    table: &mut [u64],
    index: &mut [u16],
    len: usize,
    keys: &[u64],
    sizes: &[usize],
) -> Result<usize, Full>
    requires { (Holds table.old len × Indexed index.old table.old len) × FlatKeys keys.now sizes.now }
    ensures { Stored len
        (from_to 1 9 (λ j. insert_all (exponents_in keys.now sizes.now j))
        (keys_in len table.old)) table.old (count_in result) table.new index.new
        × IfOk result (λ n. n ≤ 2048) }
{
    let mut n = len;
    for j in 1..9 {
        n = put_polynomial(table, index, n, keys, sizes, j)?;
    }
    Ok(n)
}

// The start of the support: the exponents of the objective and of the conditions, and twice those of basis 0.
fn seed(keys: &[u64], sizes: &[usize], table: &mut [u64], index: &mut [u16]) -> Result<usize, Full>
    requires { (2048 ≤ length table.old) × Indexed index.old table.old 0 × FlatKeys keys.now sizes.now }
    ensures { Stored 0 (start_in keys.now sizes.now) table.old (count_in result) table.new
        index.new
        × IfOk result (λ n. n ≤ 2048) }
{
    let a = put_polynomial(table, index, 0, keys, sizes, flat::OBJECTIVE)?;
    let b = put_conditions(table, index, a, keys, sizes)?;
    let basis = flat::basis(keys, sizes, 0);
    put_keys(table, index, b, basis, 2)
}

// What the joining rule leaves beside the block numbers: the number of rounds and of blocks, and how many keys are
// counted.
#[derive(Clone, Copy, Debug, PartialEq, Eq)]
pub struct Joined {
    pub rounds: usize,
    pub blocks: usize,
    pub len: usize,
}

// The joining rule from its start, the first numbers of the table, to its end.
fn settle(
    keys: &[u64],
    sizes: &[usize],
    labels: &mut [u8; 576],
    table: &mut [u64],
    index: &mut [u16],
    support: Support,
) -> Result<Joined, Full>
    requires { Starting table.old index.old support keys.now sizes.now }
    ensures { ClosureLeft (bases_in keys.now sizes.now)
        (closing_of support.rule support.most (bases_in keys.now sizes.now)
        (keys_in support.len table.old)) table.old result table.new index.new
        labels.new }
{
    let c = joining_rounds::close(labels, keys, sizes, table, index, support)?;
    let closed = Support {
        len: c.len,
        ..support
    };
    let n = joining_bases::put_missing(labels, keys, sizes, table, index, closed)?;
    let len = key_set::put_last(table, index, n, 0)?;
    Ok(Joined {
        rounds: c.rounds,
        blocks: c.blocks,
        len,
    })
}

// The most rounds at a sparse order: as many as it says, and enough for any problem where none is named.
#[tactic(auto, unfolding(joining_rule::specs::Rounds::most_rounds))]
fn most_rounds(order: usize) -> usize
    ensures { result ≡ most_rounds order }
{
    if order == 0 { 578 } else { order }
}

// The joining rule of the problem in the arrays, with an index that holds nothing. Unless they are too many, the table's first numbers are then
// those that are counted: the support reached, all in-block products and the zero exponent. The index is theirs.
pub fn join(
    keys: &[u64],
    sizes: &[usize],
    labels: &mut [u8; 576],
    table: &mut [u64],
    index: &mut [u16],
) -> Result<Joined, Full>
    requires { (2048 ≤ length table.old) × Indexed index.old table.old 0 × FlatKeys keys.now sizes.now }
    ensures { (p : Problem) (coefficients : List ℤ) → FlatProblem p keys.now coefficients sizes.now
        → ClosureLeft (bases_of p) (closing p) table.old result table.new index.new
        labels.new }
{
    let support = Support {
        len: seed(keys, sizes, table, index)?,
        rule: sizes[flat::RULE],
        most: most_rounds(sizes[flat::ORDER]),
    };
    settle(keys, sizes, labels, table, index, support)
}
