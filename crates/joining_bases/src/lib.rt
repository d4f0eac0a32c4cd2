// All nine bases, each by itself: its blocks at the start, the index of its pairs, its squares, and the products that may
// be missing at the end. The problem's bases and multipliers stand in `keys` and `sizes` as in the crate flat. The first
// numbers of `table` are the support, in the order in which they came, with `index`. Byte 64j + i of `labels` is the block
// number of index i of basis j, and byte 64j + i of `follow` the index that follows it in its block, as in the crate
// joining_blocks. The index of the basis's pairs stands from place 6240j on in `pairs`, where the basis is not small.
// Place j of `state` has the number of its blocks, and place 9 + j the bits of the sums of its pairs.
#![tactic(auto)]

ghost use Rattle.std.specs.Prelude.{◌≡◌, ◌↔◌, IsTrue, ℕ, ◌≤◌, ◌<◌, length, get_or, replicate, IfOk};
ghost use Rattle.counting.specs.Counting.{listed, sum_to};
ghost use Rattle.key_set.specs.Table.{keys_in, count_in, Stored};
ghost use Rattle.joining_rule.specs.Rounds.{extend_to, adding_bases};
ghost use Rattle.joining_products.specs.Adding.{plain};
ghost use Rattle.joining_bases.specs.Parts.{bases_in, labels_in, squares_to, Sizes, Arrays, SingleBlocks};
ghost use Rattle.joining_bases.specs.Nine.{AllNoted};
ghost use Rattle.joining_bases.specs.Settled.{Supported, Missing};

use joining_products::Basis;
use key_set::Full;

// Each index of a basis is a block of its own.
fn number(part: &mut [u8])
    requires { length part.old ≤ 64 }
    ensures { part.new ≡ listed (length part.old) (λ i. i) }
{
    for (i, label) in part.iter_mut().enumerate() {
        *label = i as u8;
    }
}

// The blocks at the start, in bytes that are 255 everywhere: each index of each basis.
pub fn start_blocks(labels: &mut [u8], sizes: &[usize])
    requires { Sizes sizes.now × (labels.old ≡ replicate 576 255) }
    ensures { SingleBlocks sizes.now labels.new }
{
    for j in 0..9 {
        let a = 64 * j;
        number(&mut labels[a..a + sizes[j]]);
    }
}

// The support beside its table: how many keys it has, the joining rule by which it grows, and in how many rounds at
// most.
#[derive(Clone, Copy, Debug, PartialEq, Eq)]
pub struct Support {
    pub len: usize,
    pub rule: usize,
    pub most: usize,
}

// What the rounds leave beside the block numbers: how many keys the support has, how many rounds, how many blocks.
#[derive(Clone, Copy, Debug, PartialEq, Eq)]
pub struct Closed {
    pub len: usize,
    pub rounds: usize,
    pub blocks: usize,
}

// How many bases add to the support in a round.
#[tactic(auto, unfolding(joining_rule::specs::Rounds::adding_bases))]
pub fn adding_bases(rule: usize) -> usize
    ensures { result ≡ adding_bases rule }
{
    if rule == 2 { 1 } else { 9 }
}

// How far a round is: the members after the first `since` came in the round before, and the support had `until` keys
// when it began; now it has `len`, and the bases before `adding` add.
#[derive(Clone, Copy, Debug, PartialEq, Eq)]
pub struct Stage {
    pub since: usize,
    pub until: usize,
    pub len: usize,
    pub adding: usize,
}

// How many blocks all bases have.
pub fn total(state: &[u64; 18]) -> usize
    requires { (j : ℕ) → j < 9 → get_or state.now j 0 ≤ 64 }
    ensures { result ≡ sum_to 9 (λ j. get_or state.now j 0) }
{
    state[..9].iter().map(|&n| n as usize).sum()
}

// The products of each index with itself put in, for the bases before `adding`.
pub fn add_squares(
    table: &mut [u64],
    index: &mut [u16],
    len: usize,
    keys: &[u64],
    sizes: &[usize],
    adding: usize,
) -> Result<usize, Full>
    requires { Supported table.old index.old len keys.now sizes.now × (adding ≤ 9) }
    ensures { Stored len
        (squares_to adding (bases_in keys.now sizes.now) (keys_in len table.old))
        table.old (count_in result) table.new index.new
        × IfOk result (λ n. n ≤ 2048) }
{
    let mut n = len;
    for j in 0..adding {
        let basis = Basis {
            keys: flat::basis(keys, sizes, j),
            exponents: flat::exponents(keys, sizes, j),
        };
        n = joining_products::add_squares(table, index, n, basis)?;
    }
    Ok(n)
}

// The in-block products that the support may lack after the rounds, put in: those of the bases that do not add.
pub fn put_missing(
    labels: &[u8],
    keys: &[u64],
    sizes: &[usize],
    table: &mut [u64],
    index: &mut [u16],
    support: Support,
) -> Result<usize, Full>
    requires { Missing table.old index.old support keys.now sizes.now labels.now }
    ensures { Stored support.len
        (extend_to 9 (bases_in keys.now sizes.now)
        (labels_in sizes.now labels.now) (keys_in support.len table.old))
        table.old (count_in result) table.new index.new
        × IfOk result (λ n. n ≤ 2048) }
{
    let mut n = support.len;
    for j in adding_bases(support.rule)..9 {
        let basis = Basis {
            keys: flat::basis(keys, sizes, j),
            exponents: flat::exponents(keys, sizes, j),
        };
        let a = 64 * j;
        let part = &labels[a..a + sizes[j]];
        n = joining_products::add_blocks(part, basis, table, index, n)?;
    }
    Ok(n)
}

// The pairs of every basis that is not small put into the index, and the bits of their sums into `state`.
pub fn note_all(pairs: &mut [u16], state: &mut [u64; 18], keys: &[u64], sizes: &[usize])
    requires { Arrays keys.now sizes.now × (pairs.old ≡ replicate 56160 0) × (length state.old ≡ 18) }
    ensures { AllNoted keys.now sizes.now pairs.new state.new
        × (length state.new ≡ length state.old)
        × ((j : ℕ) → j < 9 → get_or state.new j 0 ≡ get_or state.old j 0) }
{
    for j in 0..9 {
        if joining_products::PLAIN < sizes[j] {
            let basis = flat::basis(keys, sizes, j);
            let exponents = flat::exponents(keys, sizes, j);
            let a = 6240 * j;
            state[9 + j] = joining_pairs::note(&mut pairs[a..a + 6240], basis, exponents);
        }
    }
}

// Whether every basis is small.
pub fn are_small(sizes: &[usize]) -> bool
    requires { 9 ≤ length sizes.now }
    ensures { IsTrue result ↔ ((j : ℕ) → j < 9 → get_or sizes.now j 0 ≤ plain) }
{
    sizes[..9].iter().all(|&n| n <= joining_products::PLAIN)
}

// Each basis has as many blocks as monomials.
pub fn start_state(sizes: &[usize]) -> [u64; 18]
    requires { Sizes sizes.now }
    ensures { (length result ≡ 18) × ((j : ℕ) → j < 9 → get_or result j 0 ≡ get_or sizes.now j 0) }
{
    let mut state = [0u64; 18];
    for (j, &n) in sizes[..9].iter().enumerate() {
        state[j] = n as u64;
    }
    state
}
