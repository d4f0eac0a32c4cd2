// One round of the joining rule, basis by basis, in the arrays of joining_bases.
#![tactic(auto)]

ghost use Rattle.std.specs.Prelude.{◌≡◌, ℕ, ◌≤◌, IfOk};
ghost use Rattle.key_set.specs.Table.{count_in};
ghost use Rattle.joining_rule.specs.Rounds.{adding_bases, round};
ghost use Rattle.joining_blocks.specs.Standing.{reached};
ghost use Rattle.joining_bases.specs.Parts.{bases_in};
ghost use Rattle.joining_bases.specs.Nine.{nine, stage, begun, AsksAt, JoinedAt, RoundAsks, Rounded};

use joining_bases::Stage;
use joining_blocks::Reach;
use joining_products::Basis;
use key_set::Full;

// Basis j joins. The arrays stay parameters: each basis borrows its own part of three of them, and only the parts make
// `Tables`.
fn join_at(
    labels: &mut [u8],
    follow: &mut [u8],
    keys: &[u64],
    sizes: &[usize],
    pairs: &mut [u16],
    table: &mut [u64],
    index: &mut [u16],
    r: Reach,
    j: usize,
) -> Result<Reach, Full>
    requires { AsksAt keys.now sizes.now labels.old follow.old pairs.old table.old index.old r j }
    ensures { JoinedAt keys.now sizes.now labels.old follow.old pairs.old
        table.old index.old r j labels.new follow.new pairs.new table.new
        index.new (reached r result)
        × IfOk result (λ x. x.len ≤ 2048) }
{
    let basis = Basis {
        keys: flat::basis(keys, sizes, j),
        exponents: flat::exponents(keys, sizes, j),
    };
    let a = 64 * j;
    let part = &mut labels[a..a + sizes[j]];
    let links = &mut follow[a..a + 64];
    if sizes[j] <= joining_products::PLAIN {
        let mut none = [0u16; 1];
        return joining_basis::join(part, links, basis, &mut none, table, index, r);
    }
    let p = 6240 * j;
    let sums = &mut pairs[p..p + 6240];
    joining_basis::join(part, links, basis, sums, table, index, r)
}

// A round: every basis joins by the members before `until`, and adds the products of the blocks that it makes one. The
// number of the support's keys.
pub fn round(
    labels: &mut [u8],
    follow: &mut [u8],
    keys: &[u64],
    sizes: &[usize],
    pairs: &mut [u16],
    table: &mut [u64],
    index: &mut [u16],
    state: &mut [u64; 18],
    s: Stage,
) -> Result<usize, Full>
    requires { RoundAsks keys.now sizes.now (nine labels.old follow.old pairs.old table.old index.old state.old s) }
    ensures { ((rule : ℕ) → adding_bases rule ≡ s.adding
        → Rounded keys.now sizes.now
        (round rule (bases_in keys.now sizes.now)
        (begun sizes.now
        (nine labels.old follow.old pairs.old table.old index.old
        state.old s)))
        s.len table.old
        (nine labels.new follow.new pairs.new table.new index.new state.new
        (stage s.since s.until (count_in result) s.adding)))
        × IfOk result (λ n. n ≤ 2048) }
{
    let mut n = s.len;
    for j in 0..9 {
        let reach = Reach {
            since: s.since,
            until: s.until,
            len: n,
            blocks: state[j],
            bits: state[9 + j],
            adds: j < s.adding,
        };
        let r = join_at(labels, follow, keys, sizes, pairs, table, index, reach, j)?;
        n = r.len;
        state[j] = r.blocks;
    }
    Ok(n)
}
