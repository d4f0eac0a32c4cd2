// The joining rule over all nine bases, round by round, in the arrays of joining_bases.
#![tactic(auto)]

ghost use Rattle.key_set.specs.Table.{keys_in};
ghost use Rattle.joining_rule.specs.Rounds.{closing_of};
ghost use Rattle.joining_bases.specs.Parts.{bases_in};
ghost use Rattle.joining_bases.specs.Nine.{AllNoted, AllSingle};
ghost use Rattle.joining_bases.specs.Settled.{Starting, Settled};

use joining_bases::{Closed, Stage, Support};
use key_set::Full;

// Rounds until one changes neither a block nor the support, or the support has too many keys, or the most were made.
fn run(
    labels: &mut [u8],
    follow: &mut [u8],
    keys: &[u64],
    sizes: &[usize],
    pairs: &mut [u16],
    table: &mut [u64],
    index: &mut [u16],
    state: &mut [u64; 18],
    support: Support,
) -> Result<Closed, Full>
    requires { Starting table.old index.old support keys.now sizes.now
        × AllSingle sizes.now labels.old follow.old state.old
        × AllNoted keys.now sizes.now pairs.old state.old }
    ensures { Settled
        (closing_of support.rule support.most (bases_in keys.now sizes.now)
        (keys_in support.len table.old)) support.len table.old result table.new
        index.new labels.new }
{
    let adding = joining_bases::adding_bases(support.rule);
    let mut left = joining_bases::total(state);
    let mut since = 0;
    let mut until = support.len;
    let mut len = joining_bases::add_squares(table, index, until, keys, sizes, adding)?;
    for rounds in 0..support.most {
        let s = Stage {
            since,
            until,
            len,
            adding,
        };
        len = joining_round::round(labels, follow, keys, sizes, pairs, table, index, state, s)?;
        let now = joining_bases::total(state);
        if len == until && now == left {
            return Ok(Closed {
                len,
                rounds: rounds + 1,
                blocks: left,
            });
        }
        left = now;
        since = until;
        until = len;
    }
    Ok(Closed {
        len,
        rounds: support.most,
        blocks: left,
    })
}

// The rounds, with the index of the pairs. That takes 112,320 bytes, so this is never made part of its caller: the frames of
// the calls on problems with small bases do without it.
#[inline(never)]
fn run_indexed(
    labels: &mut [u8],
    follow: &mut [u8],
    keys: &[u64],
    sizes: &[usize],
    table: &mut [u64],
    index: &mut [u16],
    state: &mut [u64; 18],
    support: Support,
) -> Result<Closed, Full>
    requires { Starting table.old index.old support keys.now sizes.now
        × AllSingle sizes.now labels.old follow.old state.old }
    ensures { Settled
        (closing_of support.rule support.most (bases_in keys.now sizes.now)
        (keys_in support.len table.old)) support.len table.old result table.new
        index.new labels.new }
{
    let mut pairs = [0u16; 56160];
    joining_bases::note_all(&mut pairs, state, keys, sizes);
    run(
        labels, follow, keys, sizes, &mut pairs, table, index, state, support,
    )
}

// The joining rule from its start to its end.
pub fn close(
    labels: &mut [u8; 576],
    keys: &[u64],
    sizes: &[usize],
    table: &mut [u64],
    index: &mut [u16],
    support: Support,
) -> Result<Closed, Full>
    requires { Starting table.old index.old support keys.now sizes.now }
    ensures { Settled
        (closing_of support.rule support.most (bases_in keys.now sizes.now)
        (keys_in support.len table.old)) support.len table.old result table.new
        index.new labels.new }
{
    *labels = [255u8; 576];
    let mut follow = [255u8; 576];
    joining_bases::start_blocks(labels, sizes);
    let mut state = joining_bases::start_state(sizes);
    if joining_bases::are_small(sizes) {
        let mut none = [0u16; 1];
        return run(
            labels,
            &mut follow,
            keys,
            sizes,
            &mut none,
            table,
            index,
            &mut state,
            support,
        );
    }
    run_indexed(
        labels,
        &mut follow,
        keys,
        sizes,
        table,
        index,
        &mut state,
        support,
    )
}
