// Two blocks of one basis made one. Byte i of `labels` is the block number of index i, and byte i of `follow` the index
// that follows it in its block, or 255: a block's list begins with its number. Two blocks that are made one add their
// cross products to the support at once, behind the members that the joining looks at, so that it always has the products
// of every pair in one block.
#![tactic(auto)]

ghost use Rattle.std.specs.Prelude.{◌≡◌, ◌/◌, ◌%◌, ◌≤◌, ◌<◌, length, IfOk};
ghost use Rattle.joining_rule.specs.Join.{merged};
ghost use Rattle.round_laws.specs.Joins.{Two};
ghost use Rattle.round_laws.specs.Lists.{Lists, TwoBlocks};
ghost use Rattle.joining_blocks.specs.Standing.{reached, Ready, Grew};
ghost use Rattle.joining_blocks.specs.Tables.{standing_at, SameTables};

use joining_products::{Basis, Cross};
use key_set::Full;

// How far a joining is: it looks at the members of the support from `since` on, before `until`; the support has `len`
// keys, and the basis `blocks` blocks. No sum of a pair has other bits than `bits`, where the basis is not small. `adds`
// says whether its products are added.
#[derive(Clone, Copy, Debug, PartialEq, Eq)]
pub struct Reach {
    pub since: usize,
    pub until: usize,
    pub len: usize,
    pub blocks: u64,
    pub bits: u64,
    pub adds: bool,
}

// What a joining of one basis changes: its blocks, the index of its pairs, and the support with its index.
#[derive(Drop)]
pub struct Tables<'a> {
    pub labels: &'a mut [u8],
    pub follow: &'a mut [u8],
    pub pairs: &'a mut [u16],
    pub table: &'a mut [u64],
    pub index: &'a mut [u16],
}

// The block b put behind the first index of the block a.
fn splice(labels: &mut [u8], follow: &mut [u8], m: Cross)
    requires { TwoBlocks m.a m.b labels.old follow.old }
    ensures { (labels.new ≡ merged m.a m.b labels.old)
        × Lists follow.new labels.new }
{
    let a = m.a as usize;
    let mut last = m.b as usize;
    let mut k = last;
    // A walk along a list, each of whose places tells the next.
    while k < labels.len() {
        labels[k] = m.a;
        last = k;
        k = follow[k] as usize;
    }
    follow[last] = follow[a];
    follow[a] = m.b;
}

impl Tables<'_> {
    // Two blocks made one, with their products put in where the basis adds.
    fn merge(&mut self, basis: Basis<'_>, r: Reach, m: Cross) -> Result<Reach, Full>
        requires { Ready basis.exponents.now basis.keys.now (standing_at self.old r)
            × TwoBlocks m.a m.b self.old.labels.now self.old.follow.now }
        ensures grew { Grew basis.entry.exponents.now basis.entry.keys.now (Two m.a m.b)
            (standing_at self.old r) (standing_at self.new (reached r result)) }
        ensures room { IfOk result (λ q. q.len ≤ 2048) }
        ensures same { SameTables self.old self.new }
    {
        let follow = &mut *self.follow;
        let len = if r.adds {
            joining_products::add_cross(
                follow, basis, self.pairs, self.table, self.index, r.len, m,
            )?
        } else {
            r.len
        };
        splice(self.labels, follow, m);
        Ok(Reach {
            len,
            blocks: r.blocks - 1,
            ..r
        })
    }

    // The blocks of two indices made one.
    pub fn join_two(&mut self, basis: Basis<'_>, r: Reach, p: usize) -> Result<Reach, Full>
        requires { Ready basis.exponents.now basis.keys.now (standing_at self.old r)
            × (p / 64 < length basis.keys.now)
            × (p % 64 < length basis.keys.now) }
        ensures grew { Grew basis.entry.exponents.now basis.entry.keys.now (Two (p / 64) (p % 64))
            (standing_at self.old r) (standing_at self.new (reached r result)) }
        ensures room { IfOk result (λ q. q.len ≤ 2048) }
        ensures same { SameTables self.old self.new }
    {
        let a = self.labels[p / 64];
        let b = self.labels[p % 64];
        if a == b {
            return Ok(r);
        }
        let m = if a < b {
            Cross { a, b }
        } else {
            Cross { a: b, b: a }
        };
        self.merge(basis, r, m)
    }
}
