// Products put into the support: those of one sum, of two indices, of two blocks, of each index with itself, and of every
// pair in one block. Byte i of `follow` is the index that follows i in its block, or 255. The first numbers of `table` are
// the support, with `index`. Products that are there already, by what the index of pairs tells, are not looked for. Loops
// that put many products in end with `key_set::shorten`, so that no search in the support is long.
#![tactic(auto)]

ghost use Rattle.std.specs.Prelude.{◌≡◌, ◌+◌, ◌≤◌, ◌<◌, length, get_or, IfOk};
ghost use Rattle.joining_rule.specs.Extend.{add_terms, add_row, extend};
ghost use Rattle.key_set.specs.Table.{keys_in, count_in, Stored};
ghost use Rattle.round_laws.specs.Added.{add_list, add_lists};
ghost use Rattle.round_laws.specs.Lists.{list_from};
ghost use Rattle.joining_pairs.specs.Limits.{ForSums, ForBasis};
ghost use Rattle.joining_pairs.specs.Pairs.{Slots};
ghost use Rattle.joining_products.specs.Adding.{AddingAsks, AddedAll, add_squares, IndexList};

use key_set::Full;

// Up to so many monomials a basis joins by its pairs: that is faster than making their index.
pub const PLAIN: usize = 16;

// One basis: the keys of its monomials, and the exponents of its multiplier.
#[derive(Clone, Copy)]
pub struct Basis<'a> {
    pub keys: &'a [u64],
    pub exponents: &'a [u64],
}

// Two blocks, by their numbers, the lower one first.
#[derive(Clone, Copy, Debug, PartialEq, Eq)]
pub struct Cross {
    pub a: u8,
    pub b: u8,
}

// The support with t + s put in for each exponent t of the multiplier, and the number of its keys.
pub fn add_terms(
    table: &mut [u64],
    index: &mut [u16],
    len: usize,
    exponents: &[u64],
    s: u64,
) -> Result<usize, Full>
    requires { ForSums table.old index.old len exponents.now s }
    ensures { Stored len (add_terms exponents.now s (keys_in len table.old)) table.old
        (count_in result) table.new index.new
        × IfOk result (λ n. n ≤ 2048) }
{
    let mut n = len;
    for &t in exponents {
        n = key_set::put(table, index, n, t + s)?;
    }
    Ok(n)
}

// The same for the sum of two indices, where the slots of the exponents are known: by the divisor that the index has as
// a rule.
fn add_slotted(
    table: &mut [u64],
    index: &mut [u16],
    len: usize,
    exponents: &[u64],
    pairs: &[u16],
    s: u64,
) -> Result<usize, Full>
    requires { ForSums table.old index.old len exponents.now s
        × (length exponents.now ≤ 32)
        × Slots exponents.now pairs.now }
    ensures { Stored len (add_terms exponents.now s (keys_in len table.old)) table.old
        (count_in result) table.new index.new
        × IfOk result (λ n. n ≤ 2048) }
{
    if key_set::divisor(index) < key_set::FIRST {
        return add_terms(table, index, len, exponents, s);
    }
    let h = key_set::first_slot(s);
    let mut n = len;
    for (i, &t) in exponents.iter().enumerate() {
        let at = key_set::slot_of_sum(key_set::FIRST, h, pairs[joining_pairs::SLOTS + i] as usize);
        n = key_set::put_at(table, index, n, t + s, at)?;
    }
    Ok(n)
}

// The products of the indices i and k put in.
fn add_pair(
    table: &mut [u64],
    index: &mut [u16],
    len: usize,
    basis: Basis<'_>,
    pairs: &mut [u16],
    i: usize,
    k: usize,
) -> Result<usize, Full>
    requires { AddingAsks basis.exponents.now basis.keys.now pairs.old table.old index.old len
        × (i < length basis.keys.now)
        × (k < length basis.keys.now) }
    ensures { AddedAll basis.entry.exponents.now basis.entry.keys.now
        (add_terms basis.entry.exponents.now (get_or basis.entry.keys.now i 0 + get_or basis.entry.keys.now k 0)
        (keys_in len table.old))
        len table.old pairs.old (count_in result) table.new index.new pairs.new
        × IfOk result (λ n. n ≤ 2048) }
{
    let s = basis.keys[i] + basis.keys[k];
    if basis.keys.len() <= PLAIN {
        return add_terms(table, index, len, basis.exponents, s);
    }
    if joining_pairs::is_done(pairs, basis.keys, i, k) {
        return Ok(len);
    }
    add_slotted(table, index, len, basis.exponents, pairs, s)
}

// The products of index k with each index of the block a put in.
fn add_row(
    follow: &[u8],
    basis: Basis<'_>,
    pairs: &mut [u16],
    table: &mut [u64],
    index: &mut [u16],
    len: usize,
    a: u8,
    k: usize,
) -> Result<usize, Full>
    requires { AddingAsks basis.exponents.now basis.keys.now pairs.old table.old index.old len
        × (length follow.now ≡ 64)
        × IndexList (length basis.keys.now) follow.now a
        × (k < length basis.keys.now) }
    ensures { AddedAll basis.entry.exponents.now basis.entry.keys.now
        (add_list basis.entry.exponents.now basis.entry.keys.now k (list_from follow.now a)
        (keys_in len table.old))
        len table.old pairs.old (count_in result) table.new index.new pairs.new
        × IfOk result (λ n. n ≤ 2048) }
{
    let mut n = len;
    let mut i = a as usize;
    // A walk along a list, each of whose places tells the next.
    while i < 64 {
        n = add_pair(table, index, n, basis, pairs, i, k)?;
        i = follow[i] as usize;
    }
    key_set::shorten(table, index, n);
    Ok(n)
}

// Those of each index of the block b with each index of the block a.
pub fn add_cross(
    follow: &[u8],
    basis: Basis<'_>,
    pairs: &mut [u16],
    table: &mut [u64],
    index: &mut [u16],
    len: usize,
    m: Cross,
) -> Result<usize, Full>
    requires { AddingAsks basis.exponents.now basis.keys.now pairs.old table.old index.old len
        × (length follow.now ≡ 64)
        × IndexList (length basis.keys.now) follow.now m.a
        × IndexList (length basis.keys.now) follow.now m.b }
    ensures { AddedAll basis.entry.exponents.now basis.entry.keys.now
        (add_lists basis.entry.exponents.now basis.entry.keys.now (list_from follow.now m.a)
        (list_from follow.now m.b) (keys_in len table.old))
        len table.old pairs.old (count_in result) table.new index.new pairs.new
        × IfOk result (λ n. n ≤ 2048) }
{
    let mut n = len;
    let mut k = m.b as usize;
    // Such a walk, too.
    while k < 64 {
        n = add_row(follow, basis, pairs, table, index, n, m.a, k)?;
        k = follow[k] as usize;
    }
    Ok(n)
}

// The products of each index with itself put in.
pub fn add_squares(
    table: &mut [u64],
    index: &mut [u16],
    len: usize,
    basis: Basis<'_>,
) -> Result<usize, Full>
    requires { ForBasis table.old index.old len basis.exponents.now basis.keys.now }
    ensures { Stored len (add_squares basis.entry.exponents.now basis.entry.keys.now (keys_in len table.old))
        table.old (count_in result) table.new index.new
        × IfOk result (λ n. n ≤ 2048) }
{
    let mut n = len;
    for &b in basis.keys {
        n = add_terms(table, index, n, basis.exponents, 2 * b)?;
    }
    key_set::shorten(table, index, n);
    Ok(n)
}

// The products of index i with itself and each index after it in its block put in.
fn add_own(
    labels: &[u8],
    basis: Basis<'_>,
    table: &mut [u64],
    index: &mut [u16],
    len: usize,
    i: usize,
) -> Result<usize, Full>
    requires { ForBasis table.old index.old len basis.exponents.now basis.keys.now
        × (length labels.now ≡ length basis.keys.now)
        × (i < length basis.keys.now) }
    ensures { Stored len
        (add_row basis.entry.exponents.now basis.entry.keys.now labels.now i
        (keys_in len table.old)) table.old (count_in result) table.new index.new
        × IfOk result (λ n. n ≤ 2048) }
{
    let mut n = len;
    for k in i..basis.keys.len() {
        if labels[i] == labels[k] {
            n = add_terms(
                table,
                index,
                n,
                basis.exponents,
                basis.keys[i] + basis.keys[k],
            )?;
        }
    }
    key_set::shorten(table, index, n);
    Ok(n)
}

// The products of every pair in one block put in.
pub fn add_blocks(
    labels: &[u8],
    basis: Basis<'_>,
    table: &mut [u64],
    index: &mut [u16],
    len: usize,
) -> Result<usize, Full>
    requires { ForBasis table.old index.old len basis.exponents.now basis.keys.now
        × (length labels.now ≡ length basis.keys.now) }
    ensures { Stored len
        (extend basis.entry.exponents.now basis.entry.keys.now labels.now (keys_in len table.old))
        table.old (count_in result) table.new index.new
        × IfOk result (λ n. n ≤ 2048) }
{
    let mut n = len;
    for i in 0..basis.keys.len() {
        n = add_own(labels, basis, table, index, n, i)?;
    }
    Ok(n)
}
