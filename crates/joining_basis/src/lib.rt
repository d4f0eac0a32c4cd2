// The joining of one basis: a basis above PLAIN monomials joins by the members that came last, through the index of its
// pairs; a smaller one by its pairs, and needs no index. The arrays are those of joining_pairs, joining_products and
// joining_blocks.
//
// The five arrays that change go as one value, `Tables` of joining_blocks; `join` alone takes them one by one, as the round
// lends them.
#![tactic(auto)]

ghost use Rattle.std.specs.Prelude.{◌≡◌, ℕ, ◌+◌, ◌*◌, ◌/◌, ◌%◌, ◌^◌, ◌<◌, ◌≤◌, false, cond, List, length, take, ◌==◌, slice_index, IfOk};
ghost use Rattle.counting.specs.Counting.{Bounded};
ghost use Rattle.joining_rule.specs.Join.{linked};
ghost use Rattle.key_set.specs.Table.{keys_in};
ghost use Rattle.round_laws.specs.Joins.{WithSum, Through, SomeOf, LinkedIn};
ghost use Rattle.round_laws.specs.Fits.{SumBits, Fitting};
ghost use Rattle.joining_pairs.specs.Limits.{ForSums, ForBasis};
ghost use Rattle.joining_pairs.specs.Pairs.{sum_at, LastPair};
ghost use Rattle.joining_products.specs.Adding.{plain};
ghost use Rattle.joining_blocks.specs.Standing.{standing, reached, latest, Ready, Grew, JoiningAsks};
ghost use Rattle.joining_blocks.specs.Tables.{standing_at, SameTables};

use joining_blocks::{Reach, Tables};
use joining_products::Basis;
use key_set::Full;

// Whether t + s is among the members before `until` for some exponent t of the multiplier.
fn is_linked(
    table: &[u64],
    index: &[u16],
    until: usize,
    len: usize,
    exponents: &[u64],
    s: u64,
) -> bool
    requires { ForSums table.now index.now len exponents.now s × (until ≤ len) }
    ensures { result ≡ linked (keys_in until table.now) exponents.now s }
{
    for &t in exponents {
        if key_set::is_before(table, index, until, len, t + s) {
            return true;
        }
    }
    false
}

// The blocks of every two indices with the sum of the last such pair, at a place, made one.
fn join_chain(
    tables: &mut Tables<'_>,
    basis: Basis<'_>,
    start: Reach,
    first: usize,
) -> Result<Reach, Full>
    requires { Ready basis.exponents.now basis.keys.now (standing_at tables.old start)
        × (plain < length basis.keys.now)
        × LastPair basis.keys.now (sum_at basis.keys.now first) first }
    ensures grew { Grew basis.entry.exponents.now basis.entry.keys.now
        (WithSum basis.entry.keys.now (sum_at basis.entry.keys.now first))
        (standing_at tables.old start)
        (standing_at tables.new (reached start result)) }
    ensures room { IfOk result (λ q. q.len ≤ 2048) }
    ensures same { SameTables tables.old tables.new }
{
    let s = joining_pairs::sum_at(basis.keys, first);
    let mut r = start;
    let mut v = first + 1;
    // No `for`: it goes from link to link.
    while 0 < v {
        let p = v - 1;
        if joining_pairs::sum_at(basis.keys, p) == s {
            r = tables.join_two(basis, r, p)?;
        }
        v = tables.pairs[joining_pairs::LINKS + p] as usize;
    }
    Ok(r)
}

// The blocks of every two indices with the sum s made one, once.
fn join_sum(tables: &mut Tables<'_>, basis: Basis<'_>, start: Reach, s: u64) -> Result<Reach, Full>
    requires { Ready basis.exponents.now basis.keys.now (standing_at tables.old start)
        × (plain < length basis.keys.now) }
    ensures grew { Grew basis.entry.exponents.now basis.entry.keys.now (WithSum basis.entry.keys.now s)
        (standing_at tables.old start)
        (standing_at tables.new (reached start result)) }
    ensures room { IfOk result (λ q. q.len ≤ 2048) }
    ensures same { SameTables tables.old tables.new }
{
    let pairs = &mut *tables.pairs;
    let Some(p) = joining_pairs::find_sum(basis.keys, pairs, s, joining_pairs::remainder(s)) else {
        return Ok(start);
    };
    let at = joining_pairs::told_at(p);
    if 1 < pairs[at] {
        return Ok(start);
    }
    let r = join_chain(tables, basis, start, p)?;
    tables.pairs[at] = 2;
    Ok(r)
}

// The numbers x - t that have no bits but those, in turn, and how many they are. A number that has others is written
// over: this needs no jump, which would be foreseen badly.
fn note_fits(fits: &mut [u64; 32], exponents: &[u64], bits: u64, x: u64) -> usize
    requires { (length fits.old ≡ 32) × (length exponents.now ≤ 32) × Bounded (16 * 2 ^ 56) exponents.now }
    ensures { (length fits.new ≡ 32)
        × (result ≤ 32)
        × ((B : List ℕ) → length B ≤ 64 → SumBits B (64 * length B) bits
        → Fitting exponents.now B x (take result fits.new)) }
{
    let mut n = 0;
    for &t in exponents {
        let s = std::num::wrapping_sub_u64(x, t);
        fits[n] = s;
        n += if s | bits == bits { 1 } else { 0 };
    }
    n
}

// The blocks of every two indices with one of these sums made one.
fn join_sums(
    tables: &mut Tables<'_>,
    basis: Basis<'_>,
    start: Reach,
    sums: &[u64],
) -> Result<Reach, Full>
    requires { Ready basis.exponents.now basis.keys.now (standing_at tables.old start)
        × (plain < length basis.keys.now) }
    ensures grew { Grew basis.entry.exponents.now basis.entry.keys.now (SomeOf (WithSum basis.entry.keys.now) sums.now)
        (standing_at tables.old start)
        (standing_at tables.new (reached start result)) }
    ensures room { IfOk result (λ q. q.len ≤ 2048) }
    ensures same { SameTables tables.old tables.new }
{
    let mut r = start;
    for &s in sums {
        r = join_sum(tables, basis, r, s)?;
        if r.blocks == 1 {
            return Ok(r);
        }
    }
    Ok(r)
}

// The joining by the members that came last.
fn join_members(tables: &mut Tables<'_>, basis: Basis<'_>, start: Reach) -> Result<Reach, Full>
    requires { Ready basis.exponents.now basis.keys.now (standing_at tables.old start)
        × (plain < length basis.keys.now) }
    ensures grew { Grew basis.entry.exponents.now basis.entry.keys.now
        (Through basis.entry.exponents.now basis.entry.keys.now
        (latest tables.old.table.now start.since start.until))
        (standing_at tables.old start)
        (standing_at tables.new (reached start result)) }
    ensures room { IfOk result (λ q. q.len ≤ 2048) }
    ensures same { SameTables tables.old tables.new }
{
    let mut fits = [0u64; 32];
    let mut r = start;
    for m in start.since..start.until {
        let n = note_fits(&mut fits, basis.exponents, start.bits, tables.table[m]);
        r = join_sums(tables, basis, r, &fits[..n])?;
        if r.blocks == 1 {
            return Ok(r);
        }
    }
    Ok(r)
}

// Whether the pair at a place is to be joined: it is linked, and in two blocks.
fn is_open(tables: &Tables<'_>, basis: Basis<'_>, r: Reach, p: usize) -> bool
    requires { ForBasis tables.now.table.now tables.now.index.now r.len basis.exponents.now basis.keys.now
        × (r.until ≤ r.len)
        × (length tables.now.labels.now ≡ length basis.keys.now)
        × (p / 64 < length basis.keys.now)
        × (p % 64 < length basis.keys.now) }
    ensures { result
        ≡ cond (slice_index tables.now.labels.now (p / 64) == slice_index tables.now.labels.now (p % 64)) false
        (linked (keys_in r.until tables.now.table.now) basis.entry.exponents.now (sum_at basis.entry.keys.now p)) }
{
    if tables.labels[p / 64] == tables.labels[p % 64] {
        return false;
    }
    let s = joining_pairs::sum_at(basis.keys, p);
    is_linked(
        tables.table,
        tables.index,
        r.until,
        r.len,
        basis.exponents,
        s,
    )
}

// Index i with each index after it.
fn join_row(
    tables: &mut Tables<'_>,
    basis: Basis<'_>,
    start: Reach,
    i: usize,
) -> Result<Reach, Full>
    requires { Ready basis.exponents.now basis.keys.now (standing_at tables.old start)
        × (i < length basis.keys.now) }
    ensures grew { Grew basis.entry.exponents.now basis.entry.keys.now
        (LinkedIn basis.entry.exponents.now basis.entry.keys.now (keys_in start.until tables.old.table.now) (64 * i)
        (64 * (i + 1)))
        (standing_at tables.old start)
        (standing_at tables.new (reached start result)) }
    ensures room { IfOk result (λ q. q.len ≤ 2048) }
    ensures same { SameTables tables.old tables.new }
{
    let mut r = start;
    for k in i + 1..basis.keys.len() {
        let p = 64 * i + k;
        if is_open(tables, basis, r, p) {
            r = tables.join_two(basis, r, p)?;
        }
    }
    Ok(r)
}

// The joining by the pairs of the basis.
fn join_rows(tables: &mut Tables<'_>, basis: Basis<'_>, start: Reach) -> Result<Reach, Full>
    requires { Ready basis.exponents.now basis.keys.now (standing_at tables.old start) }
    ensures grew { Grew basis.entry.exponents.now basis.entry.keys.now
        (Through basis.entry.exponents.now basis.entry.keys.now (keys_in start.until tables.old.table.now))
        (standing_at tables.old start)
        (standing_at tables.new (reached start result)) }
    ensures room { IfOk result (λ q. q.len ≤ 2048) }
    ensures same { SameTables tables.old tables.new }
{
    let mut r = start;
    for i in 0..basis.keys.len() {
        r = join_row(tables, basis, r, i)?;
        if r.blocks == 1 {
            return Ok(r);
        }
    }
    Ok(r)
}

// The joining of a basis. One block joins nothing.
fn join_tables(tables: &mut Tables<'_>, basis: Basis<'_>, r: Reach) -> Result<Reach, Full>
    requires { JoiningAsks basis.exponents.now basis.keys.now (standing_at tables.old r) }
    ensures grew { Grew basis.entry.exponents.now basis.entry.keys.now
        (Through basis.entry.exponents.now basis.entry.keys.now (keys_in r.until tables.old.table.now))
        (standing_at tables.old r) (standing_at tables.new (reached r result)) }
    ensures room { IfOk result (λ q. q.len ≤ 2048) }
    ensures same { SameTables tables.old tables.new }
{
    if r.blocks < 2 {
        return Ok(r);
    }
    if basis.keys.len() <= joining_products::PLAIN {
        return join_rows(tables, basis, r);
    }
    join_members(tables, basis, r)
}

// The same with tables that are lent one by one.
pub fn join(
    labels: &mut [u8],
    follow: &mut [u8],
    basis: Basis<'_>,
    pairs: &mut [u16],
    table: &mut [u64],
    index: &mut [u16],
    r: Reach,
) -> Result<Reach, Full>
    requires { JoiningAsks basis.exponents.now basis.keys.now
        (standing labels.old follow.old pairs.old table.old index.old r) }
    ensures { Grew basis.entry.exponents.now basis.entry.keys.now
        (Through basis.entry.exponents.now basis.entry.keys.now (keys_in r.until table.old))
        (standing labels.old follow.old pairs.old table.old index.old r)
        (standing labels.new follow.new pairs.new table.new index.new (reached r result))
        × IfOk result (λ q. q.len ≤ 2048) }
{
    let mut tables = Tables {
        labels,
        follow,
        pairs,
        table,
        index,
    };
    join_tables(&mut tables, basis, r)
}
