// The index of a basis's pairs i < k by their sums, which a basis above 16 monomials joins by: `basis` has the keys of its
// monomials, `exponents` those of its multiplier. Place s % 2039 of `pairs` has one more than the place 64i + k of the
// last pair whose sum has that remainder, or 0, and place LINKS + 64i + k has the same for the pairs before it. Place
// LINKS + 64k + i has, for the last pair with its sum s, 1 when every t + s is in the support, and 2 when all pairs with
// that sum are in one block. Behind stand the slots of the exponents and the remainders of the basis: those of a sum are
// found by adding.
#![tactic(auto)]

ghost use Rattle.std.specs.Prelude.{◌≡◌, ℕ, ◌+◌, ◌*◌, ◌/◌, ◌%◌, ◌≤◌, ◌<◌, length, get_or};
ghost use Rattle.round_laws.specs.Fits.{SumBits};
ghost use Rattle.joining_pairs.specs.Limits.{SmallBasis, OneBasis};
ghost use Rattle.joining_pairs.specs.Pairs.{sum_at, sum_divisor, told_at, Remainders, PairIndex, AllPairs, Slots, NoPairs, FindsSum, DoneBefore, Beside, PairsMade};

pub const LINKS: usize = 2048;

pub const SLOTS: usize = 6144;

const REMAINDERS: usize = 6176;

// The remainder of a sum.
pub fn remainder(s: u64) -> usize
    ensures { result ≡ s % sum_divisor }
{
    (s % 2039) as usize
}

// That of the sum of two indices, from theirs.
fn remainder_of(pairs: &[u16], i: usize, k: usize) -> usize
    requires { (length pairs.now ≡ 6240)
        × ((i < 64) × (get_or pairs.now (6176 + i) 0 < sum_divisor))
        × ((k < 64) × (get_or pairs.now (6176 + k) 0 < sum_divisor)) }
    ensures { result ≡ (get_or pairs.now (6176 + i) 0 + get_or pairs.now (6176 + k) 0) % sum_divisor }
{
    let sum = pairs[REMAINDERS + i] as usize + pairs[REMAINDERS + k] as usize;
    if sum < 2039 {
        return sum;
    }
    sum - 2039
}

// The sum of the pair at a place.
pub fn sum_at(basis: &[u64], p: usize) -> u64
    requires { SmallBasis basis.now × (p / 64 < length basis.now) × (p % 64 < length basis.now) }
    ensures { result ≡ sum_at basis.now p }
{
    basis[p / 64] + basis[p % 64]
}

// The place of the last pair with the sum s, whose remainder is h.
pub fn find_sum(basis: &[u64], pairs: &[u16], s: u64, h: usize) -> Option<usize>
    requires { SmallBasis basis.now × AllPairs basis.now pairs.now × (h ≡ s % sum_divisor) }
    ensures { FindsSum basis.now s result }
{
    let mut v = pairs[h] as usize;
    // No `for`: it goes from link to link.
    while 0 < v {
        let p = v - 1;
        if sum_at(basis, p) == s {
            return Some(p);
        }
        v = pairs[LINKS + p] as usize;
    }
    None
}

// Where it is told what was done with the sum of the pair at a place.
pub fn told_at(p: usize) -> usize
    requires { p < 4096 }
    ensures { result ≡ told_at p }
{
    LINKS + 64 * (p % 64) + p / 64
}

// Whether the products of the sum of two indices were put in before; from now on they were.
pub fn is_done(pairs: &mut [u16], basis: &[u64], i: usize, k: usize) -> bool
    requires { SmallBasis basis.now
        × AllPairs basis.now pairs.old
        × (i < length basis.now)
        × (k < length basis.now) }
    ensures { DoneBefore basis.now (get_or basis.now i 0 + get_or basis.now k 0)
        pairs.old result pairs.new }
{
    let Some(p) = find_sum(basis, pairs, basis[i] + basis[k], remainder_of(pairs, i, k)) else {
        return false;
    };
    let at = told_at(p);
    if 0 < pairs[at] {
        return true;
    }
    pairs[at] = 1;
    false
}

// A pair put into the index of those before it; its sum.
fn note_pair(pairs: &mut [u16], basis: &[u64], i: usize, k: usize) -> u64
    requires { SmallBasis basis.now
        × PairIndex basis.now (64 * i + k) pairs.old
        × (i < k)
        × (k < length basis.now) }
    ensures { (result ≡ get_or basis.now i 0 + get_or basis.now k 0)
        × PairIndex basis.now (64 * i + k + 1) pairs.new
        × Beside basis.now pairs.old pairs.new }
{
    let h = remainder_of(pairs, i, k);
    let p = 64 * i + k;
    let last = pairs[h];
    pairs[LINKS + p] = last;
    pairs[h] = (p + 1) as u16;
    basis[i] + basis[k]
}

// Those of index i with each index after it; the bits of their sums, with those given.
fn note_row(pairs: &mut [u16], basis: &[u64], i: usize, given: u64) -> u64
    requires { SmallBasis basis.now
        × PairIndex basis.now (64 * i) pairs.old
        × SumBits basis.now (64 * i) given
        × (i < length basis.now) }
    ensures { PairIndex basis.now (64 * (i + 1)) pairs.new
        × SumBits basis.now (64 * (i + 1)) result
        × Beside basis.now pairs.old pairs.new }
{
    let mut bits = given;
    for k in i + 1..basis.len() {
        bits |= note_pair(pairs, basis, i, k);
    }
    bits
}

// The pairs of a basis put into the index; the bits of their sums.
fn note_pairs(pairs: &mut [u16], basis: &[u64]) -> u64
    requires { SmallBasis basis.now × PairIndex basis.now 0 pairs.old }
    ensures { AllPairs basis.now pairs.new
        × SumBits basis.now (64 * length basis.now) result
        × Beside basis.now pairs.old pairs.new }
{
    let mut bits = 0;
    for i in 0..basis.len() {
        bits = note_row(pairs, basis, i, bits);
    }
    bits
}

// The slots of the exponents put into it.
fn note_slots(pairs: &mut [u16], exponents: &[u64])
    requires { NoPairs pairs.old × (length exponents.now ≤ 32) }
    ensures { Slots exponents.now pairs.new
        × ((q : ℕ) → q < 6144 → get_or pairs.new q 0 ≡ 0) }
{
    for (i, &exponent) in exponents.iter().enumerate() {
        pairs[SLOTS + i] = key_set::first_slot(exponent) as u16;
    }
}

// The remainders of the basis put into it.
fn note_remainders(pairs: &mut [u16], basis: &[u64])
    requires { (length pairs.old ≡ 6240) × (length basis.now ≤ 64) }
    ensures { Remainders basis.now pairs.new
        × ((q : ℕ) → q < 6176 → get_or pairs.new q 0 ≡ get_or pairs.old q 0) }
{
    for (i, &key) in basis.iter().enumerate() {
        pairs[REMAINDERS + i] = remainder(key) as u16;
    }
}

// The index of the pairs of a basis, made in one that holds nothing; the bits of their sums.
pub fn note(pairs: &mut [u16], basis: &[u64], exponents: &[u64]) -> u64
    requires { NoPairs pairs.old × OneBasis exponents.now basis.now }
    ensures { PairsMade exponents.now basis.now result pairs.new }
{
    note_slots(pairs, exponents);
    note_remainders(pairs, basis);
    note_pairs(pairs, basis)
}
