// The support set: keys in a lent table, its first `len` numbers, each once, in the order in which they came. An index
// finds them: its place key % d, where d is its divisor, has one more than the place of the last key with that
// remainder, or 0, and its place 4096 + p has the same for the keys before place p, so that a search goes from the last
// key with a remainder to the first.
//
// The divisor is FIRST, with which few keys of the problems that are posed share a place. As the remainder of a sum is
// the sum of remainders, a problem can be made whose keys nearly all have one; then the searches would be long. So a
// key that is put in behind more than LONG others leaves a mark, and `shorten` makes the index anew with another divisor.
// Place BELOW of the index has how far its divisor is below FIRST, and place MARK the mark; a remainder is below both.
#![tactic(auto)]

ghost use Rattle.std.specs.Prelude.{◌≡◌, ℕ, ◌+◌, ◌%◌, ◌≤◌, ◌<◌, length, get_or, take, IfOk};
ghost use Rattle.joining_rule.specs.Sets.{member, insert};
ghost use Rattle.key_set.specs.Table.{first, divisor_in, keys_in, Holds, Divided, Indexed, Linked, noted, Finds, count_in, Stored, BesideMark};

// A divisor with which few keys share a place. Any number up to 4,094 would do.
pub const FIRST: usize = 3821;

const BELOW: usize = 4095;

const MARK: usize = 4094;

// A search among more than so many keys of one remainder is long.
const LONG: usize = 16;

// The next divisor is so much lower; none is below 3,405. With each of these, as with the first, the keys of up to four
// variables are spread well: one of them is found in at most 2.4 steps on average.
const STEP: u16 = 26;

const LAST: u16 = 416;

// The divisor of an index.
pub fn divisor(index: &[u16]) -> usize
    requires { Divided index.now }
    ensures { result ≡ divisor_in index.now }
{
    FIRST - index[BELOW] as usize
}

// The place of a key's remainder in an index whose divisor is the first.
pub fn first_slot(key: u64) -> usize
    ensures { result ≡ key % first }
{
    (key % 3821) as usize
}

// The place of a key's remainder in the index. A division by a constant is the faster one.
pub fn slot(index: &[u16], key: u64) -> usize
    requires { Divided index.now }
    ensures { result ≡ key % divisor_in index.now }
{
    let d = divisor(index);
    if d == FIRST {
        return first_slot(key);
    }
    (key % d as u64) as usize
}

// That of a sum of two keys, from theirs, where the divisor is d. For a loop over many sums with one divisor the
// compiler makes two, and in the one for the first divisor d is a constant.
pub fn slot_of_sum(d: usize, a: usize, b: usize) -> usize
    requires { (a < d) × (b < d) × (d ≤ first) }
    ensures { result ≡ (a + b) % d }
{
    let sum = a + b;
    if d == FIRST {
        if sum < FIRST {
            return sum;
        }
        return sum - FIRST;
    }
    if sum < d {
        return sum;
    }
    sum - d
}

// Looks a key up whose place in the index is known: Ok with where it stands, or Err with how many keys have its
// remainder, where it stands nowhere.
pub fn find_at(
    table: &[u64],
    index: &[u16],
    len: usize,
    key: u64,
    at: usize,
) -> Result<usize, usize>
    requires { (Holds table.now len × Indexed index.now table.now len) × (at ≡ key % divisor_in index.now) }
    ensures { Finds key (take len table.now) result }
{
    let mut v = index[at] as usize;
    let mut steps = 0;
    // No `for`: it goes from link to link.
    while 0 < v {
        let p = v - 1;
        if table[p] == key {
            return Ok(p);
        }
        v = index[4096 + p] as usize;
        steps += 1;
    }
    Err(steps)
}

// Looks any key up, in the same way.
pub fn find(table: &[u64], index: &[u16], len: usize, key: u64) -> Result<usize, usize>
    requires { Holds table.now len × Indexed index.now table.now len }
    ensures { Finds key (take len table.now) result }
{
    find_at(table, index, len, key, slot(index, key))
}

// Whether a key is in the set.
pub fn contains(table: &[u64], index: &[u16], len: usize, key: u64) -> bool
    requires { Holds table.now len × Indexed index.now table.now len }
    ensures { result ≡ member key (keys_in len table.now) }
{
    find(table, index, len, key).is_ok()
}

// Whether a key is among the first `until` of the set.
pub fn is_before(table: &[u64], index: &[u16], until: usize, len: usize, key: u64) -> bool
    requires { Holds table.now len × Indexed index.now table.now len × (until ≤ len) }
    ensures { result ≡ member key (keys_in until table.now) }
{
    match find(table, index, len, key) {
        Ok(p) => p < until,
        Err(_) => false,
    }
}

// The index of `len` keys, with one more, whose place in the index is known.
#[tactic(auto, unfolding(crate::specs::Table::noted))]
fn note(index: &mut [u16], len: usize, at: usize)
    requires { (length index.old ≡ 6144) × (len < 2048) × (at < first) }
    ensures { index.new ≡ noted index.old len at }
{
    let last = index[at];
    index[4096 + len] = last;
    index[at] = (len + 1) as u16;
}

// The mark, where a key was put in behind so many of its remainder and these are many.
fn mark(index: &mut [u16], steps: usize)
    requires { (length index.old ≡ 6144) × (steps ≤ 2048) }
    ensures { BesideMark index.old index.new }
{
    if LONG < steps {
        index[MARK] = steps as u16;
    }
}

// The support would have more than 2,048 keys.
#[derive(Clone, Copy, Debug, PartialEq, Eq)]
pub struct Full;

// The set with a key put in whose place in the index is known, and the number of its keys.
pub fn put_at(
    table: &mut [u64],
    index: &mut [u16],
    len: usize,
    key: u64,
    at: usize,
) -> Result<usize, Full>
    requires { (Holds table.old len × Indexed index.old table.old len) × (at ≡ key % divisor_in index.old) }
    ensures { Stored len (insert key (keys_in len table.old)) table.old (count_in result) table.new
        index.new
        × IfOk result (λ n. n ≤ 2048)
        × (divisor_in index.new ≡ divisor_in index.old) }
{
    match find_at(table, index, len, key, at) {
        Ok(_) => Ok(len),
        Err(_) if 2047 < len => Err(Full),
        Err(steps) => {
            table[len] = key;
            note(index, len, at);
            mark(index, steps);
            Ok(len + 1)
        }
    }
}

// The same for any key.
pub fn put(table: &mut [u64], index: &mut [u16], len: usize, key: u64) -> Result<usize, Full>
    requires { Holds table.old len × Indexed index.old table.old len }
    ensures { Stored len (insert key (keys_in len table.old)) table.old (count_in result) table.new
        index.new
        × IfOk result (λ n. n ≤ 2048) }
{
    put_at(table, index, len, key, slot(index, key))
}

// The keys put into an index that has none, with the divisor that stands in it.
fn note_all(table: &[u64], index: &mut [u16], len: usize)
    requires { Holds table.now len × Indexed index.old table.now 0 }
    ensures { Indexed index.new table.now len }
{
    for (p, &key) in table[..len].iter().enumerate() {
        let at = slot(index, key);
        note(index, p, at);
    }
}

// The index of the keys made anew, with a divisor that is so much below the first.
fn renew(table: &[u64], index: &mut [u16], len: usize, below: u16)
    requires { Holds table.now len × (length index.old ≡ 6144) × (below < first) }
    ensures { Indexed index.new table.now len }
{
    index[..4096].fill(0);
    index[BELOW] = below;
    note_all(table, index, len);
}

// The index made anew with the next divisor, where a mark was left that is high: with each divisor it may be higher, so
// that an index is made anew a few times at most. The last divisor stays.
pub fn shorten(table: &[u64], index: &mut [u16], len: usize)
    requires { Holds table.now len × Indexed index.old table.now len }
    ensures { Indexed index.new table.now len }
{
    let below = index[BELOW];
    if below < LAST && LONG + below as usize / 2 < index[MARK] as usize {
        renew(table, index, len, below + STEP);
    }
}

// How many keys stand before the one at place p with its remainder; `most` where there are as many or more.
fn depth(index: &[u16], p: usize, most: usize) -> usize
    requires { Linked index.now (p + 1) × (most ≤ 4097) }
    ensures { result ≤ most }
{
    let mut v = index[4096 + p] as usize;
    for n in 0..most {
        if v == 0 {
            return n;
        }
        v = index[4096 + (v - 1)] as usize;
    }
    most
}

// Whether few keys share a remainder: at most two stand before a key, on average.
fn is_spread(index: &[u16], len: usize) -> bool
    requires { Linked index.now len }
{
    let mut left = 2 * len;
    for p in 0..len {
        let n = depth(index, p, left + 1);
        if left < n {
            return false;
        }
        left -= n;
    }
    true
}

// The index made anew with the first divisor that spreads the keys, or with the last one.
fn spread(table: &[u64], index: &mut [u16], len: usize)
    requires { Holds table.now len × (length index.old ≡ 6144) }
    ensures { Indexed index.new table.now len }
{
    renew(table, index, len, 0);
    for k in 1..=LAST / STEP {
        if is_spread(index, len) {
            return;
        }
        renew(table, index, len, k * STEP);
    }
}

// The set with its last key put in, as by `put`. From then on it is only looked at, so the keys are spread anew where
// many of them shared a remainder with any of the divisors so far.
pub fn put_last(table: &mut [u64], index: &mut [u16], len: usize, key: u64) -> Result<usize, Full>
    requires { Holds table.old len × Indexed index.old table.old len }
    ensures { Stored len (insert key (keys_in len table.old)) table.old (count_in result) table.new
        index.new
        × IfOk result (λ n. n ≤ 2048) }
{
    let n = put(table, index, len, key)?;
    if index[BELOW] == 0 && index[MARK] == 0 {
        return Ok(n);
    }
    spread(table, index, n);
    Ok(n)
}
