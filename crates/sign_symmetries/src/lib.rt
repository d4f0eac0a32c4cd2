// Request 01: the sign symmetries of a problem, beside its blocks. The blocks call is asked first, whose refusals are
// those of this one; then the parity bytes of all exponents are gathered once, and each mask is held against them.
#![tactic(auto)]

ghost use Rattle.std.specs.Prelude.{◌≡◌, List, map, ◌++◌, ◌+◌, ◌≤◌, ℤ, length, take};
ghost use Rattle.format.specs.Commands.{given};
ghost use Rattle.format.specs.ProblemRules.{Problem, read_problem};
ghost use Rattle.flat.specs.Flat.{FlatProblem};
ghost use Rattle.closure.specs.Tables.{FlatKeys};
ghost use Rattle.calls.specs.Tables.{tables, TablesLeft};
ghost use Rattle.calls.specs.Promises.{NumberedTo, SevenExactly};
ghost use Rattle.calls.specs.Zeros.{SymmetriesZeros};
ghost use Rattle.calls.specs.Symmetries.{parity_byte, ones_in_common, is_even, passing, symmetries_of};
ghost use Rattle.calls.specs.Symmetries.{mask_byte_count, symmetries_short, refused_symmetries, symmetries_verdict};
ghost use Rattle.calls.specs.Symmetries.{mask_bytes, masks_left};
ghost use Rattle.calls.specs.Symmetries.{RefusesAsBlocks, EverySymmetry, EvenInBlocks, SymmetryGroup};
ghost use Rattle.sign_symmetries.specs.Parities.{even_all, Gathered, GivesProblem};

use calls::{Refusal, SymmetriesVerdict};

// The odd positions of an exponent, by its key: bit i for the exponent of variable i + 1.
fn parity_byte(key: u64) -> u8
    ensures { result ≡ parity_byte key }
{
    let mut byte: u64 = 0;
    let mut place: u64 = 1;
    let mut rest = key;
    for _i in 0..8usize {
        byte += rest % 2 * place;
        place *= 2;
        rest /= 256;
    }
    byte as u8
}

// Whether a mask and a byte have an even number of ones in common.
fn is_even(mask: u8, byte: u8) -> bool
    ensures { result ≡ is_even (ones_in_common mask byte) }
{
    let n = u8::count_ones(mask & byte);
    n % 2 == 0
}

// Whether a mask has an even number of ones in common with each of the bytes.
fn is_even_with_all(mask: u8, bytes: &[u8]) -> bool
    ensures { result ≡ even_all mask bytes.now }
{
    for &byte in bytes {
        if !is_even(mask, byte) {
            return false;
        }
    }
    true
}

// The parity bytes of the keys put behind the first n bytes. How many bytes there are then.
fn put_parities(bytes: &mut [u8; 512], n: usize, keys: &[u64]) -> usize
    requires { (n + length keys.now ≤ 512) × (length bytes.old ≡ 512) }
    ensures { (result ≡ n + length keys.now)
        × (take result bytes.new ≡ take n bytes.old ++ map parity_byte keys.now)
        × (length bytes.new ≡ 512) }
{
    for (i, &key) in keys.iter().enumerate() {
        bytes[n + i] = parity_byte(key);
    }
    n + keys.len()
}

// The parity bytes of all exponents of the problem in the arrays: of the objective, then of the conditions.
fn gather(keys: &[u64], sizes: &[usize], bytes: &mut [u8; 512]) -> usize
    requires { FlatKeys keys.now sizes.now × (length bytes.old ≡ 512) }
    ensures { Gathered keys.now sizes.now result bytes.new }
{
    let objective = flat::exponents(keys, sizes, flat::OBJECTIVE);
    let mut n = put_parities(bytes, 0, objective);
    for j in 1..9 {
        let condition = flat::exponents(keys, sizes, j);
        n = put_parities(bytes, n, condition);
    }
    n
}

// The masks below the limit that have an even number of ones in common with each of the bytes, listed into `out`; the
// rest of its 256 bytes is 0. How many they are.
fn list(bytes: &[u8], limit: usize, out: &mut [u8]) -> usize
    requires { (limit ≤ mask_byte_count) × (mask_byte_count ≤ length out.old) }
    ensures count { result ≡ length (passing (λ m. even_all m bytes.now) limit) }
    ensures bytes { out.new ≡ mask_bytes (passing (λ m. even_all m bytes.now) limit) out.old }
{
    out[..256].fill(0);
    let mut count = 0;
    for r in 0..limit {
        let mask = r as u8;
        if is_even_with_all(mask, bytes) {
            out[count] = mask;
            count += 1;
        }
    }
    count
}

// The sign symmetries of the problem in the arrays, in n variables, listed into `out`. How many they are.
fn write(keys: &[u64], sizes: &[usize], n: usize, out: &mut [u8]) -> usize
    requires { FlatKeys keys.now sizes.now × (n ≤ 8) × (mask_byte_count ≤ length out.old) }
    ensures { (p : Problem) (coefficients : List ℤ) → FlatProblem p keys.now coefficients sizes.now
        → p.variables ≡ n
        → (result ≡ length (symmetries_of p)) × (out.new ≡ mask_bytes (symmetries_of p) out.old) }
{
    let mut bytes = [0u8; 512];
    let count = gather(keys, sizes, &mut bytes);
    list(&bytes[..count], 1 << n, out)
}

// The sign symmetries of a stream that gives a problem, listed into `out`. How many they are. The problem is read into
// arrays of the call; the number of variables is the stream's second byte.
fn answer(problem: &[u8], out: &mut [u8]) -> usize
    requires { GivesProblem problem.now × (mask_byte_count ≤ length out.old) }
    ensures { (p : Problem) → read_problem problem.now ≡ given p
        → (result ≡ length (symmetries_of p)) × (out.new ≡ mask_bytes (symmetries_of p) out.old) }
{
    let mut keys = [0u64; 1120];
    let mut coefficients = [0i32; 544];
    let mut sizes = [0usize; 31];
    let _ = problem_reader::read(problem, &mut keys, &mut coefficients, &mut sizes);
    let n = problem[1] as usize;
    write(&keys, &sizes, n, out)
}

// All other fields are 0.
fn refuse(refusal: Refusal) -> SymmetriesVerdict
    ensures { result ≡ refused_symmetries refusal }
{
    SymmetriesVerdict { refusal, masks: 0 }
}

// The sign symmetries of a problem. `out` gets the masks, rising and each once, and zeros up to 256 bytes; `keys`,
// `high` and `low` are the work tables.
pub fn symmetries(
    problem: &[u8],
    out: &mut [u8],
    keys: &mut [u64],
    high: &mut [i64],
    low: &mut [i64],
) -> SymmetriesVerdict
    ensures verdict { let lent = tables keys.old high.old low.old in
        result ≡ symmetries_verdict (symmetries_short out.old lent) problem.now }
    ensures bytes { let lent = tables keys.old high.old low.old in
        let before = out.old in
        out.new ≡ masks_left (symmetries_short before lent) problem.now before }
    ensures tables { let lent = tables keys.old high.old low.old in
        let left = tables keys.new high.new low.new in
        TablesLeft (symmetries_short out.old lent) lent left }
    ensures numbered { NumberedTo 7 result.refusal.number }
    ensures refuses { let lent = tables keys.old high.old low.old in
        RefusesAsBlocks (symmetries_short out.old lent) problem.now result }
    ensures every { EverySymmetry problem.now result.refusal.number result.masks out.new }
    ensures even { EvenInBlocks problem.now result.refusal.number result.masks out.new }
    ensures group { SymmetryGroup problem.now result.refusal.number result.masks out.new }
    ensures zeros { SymmetriesZeros result }
    ensures seven { let lent = tables keys.old high.old low.old in
        SevenExactly (symmetries_short out.old lent) problem.now result.refusal }
{
    if out.len() < 256 {
        return refuse(certificate_judge::problem_refusal(1, 0));
    }
    let mut labels = [255u8; 576];
    let v = checker::blocks(problem, &mut labels, keys, high, low);
    let f = v.refusal;
    if f.number != 0 {
        return refuse(f);
    }
    SymmetriesVerdict {
        refusal: f,
        masks: answer(problem, out),
    }
}
