// The digits of a factor. One of 32 bits is l = h * 2^16 + l0 with -2^15 <= l0 < 2^15, and so its products have three
// parts. A factor of 16 bits is its own l0, and has the first alone.
#![tactic(auto)]

ghost use Rattle.std.specs.Prelude.{◌≡◌, ◌≤◌, length};
ghost use Rattle.row_digits.specs.Digits.{high_digit, low_digit, HoldsDigits};

// The parts of the products: w * l0 * l0', then 2^16 * w * (l0 * h' + h * l0'), then 2^32 * w * h * h'.
#[derive(Clone, Copy, Debug, PartialEq, Eq)]
pub enum Part {
    Low,
    Cross,
    High,
}

// Half of where the digits meet, and where they meet.
const HALF: i64 = 1 << 15;

const DIGIT: i64 = 1 << 16;

// The upper digit of a factor. `>>` on a signed number rounds down, so half of 2^16 is added first, in 64 bits: the
// largest factors leave 32.
fn high_digit(l: i32) -> i32
    ensures { result ≡ high_digit l }
{
    ((i64::from(l) + HALF) >> 16) as i32
}

// The lower digit of a factor.
fn low_digit(l: i32) -> i32
    ensures { result ≡ low_digit l }
{
    (i64::from(l) - i64::from(high_digit(l)) * DIGIT) as i32
}

// Replaces each factor by its lower digit, which a factor of 16 bits is itself; whether one is wide. This and `high_digits`
// are two functions of four lines: one for both would take a closure, and the contract of that closure too.
pub fn keep_low_digits(factors: &mut [i32; 64], count: usize) -> bool
    requires { (count ≤ 64) × (length factors.old ≡ 64) }
    ensures { HoldsDigits low_digit factors.old count factors.new result }
{
    let mut wide = false;
    for k in 0..count {
        let l = factors[k];
        wide |= high_digit(l) != 0;
        factors[k] = low_digit(l);
    }
    wide
}

// The upper digit of each factor, in an array of zeros; whether one is wide.
pub fn high_digits(factors: &[i32; 64], highs: &mut [i32; 64], count: usize) -> bool
    requires { (count ≤ 64) × (length highs.old ≡ 64) }
    ensures { HoldsDigits high_digit factors.now count highs.new result }
{
    let mut wide = false;
    for k in 0..count {
        let h = high_digit(factors[k]);
        wide |= h != 0;
        highs[k] = h;
    }
    wide
}
