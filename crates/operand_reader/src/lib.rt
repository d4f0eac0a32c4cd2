// Numbers in a stream of bytes: little-endian, signed ones in two's complement.
#![tactic(auto)]

ghost use Rattle.std.specs.Prelude.{◌≡◌, ◌+◌, ◌^◌, ◌≤◌, ◌<◌, length};
ghost use Rattle.format.specs.Operands.{number, signed};
ghost use Rattle.format.specs.ProblemRules.{nonzero};

// The number that `width` bytes at an offset give: the highest byte comes last.
pub fn number_at(s: &[u8], at: usize, width: usize) -> u64
    requires { (width ≤ 8) × (at + width ≤ length s.now) }
    ensures { (result ≡ number width s.now at) × (result < 256 ^ width) }
{
    let mut bytes = [0; 8];
    bytes[..width].copy_from_slice(&s[at..at + width]);
    u64::from_le_bytes(bytes)
}

// The signed number of 16 bits.
pub fn signed16(x: u64) -> i32
    requires { x < 256 ^ 2 }
    ensures { result ≡ signed 15 x }
{
    i32::from((x as u16).cast_signed())
}

// The signed number of 32 bits.
pub fn signed32(x: u64) -> i32
    requires { x < 256 ^ 4 }
    ensures { result ≡ signed 31 x }
{
    (x as u32).cast_signed()
}

// The signed number of 64 bits.
pub fn signed64(x: u64) -> i64
    ensures { result ≡ signed 63 x }
{
    x.cast_signed()
}

pub fn is_nonzero(c: i32) -> bool
    ensures { result ≡ nonzero c }
{
    c != 0
}
