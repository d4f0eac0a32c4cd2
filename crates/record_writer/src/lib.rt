// The record of 32 bytes that a pair's verdict gives: one for each pair of a report (request 07), and the one that a C
// program lends (request 14).
#![tactic(auto)]

ghost use Rattle.std.specs.Prelude.{◌≡◌, ◌++◌, ◌≤◌, length, drop};
ghost use Rattle.calls.specs.Report.{little_endian, unsigned, fields_of, record_bytes, record_length};

use calls::PairVerdict;

// A signed number as the 64 bits that stand for it.
pub fn bits(n: i64) -> u64
    ensures { result ≡ unsigned 63 n }
{
    n.cast_unsigned()
}

// The eight fields of a record.
#[tactic(auto, unfolding(calls::specs::Report::fields_of))]
fn fields_of(v: PairVerdict) -> [u64; 8]
    ensures { result ≡ fields_of v }
{
    let refusal = v.refusal;
    let lower = v.lower;
    let upper = v.upper;
    let p = bits(lower.num);
    let q = bits(upper.num);
    [
        u64::from(refusal.number),
        p,
        lower.den,
        q,
        upper.den,
        refusal.stream as u64,
        refusal.place as u64,
        refusal.key,
    ]
}

// The four lowest bytes of a field at the start of the part that is lent, the lowest first.
fn put_field(part: &mut [u8], x: u64)
    requires { 4 ≤ length part.old }
    ensures { part.new ≡ little_endian 4 x ++ drop 4 part.old }
{
    part[..4].copy_from_slice(&x.to_le_bytes()[..4]);
}

// The record at the start of the part that is lent; what is past it stays.
pub fn put_record(part: &mut [u8], v: PairVerdict)
    requires { record_length ≤ length part.old }
    ensures { part.new ≡ record_bytes v ++ drop record_length part.old }
{
    let fields = fields_of(v);
    for k in 0..8 {
        put_field(&mut part[4 * k..], fields[k]);
    }
}
