// What stands at an offset of a certificate stream that is read: the operands of a row's command and of an entry's, and
// where the next entry stands; and the rows of such a stream.
#![tactic(auto)]

ghost use Rattle.std.specs.Prelude.{◌≡◌, ◌+◌, ◌≤◌, length};
ghost use Rattle.format.specs.declared.certificate.Command.TheVariants as C;
ghost use Rattle.format.specs.CertificateLayout.{certificate_size};
ghost use Rattle.certificate_rows.specs.Offsets.{size_at, entry_at, basis_at, weight_at, EntryStands};

// The rows of a certificate that is read: its bytes, the offsets of its rows, of which row r stands from starts[r] to
// starts[r + 1], and how many rows there are.
#[derive(Clone, Copy)]
pub struct Rows<'a> {
    pub stream: &'a [u8],
    pub starts: &'a [usize; 129],
    pub count: usize,
}

// The basis of the row whose command stands at an offset.
#[tactic(auto, unfolding(format::specs::Operands::number))]
pub fn basis_at(s: &[u8], at: usize) -> usize
    requires { at + certificate_size C.Row ≤ length s.now }
    ensures { result ≡ basis_at s.now at }
{
    s[at + 1] as usize
}

// Its weight, which has a sign where the command is 14.
pub fn weight_at(s: &[u8], at: usize) -> i64
    requires { at + certificate_size C.Row ≤ length s.now }
    ensures { result ≡ weight_at s.now at }
{
    let w = operand_reader::number_at(s, at + 2, 2);
    if s[at] == 0x14 {
        operand_reader::signed16(w) as i64
    } else {
        w as i64
    }
}

// The index of the entry whose command stands at an offset.
#[tactic(auto, unfolding(crate::specs::Offsets::entry_at, format::specs::Operands::number))]
pub fn index_at(s: &[u8], at: usize) -> u8
    requires { EntryStands s.now at }
    ensures { result ≡ (entry_at s.now at).index }
{
    s[at + 1]
}

// Its factor, which has 32 bits where the command is 15.
#[tactic(auto, unfolding(crate::specs::Offsets::entry_at, format::specs::CertificateLayout::certificate_command))]
pub fn factor_at(s: &[u8], at: usize) -> i32
    requires { EntryStands s.now at }
    ensures { result ≡ (entry_at s.now at).factor }
{
    if s[at] == 0x15 {
        let l = operand_reader::number_at(s, at + 2, 4);
        operand_reader::signed32(l)
    } else {
        let l = operand_reader::number_at(s, at + 2, 2);
        operand_reader::signed16(l)
    }
}

// The offset after it: the step of every walk over the entries of a row.
#[tactic(auto, unfolding(format::specs::CertificateLayout::certificate_command))]
pub fn after_entry(s: &[u8], at: usize) -> usize
    requires { EntryStands s.now at }
    ensures { result ≡ at + size_at s.now at }
{
    if s[at] == 0x15 { at + 6 } else { at + 4 }
}
