// The commands of the certificate stream, one by one: which a byte names, how long it is, what it says, and the checks
// that it may be refused by.
#![tactic(auto)]

ghost use Rattle.std.specs.Prelude.{◌≡◌, ◌+◌, ◌≤◌, length};
ghost use Rattle.format.specs.ProblemRules.{Problem};
ghost use Rattle.format.specs.Layouts.{ZeroUnknown};
ghost use Rattle.format.specs.declared.certificate.Command.TheVariants as C;
ghost use Rattle.format.specs.CertificateLayout.{certificate_command, certificate_size, certificate_decoded};
ghost use Rattle.format.specs.CertificateRules.{Certificate, entry_placed, certificate_placed, entry_fits, certificate_operands_fit, index_repeated, certificate_repeated, rows_full, certificate_full};
ghost use Rattle.certificate_commands.specs.Kept.{Sized, ProblemSizes, progress_of, ProgressWithin};

use format::certificate::{Command, Header, Instruction};

// What the checks of a command look at: how many rows have begun, the basis of the row begun last, and the least index
// that its next entry may have.
#[derive(Clone, Copy, Debug, Default, PartialEq, Eq)]
pub struct Progress {
    pub rows: usize,
    pub basis: usize,
    pub floor: usize,
}

#[tactic(auto, unfolding(format::specs::CertificateLayout::certificate_command))]
pub fn command_of(byte: u8) -> Command
    ensures { result ≡ certificate_command byte }
{
    match byte {
        0x10 => Command::Header,
        0x11 => Command::Row,
        0x12 => Command::Entry,
        0x13 => Command::End,
        0x14 => Command::EqualityRow,
        0x15 => Command::WideEntry,
        _ => Command::Unknown,
    }
}

// The length of the command that a byte names, with its byte; 0 where it names none.
#[tactic(auto, unfolding(format::specs::CertificateLayout::certificate_command))]
pub fn length_of(byte: u8) -> usize
    ensures layout { result ≡ certificate_size (certificate_command byte) }
    ensures unknown { ZeroUnknown C.Unknown (certificate_command byte) result }
{
    match byte {
        0x13 => 1,
        0x11 | 0x12 | 0x14 => 4,
        0x15 => 6,
        0x10 => 10,
        0x00..=0x0F | 0x16..=0xFF => 0,
    }
}

// Whether an entry may stand at an offset, by either command.
#[tactic(auto, using(crate::proofs::Asked::rows_are))]
fn entry_placed(g: Progress, at: usize) -> bool
    ensures { (c : Certificate) → g ≡ progress_of c → result ≡ entry_placed c at }
{
    0 < at && 0 < g.rows
}

// Whether a command may stand at an offset.
pub fn is_placed(g: Progress, at: usize, command: Command) -> bool
    ensures { (c : Certificate) → g ≡ progress_of c → result ≡ certificate_placed c at command }
{
    match command {
        Command::Header => at == 0,
        Command::Row | Command::EqualityRow | Command::End => 0 < at,
        Command::Entry | Command::WideEntry => entry_placed(g, at),
        Command::Unknown => false,
    }
}

// A command with its operands, which stand after its byte.
#[tactic(auto, unfolding(format::specs::Operands::number))]
pub fn decode_at(command: Command, s: &[u8], at: usize) -> Instruction
    requires { at + certificate_size command ≤ length s.now }
    ensures { result ≡ certificate_decoded command s.now at }
{
    match command {
        Command::Header => {
            Instruction::Header(
                s[at + 1],
                operand_reader::number_at(s, at + 2, 2) as u16,
                operand_reader::signed32(operand_reader::number_at(s, at + 4, 4)),
                operand_reader::number_at(s, at + 8, 2) as u16,
            )
        }
        Command::Row => {
            Instruction::Row(s[at + 1], operand_reader::number_at(s, at + 2, 2) as u16)
        }
        Command::Entry => {
            Instruction::Entry(
                s[at + 1],
                operand_reader::signed16(operand_reader::number_at(s, at + 2, 2)),
            )
        }
        Command::End | Command::Unknown => Instruction::End,
        Command::EqualityRow => {
            Instruction::EqualityRow(
                s[at + 1],
                operand_reader::signed16(operand_reader::number_at(s, at + 2, 2)),
            )
        }
        Command::WideEntry => {
            Instruction::WideEntry(
                s[at + 1],
                operand_reader::signed32(operand_reader::number_at(s, at + 2, 4)),
            )
        }
    }
}

// Whether an entry's operands keep their rules, by either command.
#[tactic(auto, using(crate::proofs::Asked::size_is))]
fn entry_fits(sizes: &[usize], g: Progress, i: u8, l: i32) -> bool
    requires { ProgressWithin g × ProblemSizes sizes.now }
    ensures { (p : Problem) (c : Certificate) → Sized p sizes.now → g ≡ progress_of c
        → result ≡ entry_fits p c i l }
{
    (i as usize) < sizes[g.basis] && operand_reader::is_nonzero(l)
}

// Whether a command's operands keep their rules.
// An arm for each kind of entry: tried as one pattern of two, and Rattle's own part of the proof did not close at an i32
// that both bind.
pub fn is_allowed(sizes: &[usize], g: Progress, i: Instruction) -> bool
    requires { ProgressWithin g × ProblemSizes sizes.now }
    ensures { (p : Problem) (c : Certificate) → Sized p sizes.now → g ≡ progress_of c
        → result ≡ certificate_operands_fit p c i }
{
    match i {
        Instruction::Header(side, d, _, q) => side <= 1 && 1 <= d && 1 <= q,
        Instruction::Row(j, w) => {
            let j = j as usize;
            j <= sizes[flat::CONDITIONS] && !flat::is_equality(sizes, j) && 1 <= w
        }
        Instruction::Entry(k, l) => entry_fits(sizes, g, k, l),
        Instruction::End => true,
        Instruction::EqualityRow(j, w) => {
            let j = j as usize;
            j <= sizes[flat::CONDITIONS]
                && flat::is_equality(sizes, j)
                && operand_reader::is_nonzero(w)
        }
        Instruction::WideEntry(k, l) => entry_fits(sizes, g, k, l),
    }
}

// Whether an index does not rise, whichever kind of entry was before it.
#[tactic(auto, using(crate::proofs::Asked::below_floor))]
fn index_repeated(g: Progress, i: u8) -> bool
    ensures { (c : Certificate) → g ≡ progress_of c → result ≡ index_repeated c i }
{
    (i as usize) < g.floor
}

// Whether an entry's index does not rise.
pub fn is_repeated(g: Progress, i: Instruction) -> bool
    ensures { (c : Certificate) → g ≡ progress_of c → result ≡ certificate_repeated c i }
{
    match i {
        Instruction::Entry(k, _) | Instruction::WideEntry(k, _) => index_repeated(g, k),
        _ => false,
    }
}

// Whether there are as many rows, of either kind, as there may be.
#[tactic(auto, using(crate::proofs::Asked::rows_are))]
fn rows_full(g: Progress) -> bool
    ensures { (c : Certificate) → g ≡ progress_of c → result ≡ rows_full c }
{
    128 <= g.rows
}

// Whether a row is one too many.
pub fn is_full(g: Progress, i: Instruction) -> bool
    ensures { (c : Certificate) → g ≡ progress_of c → result ≡ certificate_full c i }
{
    match i {
        Instruction::Row(_, _) | Instruction::EqualityRow(_, _) => rows_full(g),
        _ => false,
    }
}
