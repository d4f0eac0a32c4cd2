// The commands of the problem stream, one by one: which a byte names, how long it is, whether it may stand at its place,
// what it says, and whether its operands keep their rules.
#![tactic(auto)]

ghost use Rattle.std.specs.Prelude.{◌≡◌, ◌+◌, ◌≤◌, ◌<◌, length};
ghost use Rattle.faults.specs.Numbers.{number_in};
ghost use Rattle.format.specs.Layouts.{ZeroUnknown};
ghost use Rattle.format.specs.declared.problem.Command.TheVariants as C;
ghost use Rattle.format.specs.ProblemLayout.{problem_command, problem_size, problem_decoded};
ghost use Rattle.format.specs.ProblemRules.{Problem, order_place, problem_placed, fitting, problem_operands_fit, problem_command_at};
ghost use Rattle.problem_commands.specs.Checks.{early};
ghost use Rattle.polynomial.specs.Monomial.{degree, within};

use faults::Fault;
use format::problem::{Command, Instruction};

// The total degree: the sum of the exponents, which are the bytes of the key.
pub fn degree_of(key: u64) -> u64
    ensures { result ≡ degree key }
{
    key.to_le_bytes()
        .iter()
        .map(|exponent| u64::from(*exponent))
        .sum()
}

// Whether the exponents of the variables above n are 0.
pub fn is_within(n: usize, key: u64) -> bool
    ensures { result ≡ within n key }
{
    if 7 < n {
        return true;
    }
    key >> (8 * n) == 0
}

#[tactic(auto, unfolding(format::specs::ProblemLayout::problem_command))]
pub fn command_of(byte: u8) -> Command
    ensures { result ≡ problem_command byte }
{
    match byte {
        1 => Command::Variables,
        2 => Command::Objective,
        3 => Command::Inequality,
        4 => Command::Term,
        5 => Command::Member,
        6 => Command::End,
        7 => Command::Equality,
        8 => Command::Rule,
        9 => Command::Order,
        _ => Command::Unknown,
    }
}

// The length of the command that a byte names, with its byte; 0 where it names none.
#[tactic(auto, unfolding(format::specs::ProblemLayout::problem_command))]
pub fn length_of(byte: u8) -> usize
    ensures layout { result ≡ problem_size (problem_command byte) }
    ensures unknown { ZeroUnknown C.Unknown (problem_command byte) result }
{
    match byte {
        0x03 | 0x06 | 0x07 => 1,
        0x01 | 0x08 | 0x09 => 2,
        0x05 => 10,
        0x04 => 11,
        0x02 => 13,
        0x00 | 0x0A..=0xFF => 0,
    }
}

// The offset at which a 09 may stand. A byte that the stream does not have is no 08.
#[tactic(auto, unfolding(format::specs::ProblemRules::order_place))]
fn order_place(s: &[u8]) -> usize
    ensures { result ≡ order_place s.now }
{
    match s {
        [_, _, 8, ..] => 4,
        _ => 2,
    }
}

// Whether a command may stand at an offset of a stream, after `count` conditions.
fn is_placed(count: usize, s: &[u8], at: usize, command: Command) -> bool
    ensures { (p : Problem) → length p.conditions ≡ count → result ≡ problem_placed p s.now at command }
{
    match command {
        Command::Variables => at == 0,
        Command::Objective => 0 < at,
        Command::Inequality => 0 < at,
        Command::Term => 0 < at && 0 < count,
        Command::Member => 0 < at,
        Command::End => 0 < at,
        Command::Unknown => false,
        Command::Equality => 0 < at,
        Command::Rule => at == 2,
        Command::Order => at == order_place(s),
    }
}

pub fn decode_at(command: Command, s: &[u8], at: usize) -> Instruction
    requires { at + problem_size command ≤ length s.now }
    ensures { result ≡ problem_decoded command s.now at }
{
    match command {
        Command::Variables => Instruction::Variables(
            operand_reader::number_at(s, at + 1, 1) as usize,
        ),
        Command::Objective => {
            Instruction::Objective(
                operand_reader::number_at(s, at + 1, 8),
                operand_reader::signed32(operand_reader::number_at(s, at + 9, 4)),
            )
        }
        Command::Inequality => Instruction::Inequality,
        Command::Term => {
            Instruction::Term(
                operand_reader::number_at(s, at + 1, 8),
                operand_reader::signed16(operand_reader::number_at(s, at + 9, 2)),
            )
        }
        Command::Member => {
            Instruction::Member(
                operand_reader::number_at(s, at + 1, 1) as usize,
                operand_reader::number_at(s, at + 2, 8),
            )
        }
        Command::End => Instruction::End,
        Command::Unknown => Instruction::End,
        Command::Equality => Instruction::Equality,
        Command::Rule => Instruction::Rule(operand_reader::number_at(s, at + 1, 1) as usize),
        Command::Order => Instruction::Order(operand_reader::number_at(s, at + 1, 1) as usize),
    }
}

// Whether a monomial is one in n variables, of total degree at most a limit.
#[tactic(auto, unfolding(format::specs::ProblemRules::fitting))]
pub fn is_fitting(n: usize, limit: u64, key: u64) -> bool
    ensures { result ≡ fitting n limit key }
{
    degree_of(key) <= limit && is_within(n, key)
}

// Whether a command's operands keep their rules, with n variables and after `count` conditions.
pub fn is_allowed(n: usize, count: usize, i: Instruction) -> bool
    ensures { (p : Problem) → p.variables ≡ n → length p.conditions ≡ count → result ≡ problem_operands_fit p i }
{
    match i {
        Instruction::Variables(m) => (1..=8).contains(&m),
        Instruction::Objective(key, c) => is_fitting(n, 32, key) && operand_reader::is_nonzero(c),
        Instruction::Inequality => true,
        Instruction::Term(key, c) => is_fitting(n, 16, key) && operand_reader::is_nonzero(c),
        Instruction::Member(j, key) => j <= count && is_fitting(n, 8, key),
        Instruction::End => true,
        Instruction::Equality => true,
        Instruction::Rule(r) => (1..=2).contains(&r),
        Instruction::Order(k) => (1..=255).contains(&k),
    }
}

// The checks 3 and 2 of the command at an offset: they need one number of what was read before it.
pub fn check_at(
    count: usize,
    command: Command,
    len: usize,
    s: &[u8],
    at: usize,
) -> Result<(), Fault>
    requires { (at < length s.now) × (command ≡ problem_command_at s.now at) × (len ≡ problem_size command) }
    ensures { (p : Problem) → length p.conditions ≡ count → number_in result ≡ early p s.now at }
{
    if !is_placed(count, s, at, command) {
        return Err(Fault::Misplaced);
    }
    if s.len() - at < len {
        return Err(Fault::Cut);
    }
    Ok(())
}
