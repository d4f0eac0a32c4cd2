// The reader of the certificate stream, which notes the offsets of the rows.
#![tactic(auto)]

ghost use Rattle.std.specs.Prelude.{true, ◌≡◌, length, get_or};
ghost use Rattle.format.specs.ProblemRules.{Problem};
ghost use Rattle.format.proofs.WithinLimits.{Limits};
ghost use Rattle.format.specs.CertificateRules.{certificate_command_at};
ghost use Rattle.certificate_commands.specs.Kept.{Sized, ProblemSizes, ProgressWithin};
ghost use Rattle.certificate_commands.specs.Kept.{headed, advanced};
ghost use Rattle.certificate_reader.specs.Verdicts.{Asked, Told, EntryThere, EntriesRead};
ghost use Rattle.certificate_reader.specs.Rows.{Validated};

use certificate_commands::Progress;
use faults::{Fault, Misread};
use format::certificate::{Command, Header, Instruction};

// Before the first command.
const NO_HEADER: Header = Header {
    side: 0,
    scale: 0,
    p: 0,
    q: 0,
};

// What a stream that is read gives: its header, and how many rows it has.
#[derive(Clone, Copy)]
pub struct Reading {
    pub header: Header,
    pub rows: usize,
}

// The checks of a command that stands at an offset, in their order: the first that it fails, or what it says. Each
// command is decoded once, for its checks and for what is kept of it. Where the command is a constant the compiler leaves
// out what is asked of the others.
#[tactic(auto, unfolding(format::specs::CertificateRules::certificate_refusal_at, format::specs::Commands::first_refusal))]
fn verdict_of(
    command: Command,
    sizes: &[usize],
    g: Progress,
    s: &[u8],
    at: usize,
) -> Result<Instruction, Fault>
    requires { Asked sizes.now g s.now at × (command ≡ certificate_command_at s.now at) }
    ensures { Told sizes.now g s.now at result }
{
    if !certificate_commands::is_placed(g, at, command) {
        return Err(Fault::Misplaced);
    }
    if s.len() - at < certificate_commands::length_of(s[at]) {
        return Err(Fault::Cut);
    }
    let instruction = certificate_commands::decode_at(command, s, at);
    if !certificate_commands::is_allowed(sizes, g, instruction) {
        return Err(Fault::Unfit);
    }
    if certificate_commands::is_repeated(g, instruction) {
        return Err(Fault::Repeated);
    }
    if certificate_commands::is_full(g, instruction) {
        return Err(Fault::Excess);
    }
    Ok(instruction)
}

// Those of a row by command 11, apart, so that they are compiled for it alone.
#[tactic(auto, unfolding(format::specs::CertificateLayout::certificate_command))]
fn row_verdict(sizes: &[usize], g: Progress, s: &[u8], at: usize) -> Result<Instruction, Fault>
    requires { Asked sizes.now g s.now at × (get_or s.now at 0 ≡ 0x11) }
    ensures { Told sizes.now g s.now at result }
{
    verdict_of(Command::Row, sizes, g, s, at)
}

// The checks of the command at an offset.
fn verdict_at(sizes: &[usize], g: Progress, s: &[u8], at: usize) -> Result<Instruction, Fault>
    requires { Asked sizes.now g s.now at }
    ensures { Told sizes.now g s.now at result }
{
    match s[at] {
        0x11 => row_verdict(sizes, g, s, at),
        byte => verdict_of(certificate_commands::command_of(byte), sizes, g, s, at),
    }
}

// The header after a command that is not refused.
fn header_after(t: Header, i: Instruction) -> Header
    ensures { result ≡ headed t i }
{
    match i {
        Instruction::Header(side, scale, p, q) => {
            Header {
                side: side as usize,
                scale,
                p,
                q,
            }
        }
        _ => t,
    }
}

// The progress after a command that is not refused: a row is begun on its basis, and the index after an entry's is above
// it.
fn progress_after(g: Progress, i: Instruction) -> Progress
    requires { ProgressWithin g }
    ensures { result ≡ advanced g i }
{
    match i {
        Instruction::Row(j, _) | Instruction::EqualityRow(j, _) => {
            Progress {
                rows: g.rows + 1,
                basis: j as usize,
                floor: 0,
            }
        }
        Instruction::Entry(k, _) | Instruction::WideEntry(k, _) => {
            Progress {
                floor: (k as usize) + 1,
                ..g
            }
        }
        Instruction::Header(_, _, _, _) | Instruction::End => g,
    }
}

// Whether an entry by command 12 stands at an offset.
fn is_entry(s: &[u8], at: usize) -> bool
    ensures { result ≡ true → EntryThere s.now at }
{
    at < s.len() && s[at] == 0x12
}

// Where a run of entries ends, and the progress there.
#[derive(Clone, Copy)]
pub struct Run {
    pub at: usize,
    pub progress: Progress,
}

// The entries by command 12 from an offset on, up to the first that a check refuses, or another command. Most commands
// of a certificate are such entries: they are read in a loop of their own.
fn entry_run(sizes: &[usize], g: Progress, s: &[u8], from: usize) -> Run
    requires { ProgressWithin g × ProblemSizes sizes.now }
    ensures { EntriesRead sizes.now s.now g from result.progress result.at }
{
    let mut at = from;
    let mut progress = g;
    // By steps: it ends at another command, or at an entry that a check refuses.
    while is_entry(s, at)
        && let Ok(entry) = verdict_of(Command::Entry, sizes, progress, s, at)
    {
        progress = progress_after(progress, entry);
        at += 4;
    }
    Run { at, progress }
}

// Reads a certificate stream command by command, and notes the offsets of the rows: row r stands from starts[r] to
// starts[r + 1]. The row begun last ends, so far, where the next command begins.
#[tactic(auto, using(crate::proofs::Kept::turns))]
pub fn validate(sizes: &[usize], s: &[u8], starts: &mut [usize; 129]) -> Result<Reading, Misread>
    requires { ProblemSizes sizes.now × (length starts.old ≡ 129) }
    ensures { (p : Problem) → Limits p → Sized p sizes.now
        → Validated p s.now result starts.new }
{
    let mut header = NO_HEADER;
    let mut progress = Progress::default();
    let mut at = 0;
    // By offset: the next command stands where this one and the entries behind it end.
    while at < s.len() {
        let i = match verdict_at(sizes, progress, s, at) {
            Ok(i) => i,
            Err(fault) => return Err(Misread { fault, place: at }),
        };
        let byte = s[at];
        let next = at + certificate_commands::length_of(byte);
        if byte == 0x13 {
            if next < s.len() {
                return Err(Misread {
                    fault: Fault::Cut,
                    place: next,
                });
            }
            return Ok(Reading {
                header,
                rows: progress.rows,
            });
        }
        header = header_after(header, i);
        let run = entry_run(sizes, progress_after(progress, i), s, next);
        progress = run.progress;
        at = run.at;
        starts[progress.rows] = at;
    }
    Err(Misread {
        fault: Fault::Cut,
        place: at,
    })
}
