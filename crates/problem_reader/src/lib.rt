// The reader of the problem stream.
#![tactic(auto)]

ghost use Rattle.std.specs.Prelude.{◌≡◌, ◌≢◌, ℕ, List, ◌+◌, ◌^◌, ◌≤◌, ◌<◌, length, set, MatchResult};
ghost use Rattle.std.proofs.Math.Seq.{paste};
ghost use Rattle.counting.specs.Counting.{Bounded};
ghost use Rattle.faults.specs.Numbers.{number_in, fault_number};
ghost use Rattle.format.specs.declared.problem.Instruction.TheVariants as I;
ghost use Rattle.format.specs.ProblemRules.{Problem, problem_refusal_at};
ghost use Rattle.flat.specs.Flat.{exponents_at, coefficients_at, FlatLimits, FlatZero};
ghost use Rattle.flat.specs.TermArrays.{FilledTerms};
ghost use Rattle.problem_commands.proofs.Checks.{Passes};
ghost use Rattle.problem_storing.specs.Stores.{beginning};
ghost use Rattle.problem_reader.specs.Storing.{ReadFlat};
ghost use Rattle.problem_reader.specs.Steps.{Held, Stepped, basis_named};

use faults::{Fault, Misread};
use flat::{CONDITIONS, KINDS, ORDER, RULE};
use format::problem::{Instruction, Kind};
use problem_storing::Polynomial;

// What is read of a problem beside its arrays: the number of variables, the condition begun last, which is not laid out
// yet, and the number of conditions. Before the first condition, the last is g_0, which is 1.
#[derive(Drop)]
struct Draft {
    variables: usize,
    last: Polynomial,
    count: usize,
}

// The command at an offset with the place of the next, where it keeps the checks 3, 2 and 4.
fn command_at(draft: &Draft, s: &[u8], at: usize) -> Result<(Instruction, usize), Fault>
    requires { at < length s.now }
    ensures { (p : Problem) → p.variables ≡ draft.now.variables → length p.conditions ≡ draft.now.count
        → MatchResult result (λ t. Passes p s.now at t.0 t.1) (λ f. problem_refusal_at p s.now at ≡ fault_number f) }
{
    let byte = s[at];
    let command = problem_commands::command_of(byte);
    let len = problem_commands::length_of(byte);
    problem_commands::check_at(draft.count, command, len, s, at)?;
    let told = problem_commands::decode_at(command, s, at);
    if !problem_commands::is_allowed(draft.variables, draft.count, told) {
        return Err(Fault::Unfit);
    }
    Ok((told, at + len))
}

// The condition begun last is laid out.
fn lay_out_last(
    keys: &mut [u64; 1120],
    coefficients: &mut [i32; 544],
    sizes: &mut [usize; 31],
    draft: &Draft,
)
    requires { FilledTerms 16 32 (2 ^ 15) draft.now.last.keys draft.now.last.coefficients draft.now.last.count
        × (draft.now.count ≤ 8) }
    ensures { (keys.new ≡ paste keys.old (exponents_at draft.now.count) draft.now.last.keys draft.now.last.count)
        × (coefficients.new ≡ paste coefficients.old (coefficients_at draft.now.count) draft.now.last.coefficients draft.now.last.count)
        × (sizes.new ≡ set sizes.old (9 + draft.now.count) draft.now.last.count) }
{
    problem_storing::lay_out(keys, coefficients, draft.count, &draft.last);
    sizes[9 + draft.count] = draft.last.count;
}

// The next condition begins.
fn begin(
    kind: Kind,
    keys: &mut [u64; 1120],
    coefficients: &mut [i32; 544],
    sizes: &mut [usize; 31],
    draft: &mut Draft,
) -> Result<(), Fault>
    requires { FilledTerms 16 32 (2 ^ 15) draft.old.last.keys draft.old.last.coefficients draft.old.last.count
        × (draft.old.count ≤ 8) }
    ensures { (p : Problem) → Held p keys.old coefficients.old sizes.old draft.old.variables draft.old.last draft.old.count
        → Stepped p (beginning kind) keys.new coefficients.new sizes.new draft.new.variables draft.new.last draft.new.count (number_in result) }
{
    if 8 <= draft.count {
        return Err(Fault::Excess);
    }
    lay_out_last(keys, coefficients, sizes, draft);
    draft.last = Polynomial::empty();
    draft.count += 1;
    sizes[KINDS + draft.count] = problem_storing::kind_in_arrays(kind);
    Ok(())
}

// What a command says is stored, where it keeps the checks 5 and 6.
fn store(
    told: Instruction,
    keys: &mut [u64; 1120],
    coefficients: &mut [i32; 544],
    sizes: &mut [usize; 31],
    draft: &mut Draft,
) -> Result<(), Fault>
    requires { FlatLimits keys.old coefficients.old sizes.old
        × FilledTerms 16 32 (2 ^ 15) draft.old.last.keys draft.old.last.coefficients draft.old.last.count
        × (draft.old.count ≤ 8)
        × (basis_named told ≤ draft.old.count) }
    ensures { (p : Problem) (s : List ℕ) (at after : ℕ)
        → Held p keys.old coefficients.old sizes.old draft.old.variables draft.old.last draft.old.count
        → Passes p s at told after → Bounded 255 s → told ≢ I.End
        → Stepped p told keys.new coefficients.new sizes.new draft.new.variables draft.new.last draft.new.count (number_in result) }
{
    match told {
        Instruction::Variables(n) => {
            draft.variables = n;
            Ok(())
        }
        Instruction::Objective(key, c) => {
            problem_storing::put_objective(keys, coefficients, sizes, key, c)
        }
        Instruction::Inequality => begin(Kind::Inequality, keys, coefficients, sizes, draft),
        Instruction::Equality => begin(Kind::Equality, keys, coefficients, sizes, draft),
        Instruction::Term(key, c) => draft.last.put(key, c),
        Instruction::Member(j, key) => problem_storing::put(keys, sizes, j, 64 * j, key, 64),
        Instruction::End => Ok(()),
        Instruction::Rule(r) => {
            sizes[RULE] = r;
            Ok(())
        }
        Instruction::Order(k) => {
            sizes[ORDER] = k;
            Ok(())
        }
    }
}

// Reads a problem stream into arrays that hold zeros. The condition begun last is laid out where the next begins or the
// stream ends. The joining rule is 1 until one is named, and the sparse order 0.
pub fn read(
    s: &[u8],
    keys: &mut [u64; 1120],
    coefficients: &mut [i32; 544],
    sizes: &mut [usize; 31],
) -> Result<(), Misread>
    requires { FlatZero keys.old coefficients.old sizes.old }
    ensures { ReadFlat s.now result keys.new coefficients.new sizes.new }
{
    sizes[RULE] = 1;
    let mut draft = Draft {
        variables: 0,
        last: Polynomial::one(),
        count: 0,
    };
    let mut at = 0;
    // By steps: a command says how long it is.
    while at < s.len() {
        let (told, next) = match command_at(&draft, s, at) {
            Ok(command) => command,
            Err(fault) => return Err(Misread { fault, place: at }),
        };
        if let Instruction::End = told {
            if next < s.len() {
                return Err(Misread {
                    fault: Fault::Cut,
                    place: next,
                });
            }
            lay_out_last(keys, coefficients, sizes, &draft);
            sizes[CONDITIONS] = draft.count;
            return Ok(());
        }
        if let Err(fault) = store(told, keys, coefficients, sizes, &mut draft) {
            return Err(Misread { fault, place: at });
        }
        at = next;
    }
    Err(Misread {
        fault: Fault::Cut,
        place: at,
    })
}
