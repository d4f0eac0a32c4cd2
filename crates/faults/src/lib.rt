// What is wrong with a stream that is not read: a fault by its name, and the place at which it stands. The readers of
// both streams answer with these; a call makes a refusal of one, which has its number.
#![tactic(auto)]

ghost use Rattle.std.specs.Prelude.{◌≡◌};
ghost use Rattle.faults.specs.Numbers.{fault_number};

// The refusals 2 to 6 of the table of refusals, in its order.
#[derive(Clone, Copy, Debug, PartialEq, Eq)]
pub enum Fault {
    // The stream ends in a command or without its end, or goes on after it.
    Cut,
    // A command is unknown in this stream or misplaced.
    Misplaced,
    // An operand is outside its rule.
    Unfit,
    // A monomial is repeated, or an index does not rise.
    Repeated,
    // There is one more than a count allows.
    Excess,
}

impl From<Fault> for u8 {
    ghost from_gives = { λ f n. n ≡ fault_number f };

    fn from(fault: Fault) -> u8 {
        match fault {
            Fault::Cut => 2,
            Fault::Misplaced => 3,
            Fault::Unfit => 4,
            Fault::Repeated => 5,
            Fault::Excess => 6,
        }
    }
}

// A fault and the place of the refusal that it makes.
#[derive(Clone, Copy, Debug, PartialEq, Eq)]
pub struct Misread {
    pub fault: Fault,
    pub place: usize,
}
