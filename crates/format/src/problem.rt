// The commands of the problem stream, and the kinds of its conditions.

#[derive(Clone, Copy)]
pub enum Command {
    Variables,
    Objective,
    Inequality,
    Term,
    Member,
    End,
    Unknown,
    Equality,
    Rule,
    Order,
}

// A command with its operands. A monomial is its key.
#[derive(Clone, Copy)]
pub enum Instruction {
    Variables(usize),
    Objective(u64, i32),
    Inequality,
    Term(u64, i32),
    Member(usize, u64),
    End,
    Equality,
    Rule(usize),
    Order(usize),
}

// The kind of a condition: an inequality asks that its polynomial be at least 0, an equality that it be 0.
#[derive(Clone, Copy)]
pub enum Kind {
    Inequality,
    Equality,
}
