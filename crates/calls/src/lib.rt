// What the calls return and leave, for all inputs, and what they promise: types here, definitions in specs/, theorems
// in proofs/. No code.
#![tactic(auto)]

// A refusal, as document 01's table numbers them: number is 0 where nothing is refused, and then the other fields are
// 0.
#[derive(Clone, Copy)]
pub struct Refusal {
    pub number: u8,
    pub stream: u8,
    pub place: usize,
    pub key: u64,
}

// A numerator over a denominator, not reduced.
#[derive(Clone, Copy)]
pub struct Fraction {
    pub num: i64,
    pub den: u64,
}

// What the blocks call returns: the number of blocks over all bases, the rounds of the joining rule, and the rule used,
// 1 or 2. All three are 0 with a refusal.
#[derive(Clone, Copy)]
pub struct BlocksVerdict {
    pub refusal: Refusal,
    pub blocks: usize,
    pub rounds: usize,
    pub rule: usize,
}

// What the check returns: the side, the bound p/q that the certificate states, the rounds and the rule used. With a
// refusal side, rounds and rule are 0 and the bound is 0 over 0.
#[derive(Clone, Copy)]
pub struct CheckVerdict {
    pub refusal: Refusal,
    pub side: usize,
    pub bound: Fraction,
    pub rounds: usize,
    pub rule: usize,
}

// What the pair returns: the bounds p/q and P/Q that the certificates state, their gap, the rounds and the rule used.
// A gap below 0 is marked as empty, with 0 over 0 in its place. With a refusal there is no mark, rounds and rule are 0
// and the fractions 0 over 0.
#[derive(Clone, Copy)]
pub struct PairVerdict {
    pub refusal: Refusal,
    pub lower: Fraction,
    pub upper: Fraction,
    pub gap: Fraction,
    pub empty: bool,
    pub rounds: usize,
    pub rule: usize,
}

// The latest gaps of a test line, the newest first: the gap of age j stands at place j, for the first `count` places,
// or for all 32. Every value is a state.
#[derive(Clone, Copy)]
pub struct GapWindow {
    pub gaps: [Fraction; 32],
    pub count: usize,
}

// A gap and its age: how many were accepted after it.
#[derive(Clone, Copy)]
pub struct AgedGap {
    pub gap: Fraction,
    pub age: usize,
}

// What a push returns: the widest gap held and its age. With a refusal the widest is 0 over 0 and the age is 0.
#[derive(Clone, Copy)]
pub struct WindowVerdict {
    pub refusal: Refusal,
    pub widest: Fraction,
    pub age: usize,
}

// What a push leaves: the state, and what it returns.
#[derive(Clone, Copy)]
pub struct Pushed {
    pub window: GapWindow,
    pub verdict: WindowVerdict,
}

// What the check says of two certificates for one problem, of each as if it were alone.
#[derive(Clone, Copy)]
pub struct TwoChecks {
    pub first: CheckVerdict,
    pub second: CheckVerdict,
}

// Which of two certificates comes back. Neither: an empty part of the first does.
#[derive(Clone, Copy)]
pub enum Chosen {
    First,
    Second,
    Neither,
}

// What is decided of two certificates for one problem: the refusal that four lent numbers receive, all 0 where a
// certificate comes back, and which of the two that is.
#[derive(Clone, Copy)]
pub struct SupersedingVerdict {
    pub refusal: Refusal,
    pub chosen: Chosen,
}

// What the symmetries call returns: the number of sign symmetries, 0 with a refusal.
#[derive(Clone, Copy)]
pub struct SymmetriesVerdict {
    pub refusal: Refusal,
    pub masks: usize,
}

// What the report returns: how many pairs were accepted, the smallest of their lower bounds and the largest of their
// upper ones; 0 over 0 where none was. With a refusal all are 0.
#[derive(Clone, Copy)]
pub struct ReportVerdict {
    pub refusal: Refusal,
    pub accepted: usize,
    pub lower: Fraction,
    pub upper: Fraction,
}

// The joining rules that two problems use.
#[derive(Clone, Copy)]
pub struct RulesUsed {
    pub first: usize,
    pub second: usize,
}

// What the call on two problems and a pair for each returns: the sum of the lower bounds and of the upper bounds, each
// over the product of the denominators, and the rule used by each problem. With a refusal the sums are 0 over 0 and the
// rules 0; the second problem's pair has the streams 3 to 5. As a bound is a number of 32 bits over one of 16, a sum's
// numerator is below 2^48 in size and its denominator below 2^32.
#[derive(Clone, Copy)]
pub struct SumVerdict {
    pub refusal: Refusal,
    pub lower: Fraction,
    pub upper: Fraction,
    pub rules: RulesUsed,
}

// What the call on changes of the objective returns: the bound of a lower certificate, moved by the changes. With a
// refusal the bound is 0 over 0.
#[derive(Clone, Copy)]
pub struct AdjustedVerdict {
    pub refusal: Refusal,
    pub bound: Fraction,
}

// What the office's call returns: what the check says of the certificate with its notes removed, with places as sent,
// and the number of notes. That is 0 with a refusal.
#[derive(Clone, Copy)]
pub struct OfficeVerdict {
    pub check: CheckVerdict,
    pub notes: usize,
}
