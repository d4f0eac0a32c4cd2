// The state of a window of gaps (request 11) in lent numbers: the window that they stand for, and a push of a gap.
#![tactic(auto)]

ghost use Rattle.std.specs.Prelude.{◌≡◌, ◌++◌, ◌+◌, ◌*◌, ◌≤◌, ◌<◌, length, take, drop, false};
ghost use Rattle.calls.specs.Window.{push_verdict};
ghost use Rattle.verdict_numbers.specs.Numbers.{with_fraction};
ghost use Rattle.verdict_numbers.specs.States.{gap_in, window_in, state_length, state_left};

use calls::{Fraction, GapWindow, WindowVerdict};

// The gap of an age.
#[tactic(auto, unfolding(verdict_numbers::specs::States::gap_in))]
fn gap_in(state: &[u64], age: usize) -> Fraction
    requires { 2 * age + 1 < length state.now }
    ensures { result ≡ gap_in state.now age }
{
    let num = operand_reader::signed64(state[2 * age]);
    let den = state[2 * age + 1];
    Fraction { num, den }
}

// The window that the numbers stand for.
fn window_in(state: &[u64]) -> GapWindow
    requires { state_length ≤ length state.now }
    ensures { result ≡ window_in state.now }
{
    let mut gaps = [fractions::NONE; 32];
    for age in 0..32 {
        gaps[age] = gap_in(state, age);
    }
    let count = state[64] as usize;
    GapWindow { gaps, count }
}

// The new gap stands first, and the others a place later: the oldest is pushed out. From the last on, so that nothing is
// written over before it is moved. Not by std's `rotate_right`: that moves them through a room of 4 KB on the stack.
fn put_newest(state: &mut [u64], newest: Fraction)
    requires { state_length ≤ length state.old }
    ensures { let s = state.old in
        state.new ≡ with_fraction newest (take 62 s ++ drop 64 s) }
{
    for i in (2..64).rev() {
        state[i] = state[i - 2];
    }
    state[0] = record_writer::bits(newest.num);
    state[1] = newest.den;
}

// A gap arrives at the window that the numbers stand for.
#[tactic(auto, using(crate::proofs::Pushes::when_accepted), unfolding(calls::specs::Window::push_verdict, verdict_numbers::specs::States::state_left))]
pub fn push(state: &mut [u64], arrival: Fraction) -> WindowVerdict
    requires { state_length ≤ length state.old }
    ensures verdict { result ≡ push_verdict (window_in state.old) arrival }
    ensures state { state.new ≡ state_left false state.old arrival }
{
    let pushed = gap_window::push(window_in(state), arrival);
    let window = pushed.window;
    let v = pushed.verdict;
    if v.refusal.number == 0 {
        put_newest(state, arrival);
        state[64] = window.count as u64;
    }
    v
}
