// Request 11: the widest gap of the last 32. A state goes in by value and comes back; any value is a state.
#![tactic(auto)]

ghost use Rattle.std.specs.Prelude.{◌≡◌, [], min, ◌+◌, ◌≤◌};
ghost use Rattle.calls.specs.Window.{is_refused, widest_of, held, empty_window, with_newest, window_after};
ghost use Rattle.calls.specs.Window.{push_verdict, StandsFor, AfterArrivals, FindsWidest};
ghost use Rattle.calls.specs.Zeros.{WindowZeros};

use calls::{AgedGap, Fraction, GapWindow, Pushed, Refusal, WindowVerdict};

// "the latest 32 gaps": as many as an array of a state has places.
const HELD: usize = 32;

// The state before any arrival.
pub fn empty() -> GapWindow
    ensures value { result ≡ empty_window }
    ensures arrivals { StandsFor result [] }
{
    GapWindow {
        gaps: [fractions::NONE; 32],
        count: 0,
    }
}

// Whether an arrival meets refusal 14.
#[tactic(auto, unfolding(calls::specs::Window::is_refused))]
fn is_refused(arrival: Fraction) -> bool
    ensures { result ≡ is_refused arrival }
{
    arrival.num < 0 || 1 << 48 <= arrival.num || arrival.den == 0 || 1 << 32 <= arrival.den
}

// Each gap becomes one older, and the oldest of 32 is pushed out.
fn with_newest(window: GapWindow, newest: Fraction) -> GapWindow
    ensures { result ≡ with_newest window newest }
{
    let mut gaps = [newest; 32];
    gaps[1..HELD].copy_from_slice(&window.gaps[..HELD - 1]);
    let count = window.count.min(HELD - 1) + 1;
    GapWindow { gaps, count }
}

// The widest gap held, from the oldest on: a newer one takes its place unless it is less.
fn widest(window: GapWindow) -> AgedGap
    requires { window.count ≤ 32 }
    ensures { result ≡ widest_of (held window) }
{
    let mut widest = AgedGap {
        gap: fractions::NONE,
        age: 0,
    };
    for newer in window.gaps[..window.count].iter().rev() {
        if fractions::less(*newer, widest.gap) {
            widest.age += 1;
        } else {
            widest.gap = *newer;
            widest.age = 0;
        }
    }
    widest
}

// A new gap: refusal 14, or the widest of the last 32 accepted so far, with its age; and the state after it.
pub fn push(window: GapWindow, arrival: Fraction) -> Pushed
    ensures verdict { result.verdict ≡ push_verdict window arrival }
    ensures state { result.window ≡ window_after window arrival }
    ensures arrivals { AfterArrivals window arrival result }
    ensures widest { FindsWidest window arrival result }
    ensures zeros { WindowZeros result.verdict }
{
    if is_refused(arrival) {
        return Pushed {
            window,
            verdict: WindowVerdict {
                refusal: Refusal {
                    number: 14,
                    stream: 0,
                    place: 0,
                    key: 0,
                },
                widest: fractions::NONE,
                age: 0,
            },
        };
    }
    let next = with_newest(window, arrival);
    let found = widest(next);
    Pushed {
        window: next,
        verdict: WindowVerdict {
            refusal: Refusal {
                number: 0,
                stream: 0,
                place: 0,
                key: 0,
            },
            widest: found.gap,
            age: found.age,
        },
    }
}
