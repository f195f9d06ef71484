//! Counts and tests over events, and over the numbers below a bound.
ghost use Rattle.std.specs.Prelude.{◌≡◌, ℕ, Bool};
ghost use Rattle.thp_history.specs.declared.events.What.{What};
ghost use Rattle.thp_history.specs.Prelude.{AsksBelow, AsksEvents, count_of, some_below, some_event};

use thp_history::{Event, What};

// How many events pass a test of what happened.
pub(super) fn count_events<F: Fn(&What) -> bool>(events: &[Event], test: F) -> usize
    requires { F.IsAlwaysCallable test }
    ensures { (t : What → Bool) → AsksEvents F.Fn test t → result ≡ count_of t events.now }
{
    let mut count = 0;
    for event in events {
        if test(&event.what) {
            count += 1;
        }
    }
    count
}

// Whether some event passes a test of what happened.
pub(super) fn any_event<F: Fn(&What) -> bool>(events: &[Event], test: F) -> bool
    requires { F.IsAlwaysCallable test }
    ensures { (t : What → Bool) → AsksEvents F.Fn test t → result ≡ some_event t events.now }
{
    for event in events {
        if test(&event.what) {
            return true;
        }
    }
    false
}

// Whether some number below n passes a test.
pub(super) fn any_below<F: Fn(u32) -> bool>(n: u32, test: F) -> bool
    requires { F.IsAlwaysCallable test }
    ensures { (t : ℕ → Bool) → AsksBelow F.Fn test n t → result ≡ some_below n t }
{
    for i in 0..n {
        if test(i) {
            return true;
        }
    }
    false
}
