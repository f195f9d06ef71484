//! Numbers and their positions.
ghost use Rattle.std.specs.Prelude.{◌≡◌};
ghost use Rattle.thp_drawing.specs.Scales.{doubled_step, plus, round_step, scaled, step_among, steps_in, times};

/// Returns the sum, saturating at the greatest number.
#[tactic(auto, unfolding(crate::specs::Scales::plus))]
pub(crate) fn plus(a: u128, b: u128) -> u128
    ensures { result ≡ plus a b }
{
    a.saturating_add(b)
}

/// Returns the product, saturating at the greatest number.
#[tactic(auto, unfolding(crate::specs::Scales::times))]
pub(crate) fn times(a: u128, b: u128) -> u128
    ensures { result ≡ times a b }
{
    a.saturating_mul(b)
}

/// Returns the height of a number, on a scale where `most` is `high`.
#[tactic(auto, unfolding(crate::specs::Scales::scaled))]
pub(crate) fn scaled(high: u128, number: u128, most: u128) -> u128
    ensures { result ≡ scaled high number most }
{
    times(high, number) / most.max(1)
}

/// Returns how often a step fits into a number.
#[tactic(auto, unfolding(crate::specs::Scales::steps_in))]
pub(crate) fn steps_in(step: u128, number: u128) -> u128
    ensures { result ≡ steps_in step number }
{
    number / step.max(1)
}

/// Returns the step of decimal numbers, up to this one.
#[tactic(auto, unfolding(crate::specs::Scales::round_step))]
pub(crate) fn round_step(number: u128) -> u128
    ensures { result ≡ round_step number }
{
    step_among(5, 11, number)
}

/// Returns the step of numbers of frames, a power of two, up to this number.
#[tactic(auto, unfolding(crate::specs::Scales::doubled_step))]
pub(crate) fn doubled_step(number: u128) -> u128
    ensures { result ≡ doubled_step number }
{
    step_among(4, 12, number)
}

// The step up to this number, among those of this many units; each unit is twice `more` times the one before.
#[tactic(auto, using(crate::proofs::Counted::one_unit))]
fn step_among(more: u128, units: u32, number: u128) -> u128
    ensures { result ≡ step_among more units 1 number }
{
    let mut unit = 1;
    for _place in 0..units {
        if number <= times(6, unit) {
            return unit;
        }
        if number <= times(6, times(2, unit)) {
            return times(2, unit);
        }
        if number <= times(6, times(more, unit)) {
            return times(more, unit);
        }
        unit = times(times(2, more), unit);
    }
    number
}
