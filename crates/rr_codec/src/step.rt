//! Steps from expected numbers to others, up or down, as unsigned numbers.
ghost use Rattle.std.specs.Prelude.{◌≡◌, IsTrue};
ghost use Rattle.rr_codec.specs.Steps.{zigzag, unzigzag, step_to, step_from};

/// A difference as a number that is small just below 0 too: 0, up 1 as 2, down 1 as 1, and so on.
fn zigzag(difference: u128) -> u128
    ensures { result ≡ zigzag difference }
{
    if difference < 1 << 127 {
        2 * difference
    } else {
        2 * (u128::MAX - difference) + 1
    }
}

/// The difference that `zigzag` made this from.
fn unzigzag(step: u128) -> u128
    ensures { result ≡ unzigzag step }
{
    if step % 2 == 0 {
        step / 2
    } else {
        u128::MAX - step / 2
    }
}

/// Whether a number is the expected one, to which the step is 0.
#[inline(always)]
#[tactic(auto, unfolding(crate::specs::Steps::step_to))]
pub(crate) fn is_expected(expected: u128, number: u128) -> bool
    ensures same { IsTrue result → number ≡ expected }
    ensures step { IsTrue result → step_to expected number ≡ 0 }
{
    number == expected
}

/// The step from an expected number to another.
#[inline(always)]
#[tactic(auto, unfolding(crate::specs::Steps::step_to))]
pub(crate) fn step_to(expected: u128, number: u128) -> u128
    ensures { result ≡ step_to expected number }
{
    if number == expected {
        return 0;
    }
    zigzag(number.wrapping_sub(expected))
}

/// The number that a step leads to.
#[inline(always)]
#[tactic(auto, unfolding(crate::specs::Steps::step_from))]
pub(crate) fn step_from(expected: u128, step: u128) -> u128
    ensures value { result ≡ step_from expected step }
    ensures none { step ≡ 0 → result ≡ expected }
{
    if step == 0 {
        return expected;
    }
    expected.wrapping_add(unzigzag(step))
}
