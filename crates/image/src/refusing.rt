// What a check tells by the place that it found, or by a test.
ghost use Rattle.std.specs.Prelude.{◌≡◌};
ghost use Rattle.geometry.specs.Refusals.{refusal};
ghost use Rattle.image.specs.Checks.{at_first, unless};
ghost use Rattle.image.specs.Results.{as_result};

use geometry::{Reason, Refusal};

// Refuses at the place that was found, if one was.
pub(crate) fn refuse_at(found: Option<usize>, reason: Reason) -> Result<(), Refusal>
    ensures { result ≡ as_result (at_first found (λ _. reason)) }
{
    match found {
        Some(place) => Err(Refusal { reason, place }),
        None => Ok(()),
    }
}

// Refuses where a test fails.
pub(crate) fn refuse_unless(passes: bool, reason: Reason, place: usize) -> Result<(), Refusal>
    ensures { result ≡ as_result (unless passes (refusal reason place)) }
{
    if passes {
        Ok(())
    } else {
        Err(Refusal { reason, place })
    }
}
