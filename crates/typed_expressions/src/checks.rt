//! Conditions that have to hold, and faults of a cause.

ghost use Rattle.std.specs.Prelude.{◌≡◌, Some};
ghost use Rattle.typing.specs.internal.Checks.{require};
ghost use Rattle.typing.specs.internal.Results.{Answers, fault_in};

use failure::Failure;
use trees::Place;
use typing::{Cause, Fault};

/// A fault of a cause at a place, as a failure.
pub fn refuse(cause: Cause, place: Place) -> Failure<Fault>
    ensures { fault_in result ≡ Some (record { cause = cause; place = place }) }
{
    Failure::Fault(Fault { cause, place })
}

/// Checks a condition. One that does not hold is refused, by the cause at the place.
pub fn require(holds: bool, cause: Cause, place: Place) -> Result<(), Failure<Fault>>
    ensures { Answers (λ _. tt) result (require holds cause place) }
{
    if holds {
        Ok(())
    } else {
        Err(refuse(cause, place))
    }
}
