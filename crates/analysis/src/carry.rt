// The table's fault goes on whole, inside the run's.
ghost use Rattle.std.specs.Prelude.{◌≡◌};
ghost use Rattle.analysis.specs.declared.fault.RunFault.TheVariants.{Refused, Stopped};

use crate::fault::{Refusal, RunFault};
use output::progress::Stop;

impl From<Refusal> for RunFault {
    ghost from_gives = { λ x y. y ≡ Refused x };

    fn from(x: Refusal) -> RunFault {
        RunFault::Refused(x)
    }
}

impl From<Stop> for RunFault {
    ghost from_gives = { λ x y. y ≡ Stopped x };

    fn from(x: Stop) -> RunFault {
        RunFault::Stopped(x)
    }
}
