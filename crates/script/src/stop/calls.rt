// What stops a line.
ghost use Rattle.std.specs.Prelude.{◌≡◌};
ghost use Rattle.script.specs.declared.stop.Stop.TheVariants.{Refused, NoMemory};

use crate::stop::Stop;
use account::Reason;
use std::alloc::AllocError;

impl From<Reason> for Stop {
    ghost from_gives = { λ why stop. stop ≡ Refused why };

    fn from(why: Reason) -> Self {
        Stop::Refused(why)
    }
}

impl From<AllocError> for Stop {
    ghost from_gives = { λ e stop. stop ≡ NoMemory e };

    fn from(e: AllocError) -> Self {
        Stop::NoMemory(e)
    }
}
