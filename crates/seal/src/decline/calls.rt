// The numbers of declines, and the want of memory as one.
ghost use Rattle.std.specs.Prelude.{◌≡◌};
ghost use Rattle.seal.specs.Declines.{seal_number, making_number};
ghost use Rattle.seal.specs.declared.decline.MakingDecline.TheVariants.{NoMemory};

use crate::decline::{MakingDecline, SealDecline};
use std::alloc::AllocError;

impl From<SealDecline> for u32 {
    ghost from_gives = { λ why n. n ≡ seal_number why };

    fn from(why: SealDecline) -> u32 {
        why as u32
    }
}

// Want of memory has no number.
impl From<MakingDecline> for Option<u32> {
    ghost from_gives = { λ why n. n ≡ making_number why };

    fn from(why: MakingDecline) -> Option<u32> {
        match why {
            MakingDecline::Count => Some(26),
            MakingDecline::NameTwice => Some(27),
            MakingDecline::NoMemory => None,
        }
    }
}

impl From<AllocError> for MakingDecline {
    ghost from_gives = { λ _ why. why ≡ NoMemory };

    fn from(_error: AllocError) -> MakingDecline {
        Self::NoMemory
    }
}
