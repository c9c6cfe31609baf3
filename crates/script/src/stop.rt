// Why a line came to no end.
use account::Reason;
use std::alloc::AllocError;

pub(crate) mod calls;

#[derive(Clone, Copy)]
pub(crate) enum Stop {
    // It is refused.
    Refused(Reason),
    // There was no memory for it.
    NoMemory(AllocError),
}
