// Why no mark was made, and why no seal was made.

pub mod calls;

// Why a seal made no mark, with the number by which it is told.
#[derive(Clone, Copy, PartialEq, Eq, Debug)]
pub enum SealDecline {
    // It has made all the marks that it can make.
    NoneLeft = 24,
}

// Why no seal was made. One case has no number, so that none stands here.
#[derive(Clone, Copy, PartialEq, Eq, Debug)]
pub enum MakingDecline {
    // Too few or too many keys, or too many pairs.
    Count,
    // Two keys of one name.
    NameTwice,
    // There was no memory for the pairs that the seal may add.
    NoMemory,
}
