pub mod kind;

// The classes, from the lowest to the highest, each with the number that stands for it.
#[derive(Clone, Copy, Debug, PartialEq, Eq, PartialOrd, Ord)]
pub enum Class {
    Unmarked = 0,
    Unclassified = 1,
    Restricted = 2,
    Confidential = 3,
    Secret = 4,
    TopSecret = 5,
}
