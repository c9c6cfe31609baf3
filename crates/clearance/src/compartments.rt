ghost use Rattle.std.specs.Prelude.{◌<◌};

use crate::class::Class;

pub mod kind;

// A class, and a bit for each of 16 compartments.
#[derive(Clone, Copy, Debug, PartialEq, Eq)]
pub struct Compartments {
    class: Class,
    bits: u16,
    ghost fits: { bits < 65536 },
}
