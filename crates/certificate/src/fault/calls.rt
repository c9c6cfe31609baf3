// How refusals are told.
ghost use Rattle.std.specs.Prelude.{◌≡◌};
ghost use Rattle.certificate.specs.Faults.{fault_number, told_by};

use crate::fault::{Fault, Refusal};

// The number by which a fault is told.
impl From<Fault> for u32 {
    ghost from_gives = { λ fault number. number ≡ fault_number fault };

    fn from(fault: Fault) -> u32 {
        fault as u32
    }
}

// The number of the fault, and the offset of its element.
impl From<Refusal> for (u32, usize) {
    ghost from_gives = { λ refusal told. told ≡ told_by refusal };

    fn from(refusal: Refusal) -> (u32, usize) {
        (refusal.fault.into(), refusal.at)
    }
}
