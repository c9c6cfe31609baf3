ghost use Rattle.clearance.specs.Compartments.{compartments_number, compartments_of, compartments_covers, compartments_meet};
ghost use Rattle.clearance.specs.Order.{compartments_back, compartments_forth, compartments_reflexive, compartments_antisymmetric, compartments_transitive, compartments_left, compartments_right, compartments_greatest};

use super::Compartments;
use crate::class::Class;
use crate::clearance::Clearance;

impl Clearance for Compartments {
    ghost number_of = { compartments_number };

    ghost of_number = { compartments_of };

    ghost covers = { compartments_covers };

    ghost meet = { compartments_meet };

    ghost back = { compartments_back };

    ghost forth = { compartments_forth };

    ghost reflexive = { compartments_reflexive };

    ghost antisymmetric = { compartments_antisymmetric };

    ghost transitive = { compartments_transitive };

    ghost left = { compartments_left };

    ghost right = { compartments_right };

    ghost greatest = { compartments_greatest };

    fn of(number: u32) -> Option<Self> {
        Some(Compartments {
            class: Class::of(number / 65536)?,
            bits: (number % 65536) as u16,
        })
    }

    fn number(self) -> u32 {
        self.class.number() * 65536 + u32::from(self.bits)
    }

    fn covers(self, other: Self) -> bool {
        self.class.covers(other.class) && self.bits & other.bits == other.bits
    }

    fn meet(self, other: Self) -> Self {
        Compartments {
            class: self.class.meet(other.class),
            bits: self.bits & other.bits,
        }
    }
}
