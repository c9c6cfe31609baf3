ghost use Rattle.clearance.specs.Classes.{class_number, class_of, class_covers, class_meet};
ghost use Rattle.std.proofs.Common.{rules};

use super::Class;
use crate::clearance::Clearance;

impl Clearance for Class {
    ghost number_of = { class_number };

    ghost of_number = { class_of };

    ghost covers = { class_covers };

    ghost meet = { class_meet };

    ghost back = { Prim.search rules };

    ghost forth = { Prim.search rules };

    ghost reflexive = { Prim.search rules };

    ghost antisymmetric = { Prim.search rules };

    ghost transitive = { Prim.search rules };

    ghost left = { Prim.search rules };

    ghost right = { Prim.search rules };

    ghost greatest = { Prim.search rules };

    fn of(number: u32) -> Option<Self> {
        match number {
            0 => Some(Class::Unmarked),
            1 => Some(Class::Unclassified),
            2 => Some(Class::Restricted),
            3 => Some(Class::Confidential),
            4 => Some(Class::Secret),
            5 => Some(Class::TopSecret),
            _ => None,
        }
    }

    fn number(self) -> u32 {
        self as u32
    }

    fn covers(self, other: Self) -> bool {
        other <= self
    }

    fn meet(self, other: Self) -> Self {
        self.min(other)
    }
}
