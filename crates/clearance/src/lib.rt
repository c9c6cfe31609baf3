// The kinds of clearance: the numbers that stand for clearances, which clearance covers which, and what two have in common.
#![tactic(auto)]

mod class;
mod clearance;
mod compartments;

pub use class::Class;
pub use clearance::Clearance;
pub use compartments::Compartments;

#[cfg(test)]
mod tests {
    use super::*;

    // The number of the meet of what two numbers stand for.
    fn met<C: Clearance>(a: u32, b: u32) -> Option<u32> {
        Some(C::of(a)?.meet(C::of(b)?).number())
    }

    #[test]
    fn meets(rt: HostRuntime) {
        assert_eq!(rt; met::<Class>(5, 2), Some(2));
        assert_eq!(rt; met::<Class>(1, 6), None);
        assert_eq!(rt; met::<Compartments>(262150, 196620), Some(196612));
    }
}
