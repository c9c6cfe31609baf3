// Short runs of bytes, held without a heap.
#![tactic(auto)]

mod fixed;

pub use fixed::{FixedBytes, TooLong};

#[cfg(test)]
mod tests {
    use super::*;
    use std::test::Fail;

    #[test]
    fn room(rt: HostRuntime) {
        let mut held: FixedBytes<4> = FixedBytes::new();
        assert!(rt; held.as_slice().is_empty());
        let answers = [
            held.extend(&[1, 2, 3]),
            held.extend(&[4, 5]),
            held.extend(&[6]),
            held.extend(&[]),
            held.extend(&[7]),
        ];
        assert_eq!(rt;
            answers,
            [Ok(()), Err(TooLong), Ok(()), Ok(()), Err(TooLong)]
        );
        assert_eq!(rt; held.as_slice(), [1, 2, 3, 6].as_slice());
    }

    #[test]
    fn taken(rt: HostRuntime) -> Result<(), Fail> {
        let all: FixedBytes<3> = FixedBytes::try_from([1, 2, 3].as_slice())?;
        assert_eq!(rt; all.as_slice(), [1, 2, 3].as_slice());
        let more: Result<FixedBytes<2>, TooLong> = FixedBytes::try_from([1, 2, 3].as_slice());
        assert!(rt; matches!(more, Err(TooLong)));
        Ok(())
    }
}
