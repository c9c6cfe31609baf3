// Seals: what makes marks and checks them.
#![tactic(auto)]

mod decline;
mod hmac;
mod key;
mod listed;
mod pair;
mod seal;

pub use decline::{MakingDecline, SealDecline};
pub use hmac::HmacSeal;
pub use key::Key;
pub use key::calls::{check_keys, key_named};
pub use listed::ListedSeal;
pub use pair::Pair;
pub use seal::Seal;

#[cfg(test)]
mod tests {
    use super::*;
    use std::alloc::{AllocError, Global};
    use std::test::Fail;

    // A key of 32 equal bytes.
    fn key(name: u32, byte: u8) -> Key {
        Key {
            name,
            key: [byte; 32],
        }
    }

    // As many keys, of the names 0, 1, 2 and so on.
    fn keys(heap: Global, n: u32) -> Result<Vec<Key>, AllocError> {
        (0..n).map(|name| key(name, 7)).collect(heap)
    }

    // As many pairs.
    fn pairs(heap: Global, n: usize) -> Result<Vec<Pair>, AllocError> {
        let pair = Pair {
            issuer: 3,
            digest: [0; 32],
        };
        Ok(vec![in heap; pair; n]?)
    }

    // The number by which no seal was made.
    fn number_of<S: Drop>(made: Result<S, MakingDecline>) -> Option<u32> {
        made.err()?.into()
    }

    #[test]
    fn keys_that_make_no_seal(rt: HostRuntime) -> Result<(), Fail> {
        let heap = rt.alloc();
        assert_eq!(rt; number_of(HmacSeal::new(keys(heap, 0)?)), Some(26));
        assert_eq!(rt; number_of(HmacSeal::new(keys(heap, 16)?)), None);
        assert_eq!(rt; number_of(HmacSeal::new(keys(heap, 17)?)), Some(26));
        let mut again = keys(heap, 2)?;
        again.push(key(0, 8))?;
        assert_eq!(rt; number_of(HmacSeal::new(again)), Some(27));
        assert_eq!(rt; Option::<u32>::from(MakingDecline::NoMemory), None);
        Ok(())
    }

    #[test]
    fn marks_of_keys(rt: HostRuntime) -> Result<(), Fail> {
        let mut two = keys(rt.alloc(), 0)?;
        two.push(key(7, 7))?;
        two.push(key(3, 3))?;
        assert_eq!(rt; key_named(two.as_slice(), 3), Some([3; 32]));
        let mut seal = HmacSeal::new(two)?;
        assert_eq!(rt; seal.name(), 7);
        let mark = seal.make(b"body")?;
        assert_eq!(rt; mark, sha256::mark(&[7; 32], b"body"));
        assert!(rt; seal.check(7, b"body", &mark));
        assert!(rt; !seal.check(7, b"bodY", &mark));
        assert!(rt; !seal.check(3, b"body", &mark));
        assert!(rt; seal.check(3, b"body", &sha256::mark(&[3; 32], b"body")));
        assert!(rt; !seal.check(9, b"body", &mark));
        Ok(())
    }

    #[test]
    fn a_list_runs_out(rt: HostRuntime) -> Result<(), Fail> {
        let heap = rt.alloc();
        assert_eq!(rt; number_of(ListedSeal::new(7, pairs(heap, 65)?)), Some(26));
        let mut seal = ListedSeal::new(7, pairs(heap, 62)?)?;
        assert_eq!(rt; seal.name(), 7);
        let mark = sha256::digest(b"body");
        assert!(rt; !seal.check(7, b"body", &mark));
        assert_eq!(rt; seal.make(b"body"), Ok(mark));
        assert!(rt; seal.check(7, b"body", &mark));
        assert!(rt; !seal.check(3, b"body", &mark));
        assert!(rt; !seal.check(7, b"bodY", &mark));
        assert_eq!(rt; seal.make(b"body"), Ok(mark));
        assert_eq!(rt; seal.make(b"body"), Err(SealDecline::NoneLeft));
        assert_eq!(rt; u32::from(SealDecline::NoneLeft), 24);
        Ok(())
    }
}
