// SHA-256 (FIPS 180-4) and HMAC-SHA-256 (RFC 2104).
#![tactic(auto)]

mod compress;
mod functions;
mod mac;
mod message;
mod schedule;
mod words;

pub use mac::mark;
pub use message::digest;

#[cfg(test)]
mod tests {
    use super::*;
    use std::array;

    // A digest as four numbers of eight bytes, to be read beside the documents.
    fn quarters(r: [u8; 32]) -> [u64; 4] {
        let (quarters, _) = r.as_chunks::<8>();
        array::from_fn(|i| u64::from_be_bytes(quarters[i]))
    }

    // The example of FIPS 180-4 with one block.
    #[test]
    fn digest_of_abc(rt: HostRuntime) {
        let quarters = quarters(digest(b"abc"));
        assert_eq!(rt;
            quarters,
            [
                0xba7816bf8f01cfea,
                0x414140de5dae2223,
                0xb00361a396177a9c,
                0xb410ff61f20015ad,
            ]
        );
    }

    // RFC 4231, test case 2.
    #[test]
    fn mark_of_case_2(rt: HostRuntime) {
        let quarters = quarters(mark(b"Jefe", b"what do ya want for nothing?"));
        assert_eq!(rt;
            quarters,
            [
                0x5bdcc146bf60754e,
                0x6a042426089575c7,
                0x5a003f089d273983,
                0x9dec58b964ec3843,
            ]
        );
    }
}
