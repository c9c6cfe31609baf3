// Listed pairs.

// An issuer, and the SHA-256 digest of a message that counts as sealed by it.
#[derive(Clone, Copy, PartialEq, Eq)]
pub struct Pair {
    pub issuer: u32,
    pub digest: [u8; 32],
}
