ghost use Rattle.std.specs.Prelude.{◌≡◌, ◌+◌, ◌*◌, ◌%◌, ◌<◌, ◌≤◌, ◌++◌, length, take, fold};
ghost use Rattle.sha256.specs.Hash.{compressed, padding_with, sha256};
ghost use Rattle.sha256.specs.Midway.{tail_blocks, digest_after};

use crate::compress::compress;
use crate::words::Words;

// The initial hash value: FIPS 180-4, 5.3.3.
pub(crate) const INITIAL: Words = Words {
    a: 0x6a09e667,
    b: 0xbb67ae85,
    c: 0x3c6ef372,
    d: 0xa54ff53a,
    e: 0x510e527f,
    f: 0x9b05688c,
    g: 0x1f83d9ab,
    h: 0x5be0cd19,
};

// The hash value that follows `start`, after some blocks.
fn hash_blocks(start: Words, blocks: &[[u8; 64]]) -> Words
    ensures { result ≡ fold compressed start blocks.now }
{
    blocks.iter().fold(start, compress)
}

// How many blocks the last `n` bytes of a message fill together with the padding.
fn tail_blocks(n: usize) -> usize
    requires { n < 64 }
    ensures value { result ≡ tail_blocks n }
    ensures few { result ≤ 2 }
    ensures room { n + 9 ≤ 64 * result }
{
    if n < 56 { 1 } else { 2 }
}

// What is left of a message after its whole blocks, with the padding of a message of `bits` bits: an array of two blocks, of which the second
// is read where `tail_blocks` says that there are two.
fn tail(rest: &[u8], bits: u64) -> [u8; 128]
    requires { length rest.now < 64 }
    ensures { take (64 * tail_blocks (length rest.now)) result ≡ rest.now ++ padding_with (length rest.now) bits }
{
    let n = rest.len();
    let end = 64 * tail_blocks(n);
    let mut t = [0; 128];
    t[..n].copy_from_slice(rest);
    t[n] = 0x80;
    t[end - 8..end].copy_from_slice(&bits.to_be_bytes());
    t
}

// The digest of a message whose first `done` bytes, whole blocks, have led to `start`, and which ends with `message`.
pub(crate) fn finish(start: Words, done: u64, message: &[u8]) -> [u8; 32]
    requires { done % 64 ≡ 0 }
    ensures { result ≡ digest_after start done message.now }
{
    let (whole, rest) = message.as_chunks::<64>();
    let bits = done.wrapping_add(message.len() as u64).wrapping_mul(8);
    let tail = tail(rest, bits);
    let (blocks, _) = tail.as_chunks::<64>();
    let last = &blocks[..tail_blocks(rest.len())];
    hash_blocks(hash_blocks(start, whole), last).into()
}

// The SHA-256 digest of `message`.
#[tactic(auto, using(crate::proofs::Laws::from_start))]
pub fn digest(message: &[u8]) -> [u8; 32]
    ensures { result ≡ sha256 message.now }
{
    finish(INITIAL, 0, message)
}
