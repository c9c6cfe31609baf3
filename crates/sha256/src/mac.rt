ghost use Rattle.std.specs.Prelude.{◌≡◌, ◌≤◌, ◌++◌, length};
ghost use Rattle.sha256.specs.Hash.{sha256};
ghost use Rattle.sha256.specs.Mac.{zero_filled, key_block, xored, hmac};

use crate::compress::compress;
use crate::message::{INITIAL, digest, finish};

// The byte that is repeated in the inner block.
const IPAD: u8 = 0x36;

// The byte that is repeated in the outer block.
const OPAD: u8 = 0x5c;

// The key with zeros up to a block.
fn fill(key: &[u8]) -> [u8; 64]
    requires { length key.now ≤ 64 }
    ensures { result ≡ zero_filled key.now }
{
    let mut b = [0; 64];
    b[..key.len()].copy_from_slice(key);
    b
}

// The key as a block.
fn block_of(key: &[u8]) -> [u8; 64]
    ensures { result ≡ key_block key.now }
{
    if key.len() <= 64 {
        fill(key)
    } else {
        fill(&digest(key))
    }
}

// The block with each byte combined with `pad` by exclusive or.
fn xor(block: [u8; 64], pad: u8) -> [u8; 64]
    ensures { result ≡ xored pad block }
{
    let mut b = block;
    // In place: the `map` of an array holds each byte in an `Option` on the way, and a mark takes a tenth more time.
    for byte in b.iter_mut() {
        *byte ^= pad;
    }
    b
}

// The digest of a message after the block combined with `pad`.
fn keyed_digest(block: [u8; 64], pad: u8, message: &[u8]) -> [u8; 32]
    ensures { result ≡ sha256 (xored pad block ++ message.now) }
{
    finish(compress(INITIAL, &xor(block, pad)), 64, message)
}

// The HMAC-SHA-256 of `message` under `key`.
#[tactic(auto, unfolding(crate::specs::Mac::hmac))]
pub fn mark(key: &[u8], message: &[u8]) -> [u8; 32]
    ensures { result ≡ hmac key.now message.now }
{
    let block = block_of(key);
    let inner = keyed_digest(block, IPAD, message);
    keyed_digest(block, OPAD, &inner)
}
