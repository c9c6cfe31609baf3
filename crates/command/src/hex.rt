// Bytes as hex digits.
ghost use Rattle.std.specs.Prelude.{◌≡◌, ◌<◌, IfOk};
ghost use Rattle.std.specs.List.{list_all};
ghost use Rattle.command.specs.Words.{hex_digit, is_hex, nibble, byte_of, unhex, is_hex_text, bytes32_of};

use crate::words::FromWord;
use std::alloc::{AllocError, Global};

// What a digit of either case stands for; any other byte counts as 0.
#[tactic(auto, unfolding(crate::specs::Words::hex_digit, crate::specs::Words::nibble))]
fn nibble_of(b: u8) -> u8
    ensures value { result ≡ nibble b }
    ensures small { result < 16 }
{
    char::from(b).to_digit(16).unwrap_or(0) as u8
}

// The byte that two digits stand for.
fn byte_of(pair: [u8; 2]) -> u8
    ensures { result ≡ byte_of pair }
{
    16 * nibble_of(pair[0]) + nibble_of(pair[1])
}

// Whether a byte is a hex digit, of either case.
#[tactic(auto, unfolding(crate::specs::Words::hex_digit))]
fn is_hex_digit(b: u8) -> bool
    ensures { result ≡ is_hex b }
{
    b.is_ascii_hexdigit()
}

// Whether every byte is a hex digit.
fn all_hex(word: &[u8]) -> bool
    ensures { result ≡ list_all is_hex word.now }
{
    word.iter().all(|b| is_hex_digit(*b))
}

// Whether a word is hex: an even number of digits, at least two.
pub(crate) fn is_hex(word: &[u8]) -> bool
    ensures { result ≡ is_hex_text word.now }
{
    word.len() >= 2 && word.len() % 2 == 0 && all_hex(word)
}

// The bytes that hex digits stand for, two digits to a byte; a digit left over stands for nothing.
pub fn bytes_of(heap: Global, hex: &[u8]) -> Result<Vec<u8>, AllocError>
    ensures { IfOk result (λ v. v.items ≡ unhex hex.now) }
{
    let (pairs, _) = hex.as_chunks::<2>();
    pairs.iter().copied().map(byte_of).collect(heap)
}

impl FromWord for [u8; 32] {
    ghost meaning = { bytes32_of };

    // 64 hex digits.
    #[tactic(auto, unfolding(crate::specs::Words::bytes32_of))]
    fn from_word(word: &[u8]) -> Option<[u8; 32]> {
        if word.len() != 64 || !all_hex(word) {
            return None;
        }
        let (pairs, _) = word.as_chunks::<2>();
        let mut bytes = [0; 32];
        // A loop: the `map` of an array holds each byte in an `Option` on the way, and a line of keys takes 1.5 times the time.
        for (i, pair) in pairs.iter().enumerate() {
            bytes[i] = byte_of(*pair);
        }
        Some(bytes)
    }
}
