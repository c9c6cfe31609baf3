// The keys of a seal.
ghost use Rattle.std.specs.Prelude.{◌≡◌, IfOk, position, ◌==◌};
ghost use Rattle.command.specs.Keys.{key_of, keys_of, all_keys};
ghost use Rattle.command.specs.Words.{words};

use crate::words::{FromWord, Words};
use seal::Key;
use std::alloc::{AllocError, Global};

// Where the first colon stands: one call of the library, which a name gives its contract.
fn colon(word: &[u8]) -> Option<usize>
    ensures { result ≡ position (λ b. b == 58) word.now }
{
    word.iter().position(|b| *b == b':')
}

// The key that a word gives: its name, a colon and 64 hex digits.
#[tactic(auto, using(crate::proofs::Choices::key_no_colon))]
fn key_of(word: &[u8]) -> Option<Key>
    ensures { result ≡ key_of word.now }
{
    let n = colon(word)?;
    let name = u32::from_word(&word[..n])?;
    let key = <[u8; 32]>::from_word(&word[n + 1..])?;
    Some(Key { name, key })
}

// Whether each word gives a key.
pub(crate) fn are_keys(text: &[u8]) -> bool
    ensures { result ≡ all_keys (words text.now) }
{
    Words::of(text).all(|word| key_of(word).is_some())
}

// The keys that the words of a seal give, in order; a word that gives none is passed over.
pub fn keys_of(heap: Global, text: &[u8]) -> Result<Vec<Key>, AllocError>
    ensures { IfOk result (λ v. v.items ≡ keys_of text.now) }
{
    Words::of(text).filter_map(key_of).collect(heap)
}
