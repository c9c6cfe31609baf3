// The message schedule: FIPS 180-4, 6.2.2, step 1.
ghost use Rattle.std.specs.Prelude.{◌≡◌};
ghost use Rattle.sha256.specs.Hash.{extended, block_words, schedule};

use crate::functions::small_sigma;
use std::array;

// The block's own sixteen words.
fn block_words(block: &[u8; 64]) -> [u32; 16]
    ensures { result ≡ block_words block.now }
{
    let (words, _) = block.as_chunks::<4>();
    array::from_fn(|t| u32::from_be_bytes(words[t]))
}

// The block's words and the other 48, each made of earlier ones.
fn extend(words: [u32; 16]) -> [u32; 64]
    ensures { result ≡ extended 48 words }
{
    let mut w = [0; 64];
    w[..16].copy_from_slice(&words);
    // By index, as each word is made of four that stand before it.
    for t in 0..48 {
        w[t + 16] = small_sigma::<17, 19, 10>(w[t + 14])
            .wrapping_add(w[t + 9])
            .wrapping_add(small_sigma::<7, 18, 3>(w[t + 1]))
            .wrapping_add(w[t]);
    }
    w
}

// The 64 words of a block.
pub(crate) fn schedule_of(block: &[u8; 64]) -> [u32; 64]
    ensures { result ≡ schedule block.now }
{
    extend(block_words(block))
}
