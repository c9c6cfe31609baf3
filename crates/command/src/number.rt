// Numbers as decimal digits.
ghost use Rattle.std.specs.Prelude.{◌≡◌};
ghost use Rattle.command.specs.Words.{number_of};

use crate::words::FromWord;

impl FromWord for u32 {
    ghost meaning = { number_of };

    // One to ten decimal digits, whose number fits.
    #[tactic(auto, unfolding(crate::specs::Words::number_of, crate::specs::Words::is_number, crate::specs::Words::decimal_of))]
    fn from_word(word: &[u8]) -> Option<u32> {
        if word.is_empty() || word.len() > 10 {
            return None;
        }
        // A loop: over a `fold`, that the sum fits at each turn stays open, and `parse` wants text first and would take a sign.
        let mut n: u64 = 0;
        for b in word {
            if !b.is_ascii_digit() {
                return None;
            }
            n = n * 10 + u64::from(*b - b'0');
        }
        u32::try_from(n).ok()
    }
}
