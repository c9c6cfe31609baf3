// What words stand for.
ghost use Rattle.std.specs.Prelude.{◌≡◌, ℕ, List, Option};

// A type of values that words stand for.
pub(crate) trait FromWord: Sized {
    // The value that a word stands for, if it has one.
    ghost meaning: { List ℕ → Option Self };

    fn from_word(word: &[u8]) -> Option<Self>
        ensures { result ≡ meaning word.now };
}
