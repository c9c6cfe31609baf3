// Reading the words of a line.
ghost use Rattle.std.specs.Prelude.{◌≡◌, ◌≤◌, length, []};
ghost use Rattle.std.specs.List.{prefix_len};
ghost use Rattle.command.specs.Reading.{Reads, word_by, next_label, next_hex, no_more};
ghost use Rattle.command.specs.Words.{blank, in_word, words};

use crate::hex::is_hex;
use crate::words::{FromWord, Words};

// Whether a byte separates words.
fn is_blank(b: u8) -> bool
    ensures { result ≡ blank b }
{
    b == b' ' || b == b'\t'
}

// How many bytes come before the first word.
fn blanks(text: &[u8]) -> usize
    ensures count { result ≡ prefix_len blank text.now }
    ensures within { result ≤ length text.now }
{
    text.iter().take_while(|b| is_blank(**b)).count()
}

// How many bytes the word has that the text begins with: the same chain with the other test, and the test alone would be no less.
fn width(text: &[u8]) -> usize
    ensures count { result ≡ prefix_len in_word text.now }
    ensures within { result ≤ length text.now }
{
    text.iter().take_while(|b| !is_blank(**b)).count()
}

impl<'a> Iterator for Words<'a> {
    ghost use Rattle.std.specs.Iterator.{YieldsFirstRef, item_count};

    type Item = &'a [u8];

    ghost next_gives = { YieldsFirstRef (λ ws. ws) };

    ghost remaining = { item_count (λ ws. ws) };

    fn next(&mut self) -> Option<&'a [u8]> {
        let (_, text) = self.left.split_at(blanks(self.left));
        let (word, left) = text.split_at(width(text));
        if word.is_empty() {
            return None;
        }
        self.left = left;
        Some(word)
    }
}

impl<'a> Words<'a> {
    // The words of a line.
    pub(crate) fn of(line: &'a [u8]) -> Words<'a>
        ensures { result ≡ words line.now }
    {
        Words { left: line }
    }

    // The text of the words that are left.
    pub(crate) fn text(&self) -> &'a [u8]
        ensures { words result.now ≡ self.now }
    {
        self.left
    }

    // The next word, as what it stands for.
    pub(crate) fn read<T: FromWord>(&mut self) -> Option<T>
        ensures { Reads (λ x. x) (word_by T.meaning) self.old self.new result }
    {
        let word = self.next()?;
        T::from_word(word)
    }

    // The next word, which is any but `-`. It and hex are parts of the line: a trait with a lifetime for these two is no shorter.
    pub(crate) fn label(&mut self) -> Option<&'a [u8]>
        ensures { Reads (λ x. x.now) next_label self.old self.new result }
    {
        let word = self.next()?;
        if word == b"-".as_slice() {
            return None;
        }
        Some(word)
    }

    // The next word, which is hex; nothing for `-`.
    pub(crate) fn hex(&mut self) -> Option<&'a [u8]>
        ensures { Reads (λ x. x.now) next_hex self.old self.new result }
    {
        let word = self.next()?;
        if word == b"-".as_slice() {
            return Some(&word[..0]);
        }
        if !is_hex(word) {
            return None;
        }
        Some(word)
    }

    // That no word is left. The unit is all there is to answer: a line that goes on is not understood, and `?` ends its reading.
    pub(crate) fn end(&mut self) -> Option<()>
        ensures { Reads (λ u. u) no_more self.old [] result }
    {
        match self.next() {
            Some(_) => None,
            None => Some(()),
        }
    }
}
