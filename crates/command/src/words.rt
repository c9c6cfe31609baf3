// The words of a line, read one after another.
mod calls;
mod from_word;

pub(crate) use from_word::FromWord;
use std::marker::Model;

// What is left of a line; a contract sees the words that are left.
#[derive(Drop)]
pub(crate) struct Words<'a> {
    left: &'a [u8],
}

impl<'a> Model for Words<'a> {
    ghost use Rattle.command.specs.Words.{words};
    ghost use Rattle.command.specs.Reading.{Rest};

    ghost Value = { Rest };

    ghost view = { λ w. words w.left.now };
}
