// Reading a line.
ghost use Rattle.std.specs.Prelude.{◌≡◌};
ghost use Rattle.std.specs.Option.{option_map};
ghost use Rattle.command.specs.Commands.{said, line_of, command_named, is_remark, clearance_command, seal_command, card_command, part_command, id_command, grant_command, ianda_command, show_command};

use crate::command::Command;
use crate::command::options::{Scheme, Verb};
use crate::keys::are_keys;
use crate::words::{FromWord, Words};
use card::Part;
use certificate::{Ianda, Id};

// clearance class | compartments
fn clearance<'a>(words: &mut Words<'a>) -> Option<Command<'a>>
    ensures { option_map said result ≡ clearance_command words.old }
{
    let kind = words.read()?;
    words.end()?;
    Some(Command::Clearance(kind))
}

// seal hmac NAME:KEYHEX ...
fn seal<'a>(words: &mut Words<'a>) -> Option<Command<'a>>
    ensures { option_map said result ≡ seal_command words.old }
{
    let Scheme::Hmac = words.read()?;
    let text = words.text();
    words.next()?;
    if !are_keys(text) {
        return None;
    }
    Some(Command::Seal(text))
}

// card LABEL NUMBER writable | fixed
fn card<'a>(words: &mut Words<'a>) -> Option<Command<'a>>
    ensures { option_map said result ≡ card_command words.old }
{
    let label = words.label()?;
    let number = words.read()?;
    let writable = words.read()?;
    words.end()?;
    Some(Command::Card {
        label,
        number,
        writable,
    })
}

// part LABEL K HEX
fn part<'a>(words: &mut Words<'a>) -> Option<Command<'a>>
    ensures { option_map said result ≡ part_command words.old }
{
    let label = words.label()?;
    let place = words.read()?;
    let hex = words.hex()?;
    words.end()?;
    Some(Command::Part { label, place, hex })
}

// id LABEL ISSUER SERIAL FIRST LAST SUBJECT
fn id<'a>(words: &mut Words<'a>) -> Option<Command<'a>>
    ensures { option_map said result ≡ id_command words.old }
{
    let label = words.label()?;
    let header = words.header()?;
    let subject = words.read()?;
    words.end()?;
    Some(Command::Id {
        label,
        fields: Id { header, subject },
    })
}

// privilege LABEL, or authorisation LABEL, and the fields of a grant
fn grant<'a>(words: &mut Words<'a>, place: Part) -> Option<Command<'a>>
    ensures { option_map said result ≡ grant_command place words.old }
{
    let label = words.label()?;
    let fields = words.grant()?;
    words.end()?;
    Some(Command::Grant {
        label,
        place,
        fields,
    })
}

// ianda LABEL ISSUER SERIAL FIRST LAST BASEISSUER BASESERIAL CARD TEMPLATEHEX
fn ianda<'a>(words: &mut Words<'a>) -> Option<Command<'a>>
    ensures { option_map said result ≡ ianda_command words.old }
{
    let label = words.label()?;
    let header = words.header()?;
    let base = words.base()?;
    let template = words.read()?;
    words.end()?;
    Some(Command::Ianda {
        label,
        fields: Ianda {
            header,
            base,
            template,
        },
    })
}

// show LABEL
fn show<'a>(words: &mut Words<'a>) -> Option<Command<'a>>
    ensures { option_map said result ≡ show_command words.old }
{
    let label = words.label()?;
    words.end()?;
    Some(Command::Show { label })
}

// The words after the first, by that one.
fn by_name<'a>(name: &[u8], words: &mut Words<'a>) -> Option<Command<'a>>
    ensures { option_map said result ≡ command_named name.now words.old }
{
    match Verb::from_word(name)? {
        Verb::Clearance => clearance(words),
        Verb::Seal => seal(words),
        Verb::Card => card(words),
        Verb::Part => part(words),
        Verb::Id => id(words),
        Verb::Privilege => grant(words, Part::Privilege),
        Verb::Ianda => ianda(words),
        Verb::Authorisation => grant(words, Part::Authorisation),
        Verb::Show => show(words),
    }
}

// Whether a word starts with `#`.
fn is_remark(word: &[u8]) -> bool
    ensures { result ≡ is_remark word.now }
{
    word.starts_with(b"#")
}

impl<'a> Command<'a> {
    // What a line says, which stands without its newline; None where it is not understood.
    pub fn of(line: &'a [u8]) -> Option<Command<'a>>
        ensures { option_map said result ≡ line_of line.now }
    {
        let mut words = Words::of(line);
        let Some(name) = words.next() else {
            return Some(Command::Nothing);
        };
        if is_remark(name) {
            return Some(Command::Nothing);
        }
        by_name(name, &mut words)
    }
}
