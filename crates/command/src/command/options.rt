// Words that choose.
ghost use Rattle.std.specs.Prelude.{◌≡◌, map};
ghost use Rattle.command.specs.Commands.{chosen, kind_of, writable_of, place_of, scheme_of, verb_of};

use crate::command::Kind;
use crate::words::FromWord;
use card::Part;

// How a seal makes marks; there is one way.
#[derive(Clone, Copy)]
pub(crate) enum Scheme {
    Hmac,
}

// What a line asks for.
#[derive(Clone, Copy)]
pub(crate) enum Verb {
    Clearance,
    Seal,
    Card,
    Part,
    Id,
    Privilege,
    Ianda,
    Authorisation,
    Show,
}

// What the first row with this name says.
fn chosen<T: Copy>(name: &[u8], rows: &[(&[u8], T)]) -> Option<T>
    ensures { result ≡ chosen name.now (map (λ row. (row.0.now, row.1)) rows.now) }
{
    // A loop: what `find` gives over rows of a type parameter stays open in the proof.
    for (word, value) in rows {
        if name == *word {
            return Some(*value);
        }
    }
    None
}

impl FromWord for Kind {
    ghost meaning = { kind_of };

    #[tactic(auto, unfolding(crate::specs::Commands::kind_of))]
    fn from_word(word: &[u8]) -> Option<Kind> {
        chosen(
            word,
            &[
                (b"class", Kind::Class),
                (b"compartments", Kind::Compartments),
            ],
        )
    }
}

// Whether a card can be written.
impl FromWord for bool {
    ghost meaning = { writable_of };

    #[tactic(auto, unfolding(crate::specs::Commands::writable_of))]
    fn from_word(word: &[u8]) -> Option<bool> {
        chosen(word, &[(b"writable", true), (b"fixed", false)])
    }
}

impl FromWord for Scheme {
    ghost meaning = { scheme_of };

    #[tactic(auto, unfolding(crate::specs::Commands::scheme_of))]
    fn from_word(word: &[u8]) -> Option<Scheme> {
        chosen(word, &[(b"hmac", Scheme::Hmac)])
    }
}

impl FromWord for Verb {
    ghost meaning = { verb_of };

    #[tactic(auto, unfolding(crate::specs::Commands::verb_of))]
    fn from_word(word: &[u8]) -> Option<Verb> {
        chosen(
            word,
            &[
                (b"clearance", Verb::Clearance),
                (b"seal", Verb::Seal),
                (b"card", Verb::Card),
                (b"part", Verb::Part),
                (b"id", Verb::Id),
                (b"privilege", Verb::Privilege),
                (b"ianda", Verb::Ianda),
                (b"authorisation", Verb::Authorisation),
                (b"show", Verb::Show),
            ],
        )
    }
}

// A part of a card, by its number, 1 to 4, as a script writes it; `account` has the numbers inside its texts, and no other crate has them.
impl FromWord for Part {
    ghost meaning = { place_of };

    #[tactic(auto, unfolding(crate::specs::Commands::place_of))]
    fn from_word(word: &[u8]) -> Option<Part> {
        match u32::from_word(word)? {
            1 => Some(Part::Id),
            2 => Some(Part::Privilege),
            3 => Some(Part::Ianda),
            4 => Some(Part::Authorisation),
            _ => None,
        }
    }
}
