// How what a part says prints.
ghost use Rattle.std.specs.Prelude.{◌≡◌, Some};
ghost use Rattle.std.specs.Str.{IsAscii};
ghost use Rattle.account.specs.Texts.{place_text, header_text, base_text, hex_text};

use card::Part;
use certificate::{Base, Header, Identity};
use std::{fmt, str};

// A part's number and its name.
#[derive(Clone, Copy)]
pub(crate) struct Title(pub Part);

impl fmt::Display for Title {
    ghost output = { λ title. Some (place_text title.0) };

    fn fmt<W: fmt::Write>(&self, f: &mut fmt::Formatter<W>) -> fmt::Result {
        f.write_str(match self.0 {
            Part::Id => "part 1 id:",
            Part::Privilege => "part 2 privilege:",
            Part::Ianda => "part 3 ianda:",
            Part::Authorisation => "part 4 authorisation:",
        })
    }
}

// What every certificate begins with.
#[derive(Clone, Copy)]
pub(crate) struct Heading(pub Header);

impl fmt::Display for Heading {
    ghost output = { λ heading. Some (header_text heading.0) };

    #[tactic(auto, unfolding(crate::specs::Texts::header_text))]
    fn fmt<W: fmt::Write>(&self, f: &mut fmt::Formatter<W>) -> fmt::Result {
        let Identity { issuer, serial } = self.0.identity;
        let (first, last) = (self.0.first, self.0.last);
        write!(
            f,
            " issuer {issuer} serial {serial} first {first} last {last}"
        )
    }
}

// What a certificate rests on.
#[derive(Clone, Copy)]
pub(crate) struct Basis(pub Base);

impl fmt::Display for Basis {
    ghost output = { λ basis. Some (base_text basis.0) };

    #[tactic(auto, unfolding(crate::specs::Texts::base_text))]
    fn fmt<W: fmt::Write>(&self, f: &mut fmt::Formatter<W>) -> fmt::Result {
        let Identity { issuer, serial } = self.0.identity;
        let card = self.0.card;
        write!(f, " base-issuer {issuer} base-serial {serial} card {card}")
    }
}

// The sixteen digits.
const DIGITS: [u8; 16] = *b"0123456789abcdef";

// Two lower-case hexadecimal digits for each byte.
fn digits(bytes: &[u8; 32]) -> [u8; 64]
    ensures text { result ≡ hex_text bytes.now }
    ensures ascii { IsAscii result }
{
    let mut digits = [0; 64];
    for (i, byte) in bytes.iter().enumerate() {
        digits[2 * i] = DIGITS[usize::from(*byte / 16)];
        digits[2 * i + 1] = DIGITS[usize::from(*byte % 16)];
    }
    digits
}

// The template of a print, as hexadecimal digits. They are written at once: by a `write!` of each byte a card with a print takes 1.5 times the time.
#[derive(Clone, Copy)]
pub(crate) struct Template(pub [u8; 32]);

impl fmt::Display for Template {
    ghost output = { λ template. Some (hex_text template.0) };

    #[tactic(auto, using(crate::proofs::Hex::text_of))]
    fn fmt<W: fmt::Write>(&self, f: &mut fmt::Formatter<W>) -> fmt::Result {
        let digits = digits(&self.0);
        f.write_str(str::from_utf8(&digits).unwrap())
    }
}
