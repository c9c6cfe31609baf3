// What a line says.
mod calls;
mod fields;
mod options;

use card::Part;
use certificate::{Base, Header, Ianda, Id};

// The two kinds of clearance.
#[derive(Clone, Copy)]
pub enum Kind {
    Class,
    Compartments,
}

// The fields of a privilege or authorisation certificate. Role and clearance are the numbers that were written: a script may write what no
// reader takes. As `Privilege` of `certificate` otherwise; one struct over both would name the types of the two at every use.
#[derive(Clone, Copy)]
pub struct Grant {
    pub header: Header,
    pub base: Base,
    pub role: u32,
    pub clearance: u32,
}

// A line that was understood. Contracts see it through `said`: an enum has no model, and a struct around it would come off at every `match`.
#[derive(Clone, Copy)]
pub enum Command<'a> {
    // A line with no word, or a remark.
    Nothing,
    Clearance(Kind),
    // The words of the keys, for `keys_of`.
    Seal(&'a [u8]),
    Card {
        label: &'a [u8],
        number: u32,
        writable: bool,
    },
    // The bytes of the part, as digits for `bytes_of`.
    Part {
        label: &'a [u8],
        place: Part,
        hex: &'a [u8],
    },
    Id {
        label: &'a [u8],
        fields: Id,
    },
    // A privilege or an authorisation certificate, by the part that it goes into.
    Grant {
        label: &'a [u8],
        place: Part,
        fields: Grant,
    },
    Ianda {
        label: &'a [u8],
        fields: Ianda,
    },
    Show {
        label: &'a [u8],
    },
}
