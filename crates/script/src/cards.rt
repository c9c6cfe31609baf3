// A card of a script.
use std::marker::Model;

pub(crate) mod calls;

// A card, and the label that lines name it by. Its parts are vectors and no `CardRecord`, which has room in place for the longest: a script
// may have very many cards, and most parts are short or empty.
#[derive(Drop)]
pub(crate) struct LabelledCard {
    pub(crate) label: Vec<u8>,
    pub(crate) number: u32,
    pub(crate) writable: bool,
    id: Vec<u8>,
    privilege: Vec<u8>,
    ianda: Vec<u8>,
    authorisation: Vec<u8>,
}

impl Model for LabelledCard {
    ghost use Rattle.script.specs.Labels.{Labelled};

    ghost Value = { Labelled };

    ghost view = { λ a. record { label = a.label.items; card = record { number = a.number; id = a.id.items; privilege = a.privilege.items; ianda = a.ianda.items; authorisation = a.authorisation.items; writable = a.writable } } };
}
