// What a script has led to so far.
use crate::cards::LabelledCard;
use command::Kind;
use seal::Key;
use std::marker::Model;

pub(crate) mod calls;
pub(crate) mod lines;
pub(crate) mod view;

// The clearance kind, if one was chosen; the keys of the latest seal, none before the first; and the cards, in the order of their making: a
// list and no map, since the definition is about the first card of a label, and a map would want another beside it.
#[derive(Drop)]
pub(crate) struct Session {
    pub(crate) kind: Option<Kind>,
    pub(crate) keys: Vec<Key>,
    pub(crate) cards: Vec<LabelledCard>,
}

impl Model for Session {
    ghost use Rattle.script.specs.State.{State};

    ghost Value = { State };

    ghost view = { λ a. record { kind = a.kind; keys = a.keys.items; cards = a.cards.items } };
}
