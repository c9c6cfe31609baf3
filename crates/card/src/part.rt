// The four parts of a card, in their order.
#[derive(Clone, Copy, PartialEq, Eq, Debug)]
pub enum Part {
    Id,
    Privilege,
    Ianda,
    Authorisation,
}
