// The tags of elements.

pub(crate) mod calls;

#[derive(Clone, Copy)]
pub(crate) enum Tag {
    Integer = 2,
    OctetString = 4,
    Sequence = 0x30,
}
