// A certificate without its two headers: the sealed message, and readers of what the body holds, what follows the body, and what follows the whole.
use crate::reader::Reader;

pub mod calls;

#[derive(Drop)]
pub(crate) struct Envelope<'a> {
    pub message: &'a [u8],
    pub body: Reader<'a>,
    pub rest: Reader<'a>,
    pub after: Reader<'a>,
}
