// What a certificate's mark was found to be.

pub(crate) mod calls;

#[derive(Clone, Copy)]
pub enum Verdict {
    Good,
    Bad,
    Unchecked,
}
