// Keys.

pub mod calls;

// A key, and the name of the issuer whose marks are made with it.
#[derive(Clone, Copy)]
pub struct Key {
    pub name: u32,
    pub key: [u8; 32],
}
