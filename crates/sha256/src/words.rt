ghost use Rattle.std.specs.Prelude.{◌≡◌};
ghost use Rattle.sha256.specs.Hash.{bytes_of};

// The eight words of a hash value, or of the working variables, under the names that the standard gives them.
#[derive(Clone, Copy)]
pub(crate) struct Words {
    pub(crate) a: u32,
    pub(crate) b: u32,
    pub(crate) c: u32,
    pub(crate) d: u32,
    pub(crate) e: u32,
    pub(crate) f: u32,
    pub(crate) g: u32,
    pub(crate) h: u32,
}

// The bytes of a hash value.
impl From<Words> for [u8; 32] {
    ghost from_gives = { λ v bytes. bytes ≡ bytes_of v };

    fn from(v: Words) -> [u8; 32] {
        let words = [v.a, v.b, v.c, v.d, v.e, v.f, v.g, v.h];
        let mut bytes = [0; 32];
        bytes.copy_from_slice(words.map(u32::to_be_bytes).as_flattened());
        bytes
    }
}
