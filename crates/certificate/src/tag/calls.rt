// The byte of a tag.
ghost use Rattle.std.specs.Prelude.{◌≡◌};
ghost use Rattle.certificate.specs.Tags.{tag_byte};

use crate::tag::Tag;

impl From<Tag> for u8 {
    ghost from_gives = { λ tag byte. byte ≡ tag_byte tag };

    fn from(tag: Tag) -> u8 {
        tag as u8
    }
}
