// Writing elements behind what is there.
ghost use Rattle.std.specs.Prelude.{◌≡◌, ◌+◌, ◌≤◌, ◌++◌, length};
ghost use Rattle.certificate.specs.Tags.{tag_byte};
ghost use Rattle.certificate.specs.Der.{encode_integer, wrap};

use crate::tag::Tag;
use fixed::FixedBytes;

// Bytes for which there is room.
fn put(out: &mut FixedBytes<128>, bytes: &[u8])
    requires { length out.old + length bytes.now ≤ 128 }
    ensures { out.new ≡ out.old ++ bytes.now }
{
    out.extend(bytes).unwrap();
}

// An element of this tag, with its contents.
#[tactic(auto, using(std::proofs::lemmas::List::append_assoc), unfolding(crate::specs::Der::wrap))]
pub(crate) fn element(out: &mut FixedBytes<128>, tag: Tag, contents: &[u8])
    requires room { length out.old + 2 + length contents.now ≤ 128 }
    requires short { length contents.now ≤ 127 }
    ensures bytes { out.new ≡ out.old ++ wrap (tag_byte tag) contents.now }
    ensures len { length out.new ≡ length out.old + 2 + length contents.now }
{
    put(out, &[tag.into(), contents.len() as u8]);
    put(out, contents);
}

// A 32-bit INTEGER: at most seven bytes. The contents are the fewest bytes of n whose first is below 128, so that a zero stands before a
// full word; they are put with their header at once, as bytes one by one take half as long again.
#[tactic(auto, using(crate::proofs::Contents::integer_one, crate::proofs::Contents::integer_two, crate::proofs::Contents::integer_three, crate::proofs::Contents::integer_four, crate::proofs::Contents::integer_five))]
pub(crate) fn number(out: &mut FixedBytes<128>, n: u32)
    requires { length out.old + 7 ≤ 128 }
    ensures bytes { out.new ≡ out.old ++ encode_integer n }
    ensures len { length out.new ≤ length out.old + 7 }
{
    let tag = Tag::Integer.into();
    let low = (n % 256) as u8;
    let second = (n / 256 % 256) as u8;
    let third = (n / 65536 % 256) as u8;
    let top = (n / 16777216) as u8;
    match n {
        0..=0x7F => put(out, &[tag, 1, low]),
        0x80..=0x7FFF => put(out, &[tag, 2, second, low]),
        0x8000..=0x7F_FFFF => put(out, &[tag, 3, third, second, low]),
        0x80_0000..=0x7FFF_FFFF => put(out, &[tag, 4, top, third, second, low]),
        _ => put(out, &[tag, 5, 0, top, third, second, low]),
    }
}
