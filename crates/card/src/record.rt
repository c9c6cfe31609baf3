// A card as a record.
ghost use Rattle.std.specs.Prelude.{◌^◌, ◌<◌, ◌≤◌, length};

use fixed::FixedBytes;

pub mod calls;

// It is seen with its fields and by no model: a model's value is any card, so that a law about every record would lose that what a record
// holds fits.
#[derive(Clone, Copy)]
pub struct CardRecord {
    number: u32,
    id: FixedBytes<128>,
    privilege: FixedBytes<128>,
    ianda: FixedBytes<128>,
    authorisation: FixedBytes<128>,
    writable: bool,
    ghost bits: { number < 2 ^ 32 },
    ghost within: { (length id ≤ 128) × (length privilege ≤ 128) × (length ianda ≤ 128) × (length authorisation ≤ 128) },
}
