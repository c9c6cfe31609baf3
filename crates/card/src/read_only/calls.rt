// Laying the layer over a slot.
ghost use Rattle.std.specs.Prelude.{◌≡◌};

use super::ReadOnly;
use crate::slot::Slot;

impl<S: Slot> ReadOnly<S> {
    // The layer over that slot.
    pub fn new(below: S) -> Self
        ensures { result.below ≡ below }
    {
        ReadOnly { below }
    }
}
