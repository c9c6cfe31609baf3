ghost use Rattle.std.specs.Prelude.{◌≡◌};
ghost use Rattle.seal.specs.Seals.{Meaning, Makes};

use crate::decline::SealDecline;

// What makes marks of messages under its own name, and checks marks of any issuer.
pub trait Seal {
    // Its own issuer name, the good triples of issuer, message and mark, and how many marks it can still make.
    ghost meaning: { Self → Meaning };

    // Its own issuer name.
    fn name(&self) -> u32
        ensures { result ≡ (meaning self.now).name };

    // Whether the triple is good. Its three parts come from different places, so that a struct would be made only to be taken apart.
    fn check(&self, issuer: u32, message: &[u8], mark: &[u8; 32]) -> bool
        ensures { result ≡ (meaning self.now).good issuer message.now mark.now };

    // A mark of the message under the own name.
    fn make(&mut self, message: &[u8]) -> Result<[u8; 32], SealDecline>
        ensures makes { Makes (meaning self.old) message.now result (meaning self.new) };
}
