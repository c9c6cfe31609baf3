// The laws of certificates.
ghost use Rattle.std.specs.Prelude.{◌≡◌};
ghost use Rattle.certificate.specs.Certificates.{id_of, ianda_of, privilege_of};
ghost use Rattle.certificate.specs.Fields.{id_bytes, ianda_bytes, privilege_bytes};
ghost use Rattle.certificate.specs.Laws.{ReadsBack, OneEncoding, IdFits, IandaFits, PrivilegeFits};

use clearance::Clearance;

// Carries the two laws for every kind; it does nothing else, and always answers 0.
// They are no laws of the trait: of its own crate an impl cites only what stands in specs/, and all the lemmas of their proofs would have to
// stand there.
pub fn certificates_stand<C: Clearance>() -> u8
    ensures answer { result ≡ 0 }
    ensures id_back { ReadsBack id_of id_bytes IdFits }
    ensures id_one { OneEncoding id_of id_bytes }
    ensures ianda_back { ReadsBack ianda_of ianda_bytes IandaFits }
    ensures ianda_one { OneEncoding ianda_of ianda_bytes }
    ensures privilege_back { ReadsBack (privilege_of C.Clearance.of_number) (privilege_bytes C.Clearance.number_of) (PrivilegeFits C.Clearance.number_of) }
    ensures privilege_one { OneEncoding (privilege_of C.Clearance.of_number) (privilege_bytes C.Clearance.number_of) }
{
    0
}
