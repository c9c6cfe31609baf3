// The kinds of certificates, with their fields as the tables have them.
use certificate::{Base, Certificate, Header, Ianda, Id, Identity, Privilege};
use clearance::Clearance;
use role::Role;
use std::alloc::{AllocError, Global};

pub(crate) trait Kind: Certificate {
    // The fields of these numbers, in their order, and of the template that ends the message, where the kind has one; nothing where the numbers
    // are too few or too many, or one is no role or no clearance.
    fn make(numbers: &[u32], message: &[u8]) -> Option<Self>;

    // The numbers among the fields, in their order.
    fn numbers(self, alloc: Global) -> Result<Vec<u32>, AllocError>;

    // The template among the fields, where the kind has one.
    fn template(self) -> Option<[u8; 32]> {
        None
    }
}

// The header of the first four numbers, and the numbers after them: a third source of these groups, beside the words of a script and the
// bytes of a certificate, and in two lines.
fn header(numbers: &[u32]) -> Option<(Header, &[u32])> {
    let (&[issuer, serial, first, last], rest) = numbers.split_first_chunk::<4>()?;
    let header = Header {
        identity: Identity { issuer, serial },
        first,
        last,
    };
    Some((header, rest))
}

// The base of the first three numbers, and the numbers after them.
fn base(numbers: &[u32]) -> Option<(Base, &[u32])> {
    let (&[issuer, serial, card], rest) = numbers.split_first_chunk::<3>()?;
    let base = Base {
        identity: Identity { issuer, serial },
        card,
    };
    Some((base, rest))
}

// The numbers of a header, in their order.
fn header_numbers(x: Header) -> [u32; 4] {
    [x.identity.issuer, x.identity.serial, x.first, x.last]
}

// The numbers of a base, in their order.
fn base_numbers(x: Base) -> [u32; 3] {
    [x.identity.issuer, x.identity.serial, x.card]
}

impl Kind for Id {
    fn make(numbers: &[u32], _message: &[u8]) -> Option<Id> {
        let (header, rest) = header(numbers)?;
        let &[subject] = rest else {
            return None;
        };
        Some(Id { header, subject })
    }

    fn numbers(self, alloc: Global) -> Result<Vec<u32>, AllocError> {
        header_numbers(self.header)
            .into_iter()
            .chain([self.subject])
            .collect(alloc)
    }
}

impl Kind for Ianda {
    fn make(numbers: &[u32], message: &[u8]) -> Option<Ianda> {
        let (header, rest) = header(numbers)?;
        let (base, rest) = base(rest)?;
        let [] = rest else {
            return None;
        };
        Some(Ianda {
            header,
            base,
            template: *message.last_chunk()?,
        })
    }

    fn numbers(self, alloc: Global) -> Result<Vec<u32>, AllocError> {
        header_numbers(self.header)
            .into_iter()
            .chain(base_numbers(self.base))
            .collect(alloc)
    }

    fn template(self) -> Option<[u8; 32]> {
        Some(self.template)
    }
}

impl<C: Clearance> Kind for Privilege<C> {
    fn make(numbers: &[u32], _message: &[u8]) -> Option<Privilege<C>> {
        let (header, rest) = header(numbers)?;
        let (base, rest) = base(rest)?;
        let &[role, clearance] = rest else {
            return None;
        };
        Some(Privilege {
            header,
            base,
            role: Role::try_from(role).ok()?,
            clearance: C::of(clearance)?,
        })
    }

    fn numbers(self, alloc: Global) -> Result<Vec<u32>, AllocError> {
        header_numbers(self.header)
            .into_iter()
            .chain(base_numbers(self.base))
            .chain([self.role.into(), self.clearance.number()])
            .collect(alloc)
    }
}
