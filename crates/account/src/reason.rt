// Why a line of the script was not carried out.
use card::CardDecline;

pub(crate) mod calls;

#[derive(Clone, Copy)]
pub enum Reason {
    NotUnderstood,
    NoSuchCard,
    CardNamedBefore,
    NoClearanceKind,
    BadRoleOrClearance,
    Declined(CardDecline),
}
