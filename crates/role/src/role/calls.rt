// The numbers of the roles.
ghost use Rattle.std.specs.Prelude.{◌≡◌};
ghost use Rattle.std.specs.Result.{result_ok};
ghost use Rattle.role.specs.Roles.{role_number, role_of};

use crate::role::{NoRole, Role};

// The number by which a certificate has it.
impl From<Role> for u32 {
    ghost from_gives = { λ role number. number ≡ role_number role };

    fn from(role: Role) -> u32 {
        role as u32
    }
}

// The role of a number, if it has one.
impl TryFrom<u32> for Role {
    type Error = NoRole;

    ghost try_from_gives = { λ number found. result_ok found ≡ role_of number };

    fn try_from(number: u32) -> Result<Role, NoRole> {
        match number {
            0 => Ok(Role::UserOnly),
            1 => Ok(Role::Guard),
            2 => Ok(Role::SecurityOfficer),
            3 => Ok(Role::AuditManager),
            _ => Err(NoRole),
        }
    }
}
