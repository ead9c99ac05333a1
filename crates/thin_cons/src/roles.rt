//! The roles of a design's sources.

ghost use Rattle.std.specs.Prelude.{◌≡◌, ◌<◌, length};
ghost use Rattle.thin_cons.specs.Roles.{role_at};

use crate::role::Role;
use std::marker::Model;

/// The role of each source of a design, by its number.
#[derive(Drop)]
pub struct Roles {
    list: Vec<Role>,
}

impl Model for Roles {
    ghost use Rattle.std.specs.Prelude.{List};
    ghost use Rattle.thin_cons.specs.declared.role.Role.{Role};

    ghost Value = { List Role };

    ghost view = { λ roles. roles.list.items };
}

impl Roles {
    pub(crate) fn new(list: Vec<Role>) -> Roles
        ensures { result ≡ list.items }
    {
        Roles { list }
    }

    /// The role of a source.
    pub fn role(&self, n: u32) -> Role
        requires { n < length self.now }
        ensures { result ≡ role_at self.now n }
    {
        self.list[n as usize]
    }
}
