//! The role of each source, from the lines.

ghost use Rattle.std.specs.Prelude.{◌≡◌, ◌<◌, ◌↔◌, ℕ, List, map, length, IfSome, IfNone, IfOk, IsErrOf, IsTrue};
ghost use Rattle.thin_form.specs.Netlist.{IsLawful, design_of, kind_at};
ghost use Rattle.thin_cons.specs.Forms.{declaration_of};
ghost use Rattle.thin_cons.specs.Roles.{port_of, role_of, role_at, AreRoles};
ghost use Rattle.thin_cons.specs.Step.{IsFreeInput};
ghost use Rattle.thin_cons.specs.declared.role.Role.{Role};

use crate::fault::ConsFault;
use crate::line::Line;
use crate::role::Role;
use std::alloc::Global;
use thin_form::{Kind, Netlist};

/// The port that a line names, and the role that it gives.
fn said<'a>(line: &Line<'a>) -> (&'a [u8], Role)
    ensures port { result.0.now ≡ port_of (declaration_of line.now) }
    ensures role { result.1 ≡ role_of (declaration_of line.now) }
{
    match line {
        Line::Clock(port) => (port, Role::Clock),
        Line::Reset(port, high) => (port, Role::Reset(*high)),
    }
}

/// Whether a source is an input without a role.
fn is_free_input(design: &Netlist, roles: &[Role], n: u32) -> bool
    requires within { n < length design.now.sources }
    requires whole { length roles.now ≡ length design.now.sources }
    ensures { IsTrue result ↔ ((kind_at design.now n ≡ Kind.Input) × (role_at roles.now n ≡ Role.Free)) }
{
    design.kind(n) == Kind::Input && roles[n as usize] == Role::Free
}

/// The number of a port that is an input without a role.
fn free_input(design: &Netlist, roles: &[Role], port: &[u8]) -> Option<u32>
    requires lawful { IsLawful design.now }
    requires whole { length roles.now ≡ length design.now.sources }
    ensures some { IfSome result (IsFreeInput (design_of design.now) roles.now port.now) }
    ensures none { IfNone result ((n : ℕ) → IsFreeInput (design_of design.now) roles.now port.now n → ⊥) }
{
    let Some(n) = design.number(port) else {
        return None;
    };
    if is_free_input(design, roles, n) {
        Some(n)
    } else {
        None
    }
}

/// The role of each source of the design.
pub fn assign_all(alloc: Global, design: &Netlist, lines: &[Line]) -> Result<Vec<Role>, ConsFault>
    ensures ok { IfOk result (λ roles. AreRoles (design_of design.now) (map declaration_of lines.now) roles.items) }
    ensures not_of_form { IsErrOf result ConsFault.NotOfForm → (list : List Role) → AreRoles (design_of design.now) (map declaration_of lines.now) list → ⊥ }
{
    let mut roles = vec![in alloc; Role::Free; design.sources() as usize]?;
    for line in lines {
        let (port, role) = said(line);
        let Some(n) = free_input(design, &roles, port) else {
            return Err(ConsFault::NotOfForm);
        };
        roles[n as usize] = role;
    }
    Ok(roles)
}
