//! The roles that a file gives the sources of a design.

ghost use Rattle.std.specs.Prelude.{◌≡◌, List, length, IfOk, IsErrOf};
ghost use Rattle.thin_form.specs.Netlist.{design_of};
ghost use Rattle.thin_cons.specs.Roles.{Declares};
ghost use Rattle.thin_cons.specs.declared.role.Role.{Role};

use crate::assigner::assign_all;
use crate::fault::ConsFault;
use crate::judge::are_met;
use crate::reader::read_lines;
use crate::roles::Roles;
use std::alloc::Global;
use thin_form::Netlist;

/// The roles that the bytes give the sources of the design. Its cost grows with the bytes, times the logarithm of
/// the number of sources.
pub fn declare(alloc: Global, design: &Netlist, bytes: &[u8]) -> Result<Roles, ConsFault>
    ensures ok { IfOk result (λ roles. Declares (design_of design.now) bytes.now roles) }
    ensures len { IfOk result (λ roles. length roles ≡ length design.now.sources) }

    ensures not_of_form { IsErrOf result ConsFault.NotOfForm → (list : List Role) → Declares (design_of design.now) bytes.now list → ⊥ }
{
    let lines = read_lines(alloc, bytes)?;
    let roles = assign_all(alloc, design, &lines)?;
    if !are_met(alloc, design, &roles)? {
        return Err(ConsFault::NotOfForm);
    }
    Ok(Roles::new(roles))
}
