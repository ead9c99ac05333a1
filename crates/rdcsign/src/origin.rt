//! What the sources in the cone of each node have in common.

ghost use Rattle.std.specs.Prelude.{◌≡◌, ◌<◌, List, map, length, IfOk};
ghost use Rattle.thin_form.specs.Formula.{Formula};
ghost use Rattle.thin_form.specs.Netlist.{IsLawful, formulas, formula_of, kind_of, design_of};
ghost use Rattle.thin_form.specs.NodeReads.{ReadsBelow};
ghost use Rattle.rdcsign.specs.Origin.{origin_of_source, met, origin_of};

use std::alloc::{AllocError, Global};
use thin_cons::{Role, Roles};
use thin_form::{Kind, Netlist, Node};

/// What the sources in a cone have in common.
#[derive(Clone, Copy, Debug, PartialEq, Eq)]
pub enum Origin {
    /// Ports that are no resets.
    Ports,
    /// Such ports, and flops of one pin: the source that it is, and the level that resets.
    Flops(u32, bool),
    /// A reset, or flops of two pins.
    Mixed,
}

/// The origin of one source.
fn of_source(role: Role, kind: Kind) -> Origin
    ensures { (known : List Formula) → result ≡ origin_of_source role (kind_of known kind) }
{
    match kind {
        Kind::Input => match role {
            Role::Free | Role::Clock => Origin::Ports,
            Role::Reset(_) => Origin::Mixed,
        },
        Kind::Register(flop) => Origin::Flops(flop.pin, flop.high),
    }
}

/// The origin of two cones together.
fn meet(a: Origin, b: Origin) -> Origin
    ensures { result ≡ met a b }
{
    match (a, b) {
        (Origin::Ports, other) | (other, Origin::Ports) => other,
        (Origin::Flops(pin, high), Origin::Flops(other, level)) => {
            if pin == other && high == level {
                a
            } else {
                Origin::Mixed
            }
        }
        (Origin::Mixed, _) | (_, Origin::Mixed) => Origin::Mixed,
    }
}

/// The origin of what a node reads, where those of the nodes before it are known.
fn of_node(design: &Netlist, roles: &Roles, origins: &[Origin], node: Node) -> Origin
    requires within { ReadsBelow (length design.now.sources) (length origins.now) node }
    requires roles_fit { length roles.now ≡ length design.now.sources }
    ensures { (before : List Formula) → origins.now ≡ map (origin_of (design_of design.now) roles.now) before → result ≡ origin_of (design_of design.now) roles.now (formula_of before node) }
{
    match node {
        Node::Source(n) => of_source(roles.role(n), design.kind(n)),
        Node::Not(a) => origins[a as usize],
        Node::And(a, b) => meet(origins[a as usize], origins[b as usize]),
        Node::Or(a, b) => meet(origins[a as usize], origins[b as usize]),
    }
}

/// The origin of what each node reads, in one pass over the nodes.
fn find_origins(alloc: Global, design: &Netlist, roles: &Roles) -> Result<Vec<Origin>, AllocError>
    requires { length roles.now ≡ length design.now.sources }
    ensures { IfOk result (λ origins. origins.items ≡ map (origin_of (design_of design.now) roles.now) (formulas design.now.nodes)) }
{
    let _sources = design.sources();
    let mut origins = Vec::new(alloc);
    for k in 0..design.nodes() {
        let origin = of_node(design, roles, &origins, design.node(k));
        origins.push(origin)?;
    }
    Ok(origins)
}

/// A design under the roles of its sources, with the origin of what each node reads.
#[derive(Drop)]
pub struct Traced<'d, 'a> {
    pub design: &'d Netlist<'a>,
    pub roles: &'d Roles,
    pub origins: Vec<Origin>,
    ghost traced: { origins.items ≡ map (origin_of (design_of design.now) roles.now) (formulas design.now.nodes) },
}

impl<'d, 'a> Traced<'d, 'a> {
    pub fn new(
        alloc: Global,
        design: &'d Netlist<'a>,
        roles: &'d Roles,
    ) -> Result<Traced<'d, 'a>, AllocError>
        requires { length roles.now ≡ length design.now.sources }
        ensures design { IfOk result (λ traced. traced.design.now ≡ design.now) }
        ensures roles { IfOk result (λ traced. traced.roles.now ≡ roles.now) }
    {
        let origins = find_origins(alloc, design, roles)?;
        Ok(Traced {
            design,
            roles,
            origins,
        })
    }
}
