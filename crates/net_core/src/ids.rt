//! Ids of the nodes and sources of a flat net.
ghost use Rattle.std.specs.Prelude.{◌≡◌, ◌<◌, ◌^◌, length, IfSome};
ghost use Rattle.std.specs.Option.{option_map};
ghost use Rattle.net_view.specs.View.{Reads, renumbered};
ghost use Rattle.net_view.specs.FlopNet.{renumbered_kind};
ghost use Rattle.net_core.specs.Net.{MayAdd, ReadsNodes};

use net_view::{FlopOf, Gate, SrcKind};
use rdc_ids::{Id, IdSlice};

/// The tag of a node's id. It is never made.
pub struct NodeTag;

/// The tag of a source's id. It is never made.
pub struct SrcTag;

/// A node of a flat net or of its builder.
pub type Node = Id<NodeTag>;

/// A source of a flat net or of its builder.
pub type Src = Id<SrcTag>;

/// The id of a place in a list.
pub(crate) fn id_at<T, V>(entries: &[V], n: u32) -> Id<T>
    requires { n < length entries.now }
    ensures { result ≡ n }
{
    let Some(id) = IdSlice::<T, V>::new(entries).try_id(n as u64) else {
        unreachable!();
    };
    id
}

/// The gate over the numbers of its nodes.
pub(crate) fn numbers(gates: &[Gate<u32, u32>], gate: Gate<Node, Src>) -> Gate<u32, u32>
    requires small { length gates.now < 2 ^ 32 }
    requires there { MayAdd (length gates.now) gate }
    ensures { result ≡ gate }
{
    match gate {
        Gate::Const(bit) => Gate::Const(bit),
        Gate::Not(a) => Gate::Not(a.number() as u32),
        Gate::And(a, b) => Gate::And(a.number() as u32, b.number() as u32),
        Gate::Or(a, b) => Gate::Or(a.number() as u32, b.number() as u32),
        Gate::Xor(a, b) => Gate::Xor(a.number() as u32, b.number() as u32),
        Gate::Source(_) | Gate::Pick(_, _, _) | Gate::Lift(_, _, _) => unreachable!(),
    }
}

/// The number of a node.
pub(crate) fn number_in(gates: &[Gate<u32, u32>], node: Node) -> u32
    requires small { length gates.now < 2 ^ 32 }
    requires there { node < length gates.now }
    ensures { result ≡ node }
{
    node.number() as u32
}

/// The number of a node, if there is one.
fn number_of(gates: &[Gate<u32, u32>], node: Option<Node>) -> Option<u32>
    requires small { length gates.now < 2 ^ 32 }
    requires there { IfSome node (λ n. n < length gates.now) }
    ensures { result ≡ node }
{
    match node {
        Some(n) => Some(number_in(gates, n)),
        None => None,
    }
}

/// The kind over the numbers of its nodes.
pub(crate) fn numbers_of_kind(gates: &[Gate<u32, u32>], kind: SrcKind<Node>) -> SrcKind<u32>
    requires small { length gates.now < 2 ^ 32 }
    requires there { ReadsNodes (length gates.now) kind }
    ensures { result ≡ kind }
{
    match kind {
        SrcKind::Port => SrcKind::Port,
        SrcKind::BoxOut => SrcKind::BoxOut,
        SrcKind::Flop(f) => SrcKind::Flop(FlopOf {
            clock: f.clock,
            rising: f.rising,
            next: number_of(gates, f.next),
            calms: f.calms,
            pin: number_of(gates, f.pin),
            high: f.high,
            reset: f.reset,
            root: f.root,
        }),
    }
}

/// The gate over the ids of its nodes and source.
pub(crate) fn ids(
    gates: &[Gate<u32, u32>],
    kinds: &[SrcKind<u32>],
    gate: Gate<u32, u32>,
) -> Gate<Node, Src>
    requires { Reads (λ j. j < length gates.now) (λ s. s < length kinds.now) gate }
    ensures { renumbered (λ n. n) (λ s. s) result ≡ gate }
{
    match gate {
        Gate::Const(bit) => Gate::Const(bit),
        Gate::Source(s) => Gate::Source(id_at(kinds, s)),
        Gate::Not(a) => Gate::Not(id_at(gates, a)),
        Gate::And(a, b) => Gate::And(id_at(gates, a), id_at(gates, b)),
        Gate::Or(a, b) => Gate::Or(id_at(gates, a), id_at(gates, b)),
        Gate::Xor(a, b) => Gate::Xor(id_at(gates, a), id_at(gates, b)),
        Gate::Pick(c, a, b) => Gate::Pick(id_at(gates, c), id_at(gates, a), id_at(gates, b)),
        Gate::Lift(c, a, reset) => Gate::Lift(id_at(gates, c), id_at(gates, a), reset),
    }
}

/// The id of a node, if there is one.
fn id_of(gates: &[Gate<u32, u32>], node: Option<u32>) -> Option<Node>
    requires { IfSome node (λ n. n < length gates.now) }
    ensures { option_map (λ n. n) result ≡ node }
{
    match node {
        Some(n) => Some(id_at(gates, n)),
        None => None,
    }
}

/// The kind over the ids of its nodes.
pub(crate) fn ids_of_kind(gates: &[Gate<u32, u32>], kind: SrcKind<u32>) -> SrcKind<Node>
    requires { ReadsNodes (length gates.now) kind }
    ensures { renumbered_kind (λ n. n) result ≡ kind }
{
    match kind {
        SrcKind::Port => SrcKind::Port,
        SrcKind::BoxOut => SrcKind::BoxOut,
        SrcKind::Flop(f) => SrcKind::Flop(FlopOf {
            clock: f.clock,
            rising: f.rising,
            next: id_of(gates, f.next),
            calms: f.calms,
            pin: id_of(gates, f.pin),
            high: f.high,
            reset: f.reset,
            root: f.root,
        }),
    }
}
