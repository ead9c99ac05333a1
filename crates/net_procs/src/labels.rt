//! When labels match.
ghost use Rattle.std.specs.Prelude.{◌≡◌, ◌<◌, ◌≤◌, false, length, get_or, IfOk};
ghost use Rattle.design_form.specs.Extents.{shape_of};
ghost use Rattle.design_sizes.specs.Sizes.{case_shape};
ghost use Rattle.proc_cases.specs.Full.{labels_of};
ghost use Rattle.net_words.specs.Builds.{Builds, AreThere};
ghost use Rattle.net_exprs.specs.Lowered.{built_in};
ghost use Rattle.net_exprs.specs.Names.{HasNodes, wired_in};
ghost use Rattle.net_procs.specs.Labels as spec;
ghost use Rattle.net_procs.specs.Ready.{IsChoice};

use crate::indices::{case_size, free_in};
use design_form::{Design, Extent};
use net_exprs::lower;
use net_gates::{GateFault, GateList, Node};
use net_words::{Bitwise, all, any, bit};
use sqlite_items::Boxed;
use std::alloc::Global;
use vlog_tree::{Arm, Expr, Matching, Stmt};

/// What the labels of a `case` are compared with.
#[derive(Drop)]
pub(crate) struct Choice {
    pub(crate) how: Matching,
    /// The width and the sign in which they are compared.
    pub(crate) context: Extent,
    /// The selector.
    pub(crate) word: Vec<Node>,
}

/// Whether a position doesn't count.
fn is_free(free: &[bool], place: usize) -> bool
    ensures { result ≡ get_or free.now place false }
{
    place < free.len() && free[place]
}

/// Whether two words are the same, bit by bit, where positions count.
fn same_at(
    alloc: Global,
    net: &mut GateList,
    free: &[bool],
    x: &[Node],
    y: &[Node],
) -> Result<Vec<Node>, GateFault>
    requires width { length x.now ≡ length y.now }
    requires x { AreThere net.old x.now }
    requires y { AreThere net.old y.now }
    ensures builds { Builds (λ w. w.items) (spec.same_at free.now x.now y.now) net.old result net.new }
    ensures inside { IfOk result (λ w. AreThere net.new w.items) }
    ensures longer { length net.old ≤ length net.new }
{
    let mut made = Vec::new(alloc);
    for i in 0..x.len() {
        if !is_free(free, i) {
            let n = bit(net, Bitwise::Xnor, x[i], y[i])?;
            made.push(n)?;
        }
    }
    Ok(made)
}

/// Whether two words are the same where positions count.
fn same(
    alloc: Global,
    net: &mut GateList,
    free: &[bool],
    x: &[Node],
    y: &[Node],
) -> Result<Node, GateFault>
    requires width { length x.now ≡ length y.now }
    requires x { AreThere net.old x.now }
    requires y { AreThere net.old y.now }
    ensures builds { Builds (λ n. n) (spec.same free.now x.now y.now) net.old result net.new }
    ensures inside { IfOk result (λ n. n < length net.new) }
    ensures longer { length net.old ≤ length net.new }
{
    let bits = same_at(alloc, net, free, x, y)?;
    all(net, bits.as_slice())
}

/// Whether a label matches the selector's word.
fn label_hit(
    alloc: Global,
    net: &mut GateList,
    design: &Design,
    nodes: &[Node],
    choice: &Choice,
    label: &Expr,
) -> Result<Node, GateFault>
    requires has { HasNodes design.now nodes.now }
    requires nodes { AreThere net.old nodes.now }
    requires choice { IsChoice net.old choice.now }
    ensures builds { Builds (λ n. n) (spec.label_hit design.now nodes.now choice.now.how (shape_of choice.now.context) choice.now.word.items label.now) net.old result net.new }
    ensures inside { IfOk result (λ n. n < length net.new) }
    ensures longer { length net.old ≤ length net.new }
{
    let free = free_in(alloc, design, choice.how, label)?;
    let word = lower(alloc, net, design, nodes, label, choice.context)?;
    let selector = choice.word.as_slice();
    same(alloc, net, free.as_slice(), selector, word.as_slice())
}

/// Whether each of some labels matches.
fn label_hits(
    alloc: Global,
    net: &mut GateList,
    design: &Design,
    nodes: &[Node],
    choice: &Choice,
    labels: &[Expr],
) -> Result<Vec<Node>, GateFault>
    requires has { HasNodes design.now nodes.now }
    requires nodes { AreThere net.old nodes.now }
    requires choice { IsChoice net.old choice.now }
    ensures builds { Builds (λ w. w.items) (spec.label_hits design.now nodes.now choice.now.how (shape_of choice.now.context) choice.now.word.items labels.now) net.old result net.new }
    ensures inside { IfOk result (λ w. AreThere net.new w.items) }
    ensures longer { length net.old ≤ length net.new }
{
    let mut hits = Vec::new(alloc);
    for i in 0..labels.len() {
        let hit = label_hit(alloc, net, design, nodes, choice, &labels[i])?;
        hits.push(hit)?;
    }
    Ok(hits)
}

/// Whether one of some labels matches.
pub(crate) fn any_hit(
    alloc: Global,
    net: &mut GateList,
    design: &Design,
    nodes: &[Node],
    choice: &Choice,
    labels: &[Expr],
) -> Result<Node, GateFault>
    requires has { HasNodes design.now nodes.now }
    requires nodes { AreThere net.old nodes.now }
    requires choice { IsChoice net.old choice.now }
    ensures builds { Builds (λ n. n) (spec.any_hit design.now nodes.now choice.now.how (shape_of choice.now.context) choice.now.word.items labels.now) net.old result net.new }
    ensures inside { IfOk result (λ n. n < length net.new) }
    ensures longer { length net.old ≤ length net.new }
{
    let hits = label_hits(alloc, net, design, nodes, choice, labels)?;
    any(net, hits.as_slice())
}

/// What the labels of a `case` are compared with: the selector, in the size of it and all labels together.
pub(crate) fn choice_of(
    alloc: Global,
    net: &mut GateList,
    design: &Design,
    nodes: &[Node],
    how: Matching,
    selector: &Expr,
    arms: &[Arm<Boxed<Stmt>>],
) -> Result<Choice, GateFault>
    requires has { HasNodes design.now nodes.now }
    requires nodes { AreThere net.old nodes.now }
    ensures builds { Builds (λ c. c.word.items) (built_in (wired_in design.now nodes.now) (case_shape design.now selector.now (labels_of arms.now)) selector.now) net.old result net.new }
    ensures how { IfOk result (λ c. c.how ≡ how) }
    ensures shape { IfOk result (λ c. shape_of c.context ≡ case_shape design.now selector.now (labels_of arms.now)) }
    ensures choice { IfOk result (λ c. IsChoice net.new c) }
    ensures longer { length net.old ≤ length net.new }
{
    let context = case_size(alloc, design, selector, arms)?;
    let word = lower(alloc, net, design, nodes, selector, context)?;
    Ok(Choice { how, context, word })
}
