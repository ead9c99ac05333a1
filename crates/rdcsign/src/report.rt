//! The text of a report.

ghost use Rattle.std.specs.Prelude.{◌≡◌, ℕ, ◌<◌, ◌+◌, ◌++◌, ◌^◌, length, List, IfOk, OnOk, if◌then◌else◌};
ghost use Rattle.thin_form.specs.Netlist.{IsLawful, design_of};
ghost use Rattle.rdcsign.specs.Verdict.{crosses};
ghost use Rattle.rdcsign.specs.Draft.{AddsSource, AddsSources, source_at};
ghost use Rattle.rdcsign.specs.Report.{report, edge_line, counts_line, verdict_line, heading_lines};

use crate::origin::Traced;
use crate::verdict::is_same_edge;
use std::alloc::{AllocError, Global};
use std::marker::Model;
use thin_cons::Roles;
use thin_form::{Kind, Netlist};

/// What is known of a design once it is judged: the report, and whether an edge crosses.
#[derive(Drop)]
pub struct Judgement {
    pub report: Vec<u8>,
    pub crossing: bool,
}

/// A report in the making: its text, and how many edges were found the same and crossing.
#[derive(Drop)]
struct Draft {
    text: Vec<u8>,
    same: u32,
    crossing: u32,
}

impl Model for Draft {
    ghost use Rattle.rdcsign.specs.Draft.{Front};

    ghost Value = { Front };

    ghost view = { λ d. record { text = d.text.items; same = d.same; crossing = d.crossing } };
}

fn put_edge(text: &mut Vec<u8>, name: &[u8]) -> Result<(), AllocError>
    ensures { OnOk result (text.new.items ≡ text.old.items ++ edge_line name.now) }
{
    text.extend_from_slice(b"edge ")?;
    text.extend_from_slice(name)?;
    text.extend_from_slice(b" crossing\n")
}

fn put_counts(alloc: Global, text: &mut Vec<u8>, same: u32, crossing: u32) -> Result<(), AllocError>
    ensures { OnOk result (text.new.items ≡ text.old.items ++ counts_line same crossing) }
{
    let line = format!(in alloc; "same {same} crossing {crossing}\n")?;
    text.extend_from_slice(line.as_bytes())
}

fn put_verdict(text: &mut Vec<u8>, crossing: bool) -> Result<(), AllocError>
    ensures { OnOk result (text.new.items ≡ text.old.items ++ verdict_line crossing) }
{
    if crossing {
        text.extend_from_slice(b"verdict crossing\n")
    } else {
        text.extend_from_slice(b"verdict clean\n")
    }
}

fn put_heading(text: &mut Vec<u8>, top: &str) -> Result<(), AllocError>
    ensures { OnOk result (text.new.items ≡ text.old.items ++ heading_lines top.now) }
{
    text.extend_from_slice(b"rdc report 1\ntop ")?;
    text.extend_from_slice(top.as_bytes())?;
    text.extend_from_slice(b"\n")
}

/// Adds what source `n` brings: a line where its edge crosses, and a count where it is a flop.
fn add_source(draft: &mut Draft, traced: &Traced, n: u32) -> Result<(), AllocError>
    requires n_is_in { n < length traced.now.design.now.sources }
    requires lawful { IsLawful traced.now.design.now }
    requires same_fits { draft.old.same + 1 < 2 ^ 32 }
    requires crossing_fits { draft.old.crossing + 1 < 2 ^ 32 }
    ensures { OnOk result (AddsSource (design_of traced.now.design.now) traced.now.roles.now (source_at (design_of traced.now.design.now) n) draft.old draft.new) }
{
    let Kind::Register(flop) = traced.design.kind(n) else {
        return Ok(());
    };
    if is_same_edge(flop, traced.origins[flop.data as usize]) {
        draft.same += 1;
        return Ok(());
    }
    draft.crossing += 1;
    put_edge(&mut draft.text, traced.design.name(n))?;
    Ok(())
}

/// Adds what all sources bring, in name order.
fn add_sources(draft: &mut Draft, traced: &Traced) -> Result<(), AllocError>
    requires same_is_none { draft.old.same ≡ 0 }
    requires crossing_is_none { draft.old.crossing ≡ 0 }
    ensures { OnOk result (AddsSources (design_of traced.now.design.now) traced.now.roles.now (design_of traced.now.design.now).sources draft.old.text draft.new) }
{
    'sources: for n in 0..traced.design.sources() {
        add_source(draft, traced, n)?;
    }
    Ok(())
}

/// The report on a design under the roles of its sources.
pub fn judge(
    alloc: Global,
    top: &str,
    design: &Netlist,
    roles: &Roles,
) -> Result<Judgement, AllocError>
    requires { length roles.now ≡ length design.now.sources }
    ensures report { IfOk result (λ j. j.report.items ≡ report top.now (design_of design.now) roles.now) }
    ensures crossing { IfOk result (λ j. j.crossing ≡ crosses (design_of design.now) roles.now) }
{
    let traced = Traced::new(alloc, design, roles)?;
    let mut text = Vec::new(alloc);
    put_heading(&mut text, top)?;
    let mut draft = Draft {
        text,
        same: 0,
        crossing: 0,
    };
    add_sources(&mut draft, &traced)?;
    let Draft {
        mut text,
        same,
        crossing,
    } = draft;
    put_counts(alloc, &mut text, same, crossing)?;
    put_verdict(&mut text, crossing > 0)?;
    Ok(Judgement {
        report: text,
        crossing: crossing > 0,
    })
}
