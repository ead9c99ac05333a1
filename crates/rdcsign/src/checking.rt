//! The work of a request: its files, and the judgement on what they say.

ghost use Rattle.std.specs.Prelude.{◌≡◌, ◌+◌, ℕ, length, IfOk, IfErr};
ghost use Rattle.thin_form.specs.Source.{Says, IsSmall};
ghost use Rattle.thin_form.specs.Netlist.{design_of};
ghost use Rattle.thin_cons.specs.Roles.{Declares};
ghost use Rattle.rdcsign.specs.Request.{seen, texts};
ghost use Rattle.rdcsign.specs.Outcome.{refused};
ghost use Rattle.rdcsign.specs.Closed.{IsClosed};
ghost use Rattle.rdcsign.specs.Ends.{IsJudgement};
ghost use Rattle.rdcsign.specs.Loads.{CountsRefusal};
ghost use Rattle.rdcsign.specs.Answers.{outcome_of, IsNoDesign, AreNoRoles, EndsText, EndsListed, EndsWords};

use crate::faults::{faulty, stopped};
use crate::loading::load_file;
use crate::refusal::Refusal;
use crate::report::{Judgement, judge};
use crate::request::{Request, first_of, read_words};
use design_form::Design;
use front::front;
use rdc_outside::{Shelf, Text};
use std::alloc::Global;
use thin_cons::{ConsFault, Roles, declare};
use thin_form::{FormFault, Netlist};
use vlog_pre::expand;

/// The design that the flat design says.
fn read_design<'a, 'b>(
    alloc: Global,
    request: &Request<'a>,
    flat: &'b Design,
) -> Result<Netlist<'b>, Refusal<'a>>
    requires { IsSmall flat.now }
    ensures design { IfOk result (λ d. Says flat.now (design_of d)) }
    ensures closed { IfOk result (λ d. IsClosed (design_of d)) }
    ensures refused { IfErr result (λ r. IsNoDesign (seen request.now) flat.now (refused r)) }
{
    match thin_form::read(alloc, flat) {
        Ok(design) => {
            let _sources = design.sources();
            Ok(design)
        }
        Err(FormFault::Memory) => Err(Refusal::Memory),
        Err(FormFault::NotOfForm) => Err(Refusal::NotYet(first_of(request.files))),
    }
}

/// The roles that the constraints give the sources of the design.
fn read_roles<'a>(
    alloc: Global,
    request: &Request<'a>,
    design: &Netlist,
    constraints: &[u8],
) -> Result<Roles, Refusal<'a>>
    ensures roles { IfOk result (λ roles. Declares (design_of design.now) constraints.now roles) }
    ensures fit { IfOk result (λ roles. length roles ≡ length design.now.sources) }
    ensures refused { IfErr result (λ r. AreNoRoles (seen request.now) (design_of design.now) constraints.now (refused r)) }
{
    match declare(alloc, design, constraints) {
        Ok(roles) => Ok(roles),
        Err(ConsFault::Memory) => Err(Refusal::Memory),
        Err(ConsFault::NotOfForm) => Err(Refusal::NotYet(request.constraints)),
    }
}

/// The judgement on the flat design and the constraints. The design is looked at first.
fn judge_flat<'a>(
    alloc: Global,
    request: &Request<'a>,
    constraints: &[u8],
    flat: &Design,
) -> Result<Judgement, Refusal<'a>>
    requires { IsSmall flat.now }
    ensures { IsJudgement (seen request.now) constraints.now flat.now (outcome_of result) }
{
    let design = match read_design(alloc, request, flat) {
        Ok(design) => design,
        Err(refusal) => return Err(refusal),
    };
    let roles = match read_roles(alloc, request, &design, constraints) {
        Ok(roles) => roles,
        Err(refusal) => return Err(refusal),
    };
    match judge(alloc, request.top, &design, &roles) {
        Ok(judgement) => Ok(judgement),
        Err(_) => Err(Refusal::Memory),
    }
}

/// The judgement on the expanded sources and the constraints. No module is known by its ports alone.
fn judge_text<'a>(
    alloc: Global,
    request: &Request<'a>,
    constraints: &[u8],
    text: &Text,
) -> Result<Judgement, Refusal<'a>>
    requires { length text.now.places ≡ length text.now.bytes + 1 }
    ensures { EndsText (seen request.now) constraints.now text.now (outcome_of result) }
{
    match front(alloc, text, request.top, &[]) {
        Ok(flat) => judge_flat(alloc, request, constraints, &flat),
        Err(fault) => Err(faulty(alloc, text.files.as_slice(), fault)),
    }
}

/// What comes of a request.
fn check<'a, S: Shelf>(
    alloc: Global,
    request: &Request<'a>,
    shelf: &mut S,
) -> Result<Judgement, Refusal<'a>>
    ensures ends { EndsListed (S.files shelf.old) (seen request.now) (outcome_of result) (S.calls shelf.old) (S.calls shelf.new) }
    ensures files { S.files shelf.new ≡ S.files shelf.old }
    ensures counted { CountsRefusal (outcome_of result) (S.absences shelf.old) (S.absences shelf.new) (S.faults shelf.old) (S.faults shelf.new) }
{
    let constraints = match load_file(alloc, shelf, request.constraints) {
        Ok(bytes) => bytes,
        Err(refusal) => return Err(refusal),
    };
    let text = match expand(alloc, shelf, request.files) {
        Ok(text) => text,
        Err(stop) => return Err(stopped(alloc, stop)),
    };
    judge_text(alloc, request, &constraints, &text)
}

/// What comes of the words.
pub fn answer<'a, S: Shelf>(
    alloc: Global,
    words: &'a [String],
    shelf: &mut S,
) -> Result<Judgement, Refusal<'a>>
    ensures ends { EndsWords (S.files shelf.old) (texts words.now) (outcome_of result) (S.calls shelf.old) (S.calls shelf.new) }
    ensures files { S.files shelf.new ≡ S.files shelf.old }
    ensures counted { CountsRefusal (outcome_of result) (S.absences shelf.old) (S.absences shelf.new) (S.faults shelf.old) (S.faults shelf.new) }
{
    match read_words(words) {
        Some(request) => check(alloc, &request, shelf),
        None => Err(Refusal::Usage),
    }
}
