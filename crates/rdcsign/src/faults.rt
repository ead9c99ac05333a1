//! What is said of a fault of the source.

ghost use Rattle.std.specs.Prelude.{◌≡◌, ◌++◌, codes, IfOk};
ghost use Rattle.vlog_pre.specs.Known.{name_at};
ghost use Rattle.rdcsign.specs.Request.{texts};
ghost use Rattle.rdcsign.specs.Outcome.{refused, Source};
ghost use Rattle.rdcsign.specs.Faults.{place_text, at_place, stopped, unread, unparsed, unvalued, unelaborated, faulty};
ghost use Rattle.rdcsign.specs.Ends.{IsOrMemory};

use crate::refusal::{Name, Refusal};
use elab_names::ElabFault;
use front::FrontFault;
use rdc_outside::{Place, Seq};
use std::alloc::{AllocError, Global};
use vlog_const::ConstFault;
use vlog_lex::LexFault;
use vlog_parse::ParseFault;
use vlog_pre::{PreFault, Stopped};

/// The name of the file with a number.
fn file_name(files: &[String], number: u32) -> &str
    ensures { result.now ≡ name_at (texts files.now) number }
{
    match files.get(number as usize) {
        None => "",
        Some(name) => name.as_str(),
    }
}

fn joined(alloc: Global, first: &[u8], second: &[u8]) -> Result<Vec<u8>, AllocError>
    ensures { IfOk result (λ v. v.items ≡ first.now ++ second.now) }
{
    let mut all = Vec::from_slice(alloc, first)?;
    all.extend_from_slice(second)?;
    Ok(all)
}

/// A place as text: FILE:LINE:COL.
fn place_text(alloc: Global, files: &[String], place: Place) -> Result<Vec<u8>, AllocError>
    ensures { IfOk result (λ v. v.items ≡ place_text (texts files.now) place) }
{
    let line = place.line;
    let col = place.col;
    let numbers = format!(in alloc; ":{line}:{col}")?;
    joined(
        alloc,
        file_name(files, place.file).as_bytes(),
        numbers.as_bytes(),
    )
}

/// Refuses the source with a word and a name.
fn with_name<'a>(alloc: Global, word: &[u8], name: &[u8]) -> Refusal<'a>
    ensures { IsOrMemory (refused result) (Source (word.now ++ name.now)) }
{
    match joined(alloc, word, name) {
        Ok(details) => Refusal::Source(details),
        Err(_) => Refusal::Memory,
    }
}

/// Refuses the source with a word and a place.
fn with_place<'a>(alloc: Global, word: &[u8], files: &[String], place: Place) -> Refusal<'a>
    ensures { IsOrMemory (refused result) (Source (word.now ++ place_text (texts files.now) place)) }
{
    match place_text(alloc, files, place) {
        Ok(text) => with_name(alloc, word, &text),
        Err(_) => Refusal::Memory,
    }
}

/// Refuses the source with a word, a name and a place.
fn with_both<'a>(
    alloc: Global,
    word: &[u8],
    name: &[u8],
    files: &[String],
    place: Place,
) -> Refusal<'a>
    ensures { IsOrMemory (refused result) (Source (word.now ++ (name.now ++ (codes " " ++ place_text (texts files.now) place)))) }
{
    match joined(alloc, name, b" ") {
        Ok(named) => match joined(alloc, word, &named) {
            Ok(word) => with_place(alloc, &word, files, place),
            Err(_) => Refusal::Memory,
        },
        Err(_) => Refusal::Memory,
    }
}

/// The refusal of sources that have no expansion.
pub fn stopped<'a>(alloc: Global, stop: Stopped) -> Refusal<'a>
    ensures { IsOrMemory (refused result) (stopped (texts stop.files) stop.fault) }
{
    let Stopped { fault, files } = stop;
    let files = files.as_slice();
    match fault {
        PreFault::Memory => Refusal::Memory,
        PreFault::Absent(name) => Refusal::Absent(Name::Met(name)),
        PreFault::Read(name) => Refusal::Read(Name::Met(name)),
        PreFault::TooLong(name) => with_name(alloc, b"toolong ", name.as_slice()),
        PreFault::UnknownDirective(place) => with_place(alloc, b"unknowndirective ", files, place),
        PreFault::Unbalanced(place) => with_place(alloc, b"unbalanced ", files, place),
        PreFault::BadMacroUse(place) => with_place(alloc, b"badmacrouse ", files, place),
        PreFault::MacroLoop(name, place) => with_both(
            alloc,
            b"macroloop ",
            name.as_slice(),
            files,
            place,
        ),
        PreFault::TooDeep(place) => with_place(alloc, b"toodeep ", files, place),
    }
}

/// The refusal of a text that has no tokens.
fn unread<'a>(alloc: Global, files: &[String], fault: LexFault) -> Refusal<'a>
    ensures { IsOrMemory (refused result) (unread (texts files.now) fault) }
{
    match fault {
        LexFault::Memory => Refusal::Memory,
        LexFault::BadByte(place) => with_place(alloc, b"badbyte ", files, place),
        LexFault::BadNumber(place) => with_place(alloc, b"badnumber ", files, place),
        LexFault::OpenComment(place) => with_place(alloc, b"opencomment ", files, place),
        LexFault::OpenString(place) => with_place(alloc, b"openstring ", files, place),
    }
}

/// The refusal of tokens that spell no modules.
fn unparsed<'a>(alloc: Global, files: &[String], fault: ParseFault) -> Refusal<'a>
    ensures { IsOrMemory (refused result) (unparsed (texts files.now) fault) }
{
    match fault {
        ParseFault::Memory => Refusal::Memory,
        ParseFault::Unsupported(word, place) => with_both(
            alloc,
            b"unsupported ",
            word.as_slice(),
            files,
            place,
        ),
        ParseFault::Syntax(place) => with_place(alloc, b"syntax ", files, place),
        ParseFault::TooDeep(place) => with_place(alloc, b"toodeep ", files, place),
    }
}

/// The refusal of a constant without a value.
fn unvalued<'a>(alloc: Global, files: &[String], fault: ConstFault) -> Refusal<'a>
    ensures { IsOrMemory (refused result) (unvalued (texts files.now) fault) }
{
    match fault {
        ConstFault::Memory => Refusal::Memory,
        ConstFault::NotConstant(place) => with_place(alloc, b"notconstant ", files, place),
        ConstFault::TooWide(place) => with_place(alloc, b"toowide ", files, place),
        ConstFault::ZeroDivisor(place) => with_place(alloc, b"zerodivisor ", files, place),
    }
}

/// The refusal of a module that is not there, where it is instantiated; the top stands nowhere.
fn without_module<'a>(
    alloc: Global,
    files: &[String],
    name: &[u8],
    place: Option<Place>,
) -> Refusal<'a>
    ensures { IsOrMemory (refused result) (unelaborated (texts files.now) (ElabFault.NoModule name.now place)) }
{
    match place {
        None => with_name(alloc, b"nomodule ", name),
        Some(place) => with_both(alloc, b"nomodule ", name, files, place),
    }
}

/// Refuses the source with a word, a name and a place.
fn named<'a>(
    alloc: Global,
    word: &[u8],
    name: &Seq<u8>,
    files: &[String],
    place: Place,
) -> Refusal<'a>
    ensures { IsOrMemory (refused result) (Source (word.now ++ (name.now ++ (codes " " ++ place_text (texts files.now) place)))) }
{
    with_both(alloc, word, name.as_slice(), files, place)
}

/// The refusal of modules that give no flat design.
fn unelaborated<'a>(alloc: Global, files: &[String], fault: ElabFault) -> Refusal<'a>
    ensures { IsOrMemory (refused result) (unelaborated (texts files.now) fault) }
{
    match fault {
        ElabFault::Memory => Refusal::Memory,
        ElabFault::NoModule(name, at) => without_module(alloc, files, name.as_slice(), at),
        ElabFault::TwoModules(name, at) => named(alloc, b"twomodules ", &name, files, at),
        ElabFault::NoPort(name, at) => named(alloc, b"noport ", &name, files, at),
        ElabFault::PortCount(at) => with_place(alloc, b"portcount ", files, at),
        ElabFault::Undeclared(name, at) => named(alloc, b"undeclared ", &name, files, at),
        ElabFault::TwiceDeclared(name, at) => named(alloc, b"twicedeclared ", &name, files, at),
        ElabFault::NotAssignable(at) => with_place(alloc, b"notassignable ", files, at),
        ElabFault::Recursion(name, at) => named(alloc, b"recursion ", &name, files, at),
        ElabFault::HierLimit(at) => with_place(alloc, b"hierlimit ", files, at),
        ElabFault::BadRange(at) => with_place(alloc, b"badrange ", files, at),
        ElabFault::WidthLimit(at) => with_place(alloc, b"widthlimit ", files, at),
        ElabFault::GenerateLimit(at) => with_place(alloc, b"generatelimit ", files, at),
        ElabFault::Const(fault) => unvalued(alloc, files, fault),
        ElabFault::Undriven(name, at) => named(alloc, b"undriven ", &name, files, at),
        ElabFault::TwiceDriven(name, at) => named(alloc, b"twicedriven ", &name, files, at),
        ElabFault::Heavy(at) => with_place(alloc, b"heavy ", files, at),
        ElabFault::NotBuilt(at) => with_place(alloc, b"notbuilt ", files, at),
    }
}

/// The refusal of a text that gives no flat design.
pub fn faulty<'a>(alloc: Global, files: &[String], fault: FrontFault) -> Refusal<'a>
    ensures { IsOrMemory (refused result) (faulty (texts files.now) fault) }
{
    match fault {
        FrontFault::Memory => Refusal::Memory,
        FrontFault::Lex(fault) => unread(alloc, files, fault),
        FrontFault::Parse(fault) => unparsed(alloc, files, fault),
        FrontFault::Elab(fault) => unelaborated(alloc, files, fault),
    }
}
