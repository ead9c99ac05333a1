//! Files: includes, several files, places, and loads that fail.
use super::{first_wrong, names_of, place_shown, shelf_of, text_shown};
use rdc_outside::MemShelf;
use std::alloc::{AllocError, Global};
use std::test::Fail;
use vlog_pre::expand;

#[test]
fn an_included_file_stands_where_its_directive_stood(rt: HostRuntime) -> Result<(), Fail> {
    let rows: [(&[u8], &str); 18] = [
        (b"a\n`include \"b.v\"\nc", "=a\nb\n\nc"),
        (b"`include \"b.v\" x", "=b\n x"),
        (b"`include \"no.v\"", "Absent no.v"),
        (b"`include b.v", "BadMacroUse 0:1:1"),
        (b"`include \"b.v\n\"", "BadMacroUse 0:1:1"),
        (b"`include \"b.v", "BadMacroUse 0:1:1"),
        (b"`include\n\"b.v\"", "BadMacroUse 0:1:1"),
        (b"`include /**/ \"b.v\"", "BadMacroUse 0:1:1"),
        (b"`include \"\xc3\xa9.v\"", "BadMacroUse 0:1:1"),
        (b"`include \"\"", "Absent "),
        (b"`include \"open.v\"", "Unbalanced 1:2:1"),
        (b"`ifndef X\n`include \"end.v\"\n`endif", "Unbalanced 1:1:1"),
        (b"`include \"def.v\"\n`B", "=\n\n7"),
        (b"`include \"note.v\" `x */ y", "=/* open `x */ y"),
        (b"`include \"self.v\"", "TooDeep 31:1:1"),
        (b"`define I `include \"b.v\"\n`I z", "=\nb\n z"),
        (b"`define A `include \"use.v\"\n`A", "MacroLoop A 1:1:1"),
        (b"`define I `include\n`I \"b.v\" z", "=\nb\n z"),
    ];
    assert_eq!(rt; first_wrong(rt.alloc(), &rows)?, None);
    Ok(())
}

// The expansion of these files of the shelf, with the places and names behind it.
fn with_places(alloc: Global, bytes: &[u8], names: &[&str]) -> Result<String, Fail> {
    let mut shelf = shelf_of(alloc, bytes, &[])?;
    let names = names_of(alloc, names)?;
    match expand(alloc, &mut shelf, &names) {
        Err(stop) => {
            let mut all = String::new(alloc);
            for name in stop.files.as_slice() {
                all.push_str(name.as_str())?;
                all.push_str(" ")?;
            }
            let shown = text_shown(alloc, Err(stop))?;
            all.push_str(shown.as_str())?;
            Ok(all)
        }
        Ok(text) => {
            let mut all = String::from_utf8_lossy(alloc, text.bytes.as_slice())?;
            for place in text.places.as_slice() {
                let one = place_shown(alloc, *place)?;
                all.push_str(" ")?;
                all.push_str(one.as_str())?;
            }
            for name in text.files.as_slice() {
                all.push_str(" ")?;
                all.push_str(name.as_str())?;
            }
            Ok(all)
        }
    }
}

#[test]
fn a_byte_of_a_replacement_has_the_place_of_the_use(rt: HostRuntime) -> Result<(), Fail> {
    let got = with_places(rt.alloc(), b"`define A ab\nx`A y", &["a.v", "b.v"])?;
    assert_eq!(rt;
        got.as_str(),
        "\nxab y\nb\n 0:1:13 0:2:1 0:2:2 0:2:2 0:2:4 0:2:5 0:2:6 1:1:1 1:1:2 1:2:1 a.v b.v"
    );
    let got = with_places(rt.alloc(), b"", &[])?;
    assert_eq!(rt; got.as_str(), " 0:1:1");
    Ok(())
}

#[test]
fn what_one_file_defines_the_next_has(rt: HostRuntime) -> Result<(), Fail> {
    let got = with_places(rt.alloc(), b"`B", &["def.v", "a.v"])?;
    assert_eq!(rt; got.as_str(), "\n\n7 0:1:12 0:2:1 1:1:1 1:1:3 def.v a.v");
    let got = with_places(rt.alloc(), b"`x */ y", &["note.v", "a.v"])?;
    assert_eq!(rt;
        got.as_str(),
        "/* open\n`x */ y 0:1:1 0:1:2 0:1:3 0:1:4 0:1:5 0:1:6 0:1:7 0:1:8 1:1:1 1:1:2 1:1:3 1:1:4 1:1:5 1:1:6 1:1:7 1:1:8 note.v a.v"
    );
    Ok(())
}

#[test]
fn a_fault_is_told_with_the_files_so_far(rt: HostRuntime) -> Result<(), Fail> {
    let alloc = rt.alloc();
    let source = b"`include \"b.v\"\n`include \"open.v\"".as_slice();
    let got = with_places(alloc, source, &["def.v", "a.v", "note.v"])?;
    assert_eq!(rt; got.as_str(), "def.v a.v b.v open.v Unbalanced 3:2:1");
    Ok(())
}

#[test]
fn each_load_fails_in_turn(rt: HostRuntime) -> Result<(), Fail> {
    let alloc = rt.alloc();
    let rows: [(&[u64], &str); 5] = [
        (&[1], "Read a.v"),
        (&[2], "Read b.v"),
        (&[3], "Read def.v"),
        (&[4], "Read b.v"),
        (&[5], "=b\n\n\n\n\nb\n"),
    ];
    for (failing, want) in rows {
        let source = b"`include \"b.v\"\n`include \"def.v\"\n".as_slice();
        let mut shelf = shelf_of(alloc, source, failing)?;
        let names = names_of(alloc, &["a.v", "b.v"])?;
        let got = text_shown(alloc, expand(alloc, &mut shelf, &names))?;
        assert_eq!(rt; got.as_str(), want);
    }
    Ok(())
}

// Files `0`, `1` and so on, each of which includes the next one.
fn chain(alloc: Global, count: u32) -> Result<MemShelf, Fail> {
    let mut files = Vec::new(alloc);
    for i in 0..count {
        let name = format!(in alloc; "{i}")?;
        let text = if i < 100 && i + 1 < count {
            let next = i + 1;
            format!(in alloc; "`include \"{next}\"")?
        } else {
            String::from_str(alloc, "x")?
        };
        files.push((name, text.into_bytes()))?;
    }
    Ok(MemShelf::new(alloc, files, Vec::new(alloc), 0)?)
}

#[test]
fn files_are_included_31_deep(rt: HostRuntime) -> Result<(), Fail> {
    let alloc = rt.alloc();
    let names = names_of(alloc, &["0"])?;
    let mut shelf = chain(alloc, 32)?;
    let got = text_shown(alloc, expand(alloc, &mut shelf, &names))?;
    assert_eq!(rt; got.as_str(), "=x");
    let mut shelf = chain(alloc, 33)?;
    let got = text_shown(alloc, expand(alloc, &mut shelf, &names))?;
    assert_eq!(rt; got.as_str(), "TooDeep 31:1:1");
    Ok(())
}
