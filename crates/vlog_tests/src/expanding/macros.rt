//! Macros without parameters.
use super::first_wrong;
use std::test::Fail;

#[test]
fn a_text_ends_with_its_line_unless_it_goes_on(rt: HostRuntime) -> Result<(), Fail> {
    let rows: [(&[u8], &str); 14] = [
        (b"`define A a\n`A", "=\na"),
        (b"`define A a // c\n`A.", "=\na ."),
        (b"`define A \t a b\n`A", "=\na b"),
        (b"`define A\n[`A]", "=\n[]"),
        (b"`define A a\\\nb\n`A", "=\na\nb"),
        (b"`define A a\\\r\nb\n", "=\nb\n"),
        (b"`define A a\r\n`A", "=\na\r"),
        (b"`define A // c\\\nb\n`A", "=\n\nb"),
        (b"`define A \"//\" x\n`A", "=\n\"//\" x"),
        (b"`define A /* c */ x\n`A", "=\n/* c */ x"),
        (b"`define A \\a//b x\n`A", "=\n\\a//b x"),
        (b"`define A \\a\\\nb\n`A", "=\n\\a\nb"),
        (b"`define A a / b\n`A", "=\na / b"),
        (b"`define A a", "="),
    ];
    assert_eq!(rt; first_wrong(rt.alloc(), &rows)?, None);
    Ok(())
}

#[test]
fn a_use_is_its_text_scanned_again(rt: HostRuntime) -> Result<(), Fail> {
    let rows: [(&[u8], &str); 18] = [
        (b"`define A `B\n`define B b\n`A", "=\n\nb"),
        (b"`define A a\n`A`A", "=\naa"),
        (b"`define A a\n`Ab", "UnknownDirective 0:2:1"),
        (b"`define A a\nx`A", "=\nxa"),
        (b"`define A_$1 q\n`A_$1", "=\nq"),
        (b"`define A a\n// `A\n", "=\n// `A\n"),
        (b"`define A a\n\"`A\" /*`A*/`A", "=\n\"`A\" /*`A*/a"),
        (b"`define A /\n`A/ `x\n", "=\n// `x\n"),
        (b"`define A `ifdef X\n`A\na\n`endif\nb", "=\n\nb"),
        (b"`define D `define\n`D A 5\n`A", "=\n\n5"),
        (b"`define A `\n`A", "UnknownDirective 0:2:1"),
        (b"`define A `B\n`A", "UnknownDirective 0:2:1"),
        (b"`define A x `B\n `A", "UnknownDirective 0:2:2"),
        (b"`define A `B\n`define B `A\n`A", "MacroLoop A 0:3:1"),
        (b"`define A `A\n`A", "MacroLoop A 0:2:1"),
        (
            b"`define A `B\n`define B `C\n`define C `B\nx `A",
            "MacroLoop B 0:4:3",
        ),
        (b"`define A `undef A\n`A\n`A", "UnknownDirective 0:3:1"),
        (b"`define A a\n`A/*`A*/ // `A", "=\na/*`A*/ // `A"),
    ];
    assert_eq!(rt; first_wrong(rt.alloc(), &rows)?, None);
    Ok(())
}

#[test]
fn a_definition_lasts_until_the_next(rt: HostRuntime) -> Result<(), Fail> {
    let rows: [(&[u8], &str); 10] = [
        (b"`define A a\n`define A b\n`A", "=\n\nb"),
        (b"`define A a\n`undef A\n`A", "UnknownDirective 0:3:1"),
        (b"`undef A\n", "=\n"),
        (b"`undef A x\n", "= x\n"),
        (b"`undef\nA", "BadMacroUse 0:1:1"),
        (b"`define define x\n", "BadMacroUse 0:1:1"),
        (b" `define ifdef x\n", "BadMacroUse 0:1:2"),
        (b"`define resetall x\n", "BadMacroUse 0:1:1"),
        (b"`define\nA x", "BadMacroUse 0:1:1"),
        (b"`define 1 x", "BadMacroUse 0:1:1"),
    ];
    assert_eq!(rt; first_wrong(rt.alloc(), &rows)?, None);
    Ok(())
}
