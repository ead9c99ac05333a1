//! Macros with parameters.
use super::first_wrong;
use std::test::Fail;

#[test]
fn arguments_end_outside_brackets(rt: HostRuntime) -> Result<(), Fail> {
    let rows: [(&[u8], &str); 19] = [
        (b"`define F(x) [x]\n`F(1)", "=\n[1]"),
        (b"`define F(x, y) y-x\n`F(1,2)", "=\n2-1"),
        (b"`define F(a,b) a b\n`F((1,2),[3,4])", "=\n(1,2) [3,4]"),
        (b"`define F(x) x\n`F()", "=\n"),
        (b"`define F(x,y) <x|y>\n`F(,)", "=\n<|>"),
        (b"`define F(x) x\n`F(1,2)", "BadMacroUse 0:2:1"),
        (b"`define F(x) x\n`F", "BadMacroUse 0:2:1"),
        (b"`define F(x) x\n`F (1)", "=\n1"),
        (b"`define F(x) x\n`F\n(1)", "=\n1"),
        (b"`define F(x) x\n`F(1", "BadMacroUse 0:2:1"),
        (b"`define F(x) x\n`F(\",)\")", "=\n\",)\""),
        (b"`define F(x) x\n`F(/*,)*/a)", "=\n/*,)*/a"),
        (b"`define F(x) x\n`F(\\a,) b)", "=\n\\a,) b"),
        (b"`define F(x,y) x+y\n`F({a,b},c)", "=\n{a,b}+c"),
        (b"`define F(x) x\n`F(a\nb)c", "=\na\nbc"),
        (b"`define F(x) x\n`F(])", "=\n]"),
        (b"`define F(x) x\n`F(// )\n1)", "=\n// )\n1"),
        (b"`define F(x) x\n`F(1)\n`F(2)", "=\n1\n2"),
        (b"`define F(a) a ) a\n`F(1)", "=\n1 ) 1"),
    ];
    assert_eq!(rt; first_wrong(rt.alloc(), &rows)?, None);
    Ok(())
}

#[test]
fn a_list_of_parameters_is_whole(rt: HostRuntime) -> Result<(), Fail> {
    let rows: [(&[u8], &str); 7] = [
        (b"`define F() x\n", "BadMacroUse 0:1:1"),
        (b"`define F(x y) x\n", "BadMacroUse 0:1:1"),
        (b"`define F(x,) x\n", "BadMacroUse 0:1:1"),
        (b"`define F(x\n) x\n", "BadMacroUse 0:1:1"),
        (b"`define F(x", "BadMacroUse 0:1:1"),
        (b"`define F( x , y ) x y\n`F(1,2)", "=\n1 2"),
        (b"`define F (x) x\n`F", "=\n(x) x"),
    ];
    assert_eq!(rt; first_wrong(rt.alloc(), &rows)?, None);
    Ok(())
}

#[test]
fn a_parameter_is_a_whole_word(rt: HostRuntime) -> Result<(), Fail> {
    let rows: [(&[u8], &str); 6] = [
        (b"`define F(x,x) x\n`F(1,2)", "=\n1"),
        (
            b"`define F(x) xx x x1 $x x$ _x\n`F(9)",
            "=\nxx 9 x1 $x x$ _x",
        ),
        (b"`define F(x) \"x\" \\x x // x\n`F(9)", "=\n\"x\" \\x 9 "),
        (b"`define F(x) /*x*/x\n`F(9)", "=\n/*x*/9"),
        (b"`define F(x) `x\n`define x z\n`F(9)", "=\n\nz"),
        (b"`define F(x) 8'hx-x\n`F(9)", "=\n8'hx-9"),
    ];
    assert_eq!(rt; first_wrong(rt.alloc(), &rows)?, None);
    Ok(())
}

#[test]
fn a_replacement_goes_on_with_what_follows(rt: HostRuntime) -> Result<(), Fail> {
    let rows: [(&[u8], &str); 5] = [
        (b"`define F(x) x\n`F(`F(1))", "MacroLoop F 0:2:1"),
        (b"`define F(x) x\n`define G(y) y\n`F(`G(1))", "=\n\n1"),
        (b"`define G `F\n`define F(x) x\n`G(1)", "=\n\n1"),
        (
            b"`define G `F(\n`define F(x) `G\n`G 1)",
            "MacroLoop G 0:3:1",
        ),
        (b"`define F(x) x`\n`F(1)define A 3\n`A", "=\n1\n3"),
    ];
    assert_eq!(rt; first_wrong(rt.alloc(), &rows)?, None);
    Ok(())
}

#[test]
fn arguments_that_double_are_refused(rt: HostRuntime) -> Result<(), Fail> {
    let rows: [(&[u8], &str); 1] = [(
        b"`define A(x) `B(x x x x x x x x x x x x x x x x)
`define B(x) `C(x x x x x x x x x x x x x x x x)
`define C(x) `D(x x x x x x x x x x x x x x x x)
`define D(x) `E(x x x x x x x x x x x x x x x x)
`define E(x) `F(x x x x x x x x x x x x x x x x)
`define F(x) `G(x x x x x x x x x x x x x x x x)
`A(1)",
        "TooLong a.v",
    )];
    assert_eq!(rt; first_wrong(rt.alloc(), &rows)?, None);
    Ok(())
}
