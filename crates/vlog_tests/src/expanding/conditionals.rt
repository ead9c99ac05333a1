//! Conditionals.
use super::first_wrong;
use std::test::Fail;

#[test]
fn the_first_part_that_is_met_is_taken(rt: HostRuntime) -> Result<(), Fail> {
    let rows: [(&[u8], &str); 11] = [
        (b"`ifdef A\na\n`endif\nb", "=\nb"),
        (b"`ifndef A\na\n`endif\nb", "=\na\n\nb"),
        (b"`define A\n`ifdef A a `else b `endif c", "=\n a  c"),
        (b"`ifdef A a `else b `endif c", "= b  c"),
        (b"`ifdef A a `elsif B b `elsif C c `else d `endif", "= d "),
        (
            b"`define B\n`ifdef A a `elsif B b `elsif C c `else d `endif",
            "=\n b ",
        ),
        (
            b"`define A\n`define B\n`ifdef A a `elsif B b `else d `endif",
            "=\n\n a ",
        ),
        (
            b"`ifdef A `ifdef B x `else y `endif z `else w `endif",
            "= w ",
        ),
        (b"`ifndef A `ifdef B x `else y `endif z `endif", "=  y  z "),
        (b"`ifdef A x `endif y\n", "= y\n"),
        (b"`ifdef define x `endif", "="),
    ];
    assert_eq!(rt; first_wrong(rt.alloc(), &rows)?, None);
    Ok(())
}

#[test]
fn a_conditional_is_whole_in_its_file(rt: HostRuntime) -> Result<(), Fail> {
    let rows: [(&[u8], &str); 12] = [
        (b"`else", "Unbalanced 0:1:1"),
        (b"`endif", "Unbalanced 0:1:1"),
        (b"`elsif A", "Unbalanced 0:1:1"),
        (b"`elsif", "Unbalanced 0:1:1"),
        (b"`ifdef A `else `else `endif", "Unbalanced 0:1:16"),
        (b"`ifdef A `else `elsif B `endif", "Unbalanced 0:1:16"),
        (b"x\n`ifdef A\n", "Unbalanced 0:2:1"),
        (b"`ifdef A\n`ifdef B\n", "Unbalanced 0:2:1"),
        (b"`ifndef A\n`ifdef B\n`endif\n", "Unbalanced 0:1:1"),
        (b"`ifdef", "BadMacroUse 0:1:1"),
        (b"`ifdef\nA", "BadMacroUse 0:1:1"),
        (b"`ifdef A `endif `endif", "Unbalanced 0:1:17"),
    ];
    assert_eq!(rt; first_wrong(rt.alloc(), &rows)?, None);
    Ok(())
}

#[test]
fn only_conditionals_count_in_a_part_that_is_not_taken(rt: HostRuntime) -> Result<(), Fail> {
    let rows: [(&[u8], &str); 9] = [
        (b"`ifdef A\n`ifdef\n`endif `endif", "BadMacroUse 0:2:1"),
        (
            b"`ifdef A `foo `define A x `include \"no\" `endif `A",
            "UnknownDirective 0:1:48",
        ),
        (b"`ifdef A // `endif\n`endif b", "= b"),
        (
            b"`ifdef A /* `endif */ \" `endif \" \\`endif `endif b",
            "= b",
        ),
        (b"`ifdef A \" `endif\n`endif b", "= b"),
        (b"`ifdef A /* `else */ b `endif", "="),
        (b"`ifdef A /* \n`endif", "Unbalanced 0:1:1"),
        (b"`ifdef A ` `1 `endif b", "= b"),
        (b"`ifdef A `define B \\\n`endif b", "= b"),
    ];
    assert_eq!(rt; first_wrong(rt.alloc(), &rows)?, None);
    Ok(())
}
