//! Texts without macros, and directives that are dropped.
use super::first_wrong;
use std::test::Fail;

#[test]
fn comments_strings_and_escaped_names_hold_no_directive(rt: HostRuntime) -> Result<(), Fail> {
    let rows: [(&[u8], &str); 20] = [
        (b"", "="),
        (b"module m;\n", "=module m;\n"),
        (b"a // `x\nb", "=a // `x\nb"),
        (b"/* `x */ a", "=/* `x */ a"),
        (b"/* `x\n`y */", "=/* `x\n`y */"),
        (b"\"`x\" a", "=\"`x\" a"),
        (b"\\a`b c", "=\\a`b c"),
        (b"\\`x y", "=\\`x y"),
        (b"`", "UnknownDirective 0:1:1"),
        (b"a `", "UnknownDirective 0:1:3"),
        (b"`1", "UnknownDirective 0:1:1"),
        (b"` x", "UnknownDirective 0:1:1"),
        (b"\n\n  `foo", "UnknownDirective 0:3:3"),
        (b"/*/`x*/`y", "UnknownDirective 0:1:8"),
        (b"\"`x\n`y", "UnknownDirective 0:2:1"),
        (b"a / `b", "UnknownDirective 0:1:5"),
        (b"a /`b", "UnknownDirective 0:1:4"),
        (b"\\a/*b `x", "UnknownDirective 0:1:7"),
        (b"// a\\\n`x", "UnknownDirective 0:2:1"),
        (b"/**/`x", "UnknownDirective 0:1:5"),
    ];
    assert_eq!(rt; first_wrong(rt.alloc(), &rows)?, None);
    Ok(())
}

#[test]
fn some_directives_are_dropped(rt: HostRuntime) -> Result<(), Fail> {
    let rows: [(&[u8], &str); 6] = [
        (b"`timescale 1ns/1ps\na", "=\na"),
        (b"`default_nettype none\na", "=\na"),
        (b"`celldefine a\n", "= a\n"),
        (b"`endcelldefine a `resetall b", "= a  b"),
        (b"`timescale 1ns // x\na", "=\na"),
        (b"a `timescale x `y\nb", "=a \nb"),
    ];
    assert_eq!(rt; first_wrong(rt.alloc(), &rows)?, None);
    Ok(())
}
