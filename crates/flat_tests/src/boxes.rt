//! Modules that are known by their ports alone. An item stands on the second line, and the box `ram` has an input `d` of two bits
//! and an output `q`.

use crate::reading::is_wanted;
use crate::shown::said;
use elab_binds::{BoxPorts, PortShape};
use rdc_outside::Seq;
use std::alloc::{AllocError, Global};
use std::test::Fail;

fn port(alloc: Global, name: &[u8], input: bool, msb: u32) -> Result<PortShape, AllocError> {
    Ok(PortShape {
        name: Seq::from_vec(name.to_vec(alloc)?),
        input,
        msb,
        lsb: 0,
    })
}

fn ram(alloc: Global) -> Result<Vec<BoxPorts>, AllocError> {
    let mut ports = Seq::new(alloc);
    ports.push(port(alloc, b"d", true, 1)?)?;
    ports.push(port(alloc, b"q", false, 0)?)?;
    let mut boxes = Vec::new(alloc);
    boxes.push(BoxPorts {
        module: Seq::from_vec(b"ram".to_vec(alloc)?),
        ports,
    })?;
    Ok(boxes)
}

#[test]
fn a_box_has_bits_and_reads_its_inputs(rt: HostRuntime) -> Result<(), Fail> {
    for (item, want) in [
        ("ram u (b, y);", " b[0] b[1] n u.d[0] u.d[1] u.q y"),
        (
            "ram #(.W(3)) u (.d(b));",
            " b[0] b[1] n u.d[0] u.d[1] u.q y",
        ),
        ("ram u (.q(y));", "Undriven u.d[0] 2:5"),
        ("ram u (b, b[0]);", "TwiceDriven b[0] 3:12"),
        ("ram u (b, y, n);", "PortCount 2:5"),
        ("ram u (.d(b), .z(y));", "NoPort z 2:16"),
        ("ram u (b, n);", "NotAssignable 2:11"),
        (
            "ram u (n, y); endmodule module ram; wire n;",
            "TwoModules ram 2:1",
        ),
    ] {
        let boxes = ram(rt.alloc())?;
        let end = "wire [1:0] b = {n, n}; endmodule";
        let text = format!(in rt.alloc(); "module m (input n, output y);\n{item}\n{end}")?;
        let got = said(rt.alloc(), text.as_str(), &boxes)?;
        assert!(rt; is_wanted(got.as_str(), want)?, "{item}: {got}");
    }
    Ok(())
}
