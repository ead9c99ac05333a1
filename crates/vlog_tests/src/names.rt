//! The bytes of names.
use std::test::Fail;
use vlog_tree::Name;

#[test]
fn a_name_keeps_its_bytes_whatever_their_number(rt: HostRuntime) -> Result<(), Fail> {
    let bytes = b"a23456789b23456789c23456789";
    for len in 0..28 {
        let kept = &bytes[..len];
        let name = Name::from_slice(rt.alloc(), kept)?;
        assert_eq!(rt; name.as_slice(), kept);
    }
    Ok(())
}
