//! One text, read item by item.
use rdc_outside::{Place, Seq};
use std::test::Fail;
use vlog_items::{Ahead, Class, Reader};

#[test]
fn a_use_stands_in_front_of_the_rest_of_its_file(rt: HostRuntime) -> Result<(), Fail> {
    let alloc = rt.alloc();
    let mut names = Vec::new(alloc);
    names.push(String::from_str(alloc, "a.v")?)?;
    names.push(String::from_str(alloc, "b.v")?)?;
    let mut reader = Reader::new(alloc, &names)?;
    assert_eq!(rt; reader.ahead(), Ahead::Coming);
    let _name = reader.take_name();
    reader.put_file(b"x\n".to_vec(alloc)?, 0)?;
    let first = Place {
        file: 0,
        line: 1,
        col: 1,
    };
    assert_eq!(rt; reader.ahead(), Ahead::Read(b'x', first));
    reader.settle();
    reader.put_use(
        Seq::from_vec(b"A".to_vec(alloc)?),
        b"yz".to_vec(alloc)?,
        first,
    )?;
    assert_eq!(rt; reader.ahead(), Ahead::Read(b'y', first));
    reader.settle();
    assert!(rt; reader.is_within(b"A"));
    let word = reader.run(Class::NameByte)?;
    assert_eq!(rt; word.as_slice(), b"yzx".as_slice());
    reader.settle();
    assert!(rt; !reader.is_within(b"A"));
    reader.skip(Class::Blank)?;
    let end = Place {
        file: 0,
        line: 2,
        col: 1,
    };
    assert_eq!(rt; reader.ahead(), Ahead::Ended(end));
    reader.advance()?;
    assert_eq!(rt; reader.ahead(), Ahead::Coming);
    reader.advance()?;
    assert_eq!(rt; reader.ahead(), Ahead::Nothing);
    Ok(())
}
