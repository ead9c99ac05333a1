//! The outside by example, and the edges that only the system can answer.
use crate::{
    DiskShelf, LoadFault, MemShelf, MemSink, OutSink, Place, SaveFault, Seq, Shelf, Sink, Status,
    Text, WroteUpTo, write_all_of,
};
use std::alloc::{AllocError, Global};
use std::fs;
use std::test::Fail;

// One file, `a.v`, of three bytes.
fn one_file(alloc: Global) -> Result<Vec<(String, Vec<u8>)>, AllocError> {
    let name = String::from_str(alloc, "a.v")?;
    let bytes = b"xyz".to_vec(alloc)?;
    let mut files = Vec::new(alloc);
    files.push((name, bytes))?;
    Ok(files)
}

#[test]
fn a_shelf_gives_what_it_was_given(rt: HostRuntime) -> Result<(), Fail> {
    let alloc = rt.alloc();
    let mut shelf = MemShelf::new(alloc, one_file(alloc)?, Vec::new(alloc), 20)?;
    let bytes = shelf.load(alloc, "a.v", 3)?;
    assert_eq!(rt; bytes.as_slice(), b"xyz".as_slice());
    assert_eq!(rt; shelf.load(alloc, "a.v", 2).err(), Some(LoadFault::TooBig));
    assert_eq!(rt; shelf.load(alloc, "b.v", 3).err(), Some(LoadFault::Absent));
    shelf.save("b.v", b"new")?;
    let bytes = shelf.load(alloc, "b.v", 3)?;
    assert_eq!(rt; bytes.as_slice(), b"new".as_slice());
    assert_eq!(rt; shelf.file("a.v"), Some(b"xyz".as_slice()));
    assert_eq!(rt; shelf.file("c.v"), None);
    Ok(())
}

#[test]
fn the_second_call_fails_where_two_is_listed(rt: HostRuntime) -> Result<(), Fail> {
    let alloc = rt.alloc();
    let mut failing = Vec::new(alloc);
    failing.push(2)?;
    let mut shelf = MemShelf::new(alloc, one_file(alloc)?, failing, 0)?;
    let _bytes = shelf.load(alloc, "a.v", 3)?;
    assert_eq!(rt; shelf.load(alloc, "b.v", 3).err(), Some(LoadFault::Failed));
    assert_eq!(rt; shelf.load(alloc, "b.v", 3).err(), Some(LoadFault::Absent));
    Ok(())
}

#[test]
fn a_save_past_the_room_fails_and_a_short_one_after_it_does_not(
    rt: HostRuntime,
) -> Result<(), Fail> {
    let alloc = rt.alloc();
    let mut shelf = MemShelf::new(alloc, Vec::new(alloc), Vec::new(alloc), 5)?;
    assert_eq!(rt; shelf.save("ab", b"cde"), Err(SaveFault::Failed));
    shelf.save("ab", b"cd")?;
    assert_eq!(rt; shelf.save("", b""), Err(SaveFault::Failed));
    assert_eq!(rt; shelf.file("ab"), Some(b"cd".as_slice()));
    Ok(())
}

#[test]
fn a_sink_takes_a_text_in_parts_up_to_its_room(rt: HostRuntime) -> Result<(), Fail> {
    let alloc = rt.alloc();
    let mut sink = MemSink::new(alloc, Vec::new(alloc), 3, 7)?;
    assert_eq!(rt; sink.write(b"abcde")?, 3);
    assert_eq!(rt; write_all_of(&mut sink, b"de"), Ok(()));
    assert_eq!(rt;
        write_all_of(&mut sink, b"fgh"),
        Err(WroteUpTo { count: 2 })
    );
    assert_eq!(rt; sink.bytes(), b"abcdefg".as_slice());
    Ok(())
}

#[test]
fn a_list_and_a_text_keep_what_they_hold(rt: HostRuntime) -> Result<(), Fail> {
    let alloc = rt.alloc();
    let place = Place {
        file: 0,
        line: 1,
        col: 1,
    };
    let mut places = Seq::new(alloc);
    places.push(place)?;
    let text = Text {
        bytes: Seq::from_vec(b"x".to_vec(alloc)?),
        places,
        files: Seq::new(alloc),
    };
    assert_eq!(rt; text.bytes.as_slice(), b"x".as_slice());
    assert_eq!(rt; text.places.as_slice(), [place].as_slice());
    assert_eq!(rt; text.files.len(), 0);
    Ok(())
}

#[test]
fn the_last_status_is_fifteen(rt: HostRuntime) {
    assert_eq!(rt; Status::Clean.number(), 0);
    assert_eq!(rt; Status::Hazard.number(), 1);
    assert_eq!(rt; Status::NotYet.number(), 15);
}

#[test]
fn the_system_gives_back_what_was_saved(rt: HostRuntime) -> Result<(), Fail> {
    let alloc = rt.alloc();
    let name = "rdc_outside_saved.tmp";
    let mut shelf = DiskShelf::new(&rt);
    shelf.save(name, b"longer than it")?;
    shelf.save(name, b"five!")?;
    let bytes = shelf.load(alloc, name, 5)?;
    let too_big = shelf.load(alloc, name, 4).err();
    fs::remove_file(&rt, name)?;
    assert_eq!(rt; bytes.as_slice(), b"five!".as_slice());
    assert_eq!(rt; too_big, Some(LoadFault::TooBig));
    assert_eq!(rt; shelf.load(alloc, name, 5).err(), Some(LoadFault::Absent));
    // A folder is there, and can't be read or written as a file.
    assert_eq!(rt; shelf.load(alloc, ".", 5).err(), Some(LoadFault::Failed));
    assert_eq!(rt; shelf.save(".", b""), Err(SaveFault::Failed));
    Ok(())
}

#[test]
fn standard_output_takes_a_line(rt: HostRuntime) -> Result<(), Fail> {
    let mut sink = OutSink::new(&rt);
    assert_eq!(rt; write_all_of(&mut sink, b"a line of the sink\n"), Ok(()));
    Ok(())
}
