//! Three words and their ids, by hand.
use super::*;
use std::alloc::Global;
use std::test::Fail;

struct Word;

fn words(alloc: Global) -> Result<IdVec<Word, u8>, PushFault> {
    let mut words = IdVec::new(alloc);
    words.push(b'a')?;
    words.push(b'b')?;
    words.push(b'c')?;
    Ok(words)
}

#[test]
fn an_entry_is_found_by_the_id_of_its_number(rt: HostRuntime) -> Result<(), Fail> {
    let words = words(rt.alloc())?;
    assert_eq!(rt; words.len(), 3);
    let last = words.try_id(2).ok_or("2")?;
    assert_eq!(rt; last.number(), 2);
    assert_eq!(rt; *words.get(last), b'c');
    assert!(rt; words.try_id(3).is_none());
    assert!(rt; words.try_id(u64::MAX).is_none());
    Ok(())
}

#[test]
fn a_borrowed_list_has_the_same_ids(rt: HostRuntime) -> Result<(), Fail> {
    let words = words(rt.alloc())?;
    let borrowed = words.as_slice();
    assert_eq!(rt; borrowed.len(), 3);
    let first = borrowed.try_id(0).ok_or("0")?;
    assert_eq!(rt; *borrowed.get(first), b'a');
    assert!(rt; borrowed.try_id(3).is_none());
    Ok(())
}
