//! Lists and names that contracts see as plain values.

use ebc_base::{Name, NoMemory, Sequence};
use std::alloc::{AllocFailed, Global};
use std::test::Fail;

// As many values, which may want memory.
fn repeated(alloc: Global, count: usize, value: u32) -> Result<Sequence<u32>, NoMemory> {
    let mut items = Vec::new(alloc);
    for _ in 0..count {
        items.push(value)?;
    }
    Ok(Sequence::new(items))
}

#[test]
fn lists(rt: HostRuntime) -> Result<(), Fail> {
    let list = Sequence::new(vec![in rt.alloc(); 3u32, 5]?);
    assert!(rt; list.len() == 2);
    assert!(rt; !list.is_empty());
    assert!(rt; repeated(rt.alloc(), 0, 3)?.is_empty());
    assert!(rt; *list.as_slice() == *[3u32, 5].as_slice());
    assert!(rt; list == Sequence::new(vec![in rt.alloc(); 3u32, 5]?));
    assert!(rt; list != repeated(rt.alloc(), 2, 3)?);
    assert!(rt; list.into_vec().len() == 2);
    Ok(())
}

#[test]
fn names(rt: HostRuntime) -> Result<(), Fail> {
    let name = Name::new(String::from_str(rt.alloc(), "made")?);
    let copy = name.copy(rt.alloc())?;
    assert!(rt; name == copy);
    assert!(rt; copy != Name::new(String::from_str(rt.alloc(), "made2")?));
    assert!(rt; name.as_str() == "made");
    assert!(rt; copy.into_string().as_str() == "made");
    Ok(())
}
