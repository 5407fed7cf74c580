//! Texts that are names, and names by their numbers in a table.

use ebc_base::{Name, NameTable, is_name, name_text};
use std::alloc::{AllocError, Global};
use std::test::Fail;

fn name(alloc: Global, text: &str) -> Result<Name, AllocError> {
    Ok(Name::new(String::from_str(alloc, text)?))
}

#[test]
fn forms(rt: HostRuntime) -> Result<(), Fail> {
    assert!(rt; is_name(b"_start.0"));
    assert!(rt; !is_name(b"0start"));
    assert!(rt; name_text(b".text").is_some());
    assert!(rt; name_text(b"").is_none());
    Ok(())
}

#[test]
fn tables(rt: HostRuntime) -> Result<(), Fail> {
    let (first, second) = (name(rt.alloc(), "first")?, name(rt.alloc(), "second")?);
    let mut table = NameTable::new(rt.alloc());
    assert!(rt; table.add(rt.alloc(), &first)?);
    assert!(rt; !table.add(rt.alloc(), &first)?);
    assert!(rt; table.add(rt.alloc(), &second)?);
    assert!(rt; table.number(&second) == 1);
    assert!(rt; table.has(&first));
    assert!(rt; table.len() == 2);
    assert!(rt; table.into_names(rt.alloc())?.len() == 2);
    Ok(())
}
