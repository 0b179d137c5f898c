use crate::{Duplicate, List};
use std::alloc::{AllocError, Global};
use std::test::Fail;

/// A copy, by the bound alone.
fn copy_of<T: Duplicate>(value: &T, alloc: Global) -> Result<T, AllocError> {
    value.copy(alloc)
}

#[test]
fn bytes_are_listed(rt: HostRuntime) -> Result<(), Fail> {
    let mut bytes = List::new(rt.alloc());
    assert!(rt; bytes.is_empty());
    bytes.push(b'a')?;
    bytes.push(b'b')?;
    assert_eq!(rt; bytes.len(), 2);
    assert_eq!(rt; *bytes.get(1), b'b');
    *bytes.get_mut(1) = b'c';
    assert_eq!(rt; bytes.as_slice(), b"ac".as_slice());
    *bytes.get_mut(1) = b'b';
    assert_eq!(rt; bytes.as_slice(), b"ab".as_slice());
    assert_eq!(rt;
        List::from_vec(bytes.into_vec()).as_slice(),
        b"ab".as_slice()
    );
    Ok(())
}

#[test]
fn copies_hold_the_same(rt: HostRuntime) -> Result<(), Fail> {
    let alloc = rt.alloc();
    let mut rows: List<List<u8>> = List::new(alloc);
    rows.push(List::from_vec(Vec::from_slice(alloc, b"one")?))?;
    rows.push(List::new(alloc))?;
    for copied in [rows.copy()?, copy_of(&rows, alloc)?] {
        assert_eq!(rt; copied.len(), 2);
        assert_eq!(rt; copied.get(0).as_slice(), b"one".as_slice());
        assert!(rt; copied.get(1).is_empty());
    }
    assert_eq!(rt; copy_of(&b'x', alloc)?, b'x');
    Ok(())
}
