use crate::words::words_of;
use std::io;
use std::test::Fail;

/// A word that is not UTF-8 is no words, and want of memory is told apart.
#[test]
fn tells_want_of_memory_from_other_words(rt: HostRuntime) -> Result<(), Fail> {
    let alloc = rt.alloc();
    let invalid = io::Error::from(io::ErrorKind::InvalidData);
    assert!(rt; words_of(alloc, Err(invalid))?.is_empty());
    let memory = io::Error::from(io::ErrorKind::OutOfMemory);
    assert!(rt; words_of(alloc, Err(memory)).is_err());
    Ok(())
}
