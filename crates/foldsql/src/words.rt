use std::alloc::{AllocError, Global};
use std::rt::Env;
use std::{env, io};

/// The words after the program's name. A word that is not UTF-8 is to count as no words at all.
/// `AllocError` is want of memory.
pub(crate) fn words<R: Env + AllocGlobal>(rt: &R) -> Result<Vec<String>, AllocError> {
    words_of(rt.alloc(), env::args(rt))
}

// The words of a list that begins with the program's name, or none where it could not be had for
// another reason than want of memory.
pub(crate) fn words_of(
    alloc: Global,
    args: io::Result<env::Args>,
) -> Result<Vec<String>, AllocError> {
    match args {
        Ok(args) => args.skip(1).collect(alloc),
        Err(error) if error.kind() == io::ErrorKind::OutOfMemory => Err(AllocError),
        Err(_) => Ok(Vec::new(alloc)),
    }
}
