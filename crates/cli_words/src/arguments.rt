//! The arguments that a program was started with.
use std::alloc::AllocError;
use std::env;
use std::io::ErrorKind;

/// The arguments after the program's name. They are empty, which is no command, if one of them
/// isn't UTF-8.
pub fn program_words(rt: &HostRuntime) -> Result<Vec<String>, AllocError> {
    let alloc = rt.alloc();
    match env::args(rt) {
        Ok(args) => args.skip(1).collect::<Vec<String>>(alloc),
        Err(error) if error.kind() == ErrorKind::OutOfMemory => Err(AllocError),
        Err(_) => Ok(Vec::new(alloc)),
    }
}
