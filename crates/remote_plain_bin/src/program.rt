// The program that the environment names.
use std::alloc::AllocError;
use std::env;
use std::env::VarError;
use std::rt::Env;

const PROGRAM: &str = "ANNEX_REMOTE_PROGRAM";

fn is_blank(byte: u8) -> bool {
    matches!(byte, b' ' | b'\t' | b'\n' | b'\r')
}

fn is_one_word(name: &str) -> bool {
    !name.is_empty() && !name.as_bytes().iter().any(|byte| is_blank(*byte))
}

/// The program to stand before, or `None` if none is named, or its name has blanks.
pub(crate) fn named_program<R: Env + AllocGlobal>(rt: &R) -> Result<Option<String>, AllocError> {
    match env::var(rt, PROGRAM) {
        Ok(name) if is_one_word(name.as_str()) => Ok(Some(name)),
        Err(VarError::OutOfMemory) => Err(AllocError),
        _ => Ok(None),
    }
}
