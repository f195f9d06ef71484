//! The words of a command line.
ghost use Rattle.std.specs.Prelude.{◌≡◌, IfOk, map, string_bytes};

use crate::ending::WordsFault;
use std::alloc::{AllocError, Global};
use std::env::{self, Env};
use std::io;

/// Returns the words of the command line. The first word names the program.
pub fn words_of<R: Env + AllocGlobal>(rt: &R) -> Result<Vec<String>, WordsFault> {
    let words = env::args(rt).map_err(|error| match error.kind() {
        io::ErrorKind::OutOfMemory => WordsFault::OutOfMemory,
        _ => WordsFault::NotText,
    })?;
    words
        .collect(rt.alloc())
        .map_err(|_| WordsFault::OutOfMemory)
}

/// Returns the words as string slices.
pub fn texts_of<'a>(alloc: Global, words: &'a [String]) -> Result<Vec<&'a str>, AllocError>
    ensures { IfOk result (λ texts. map (λ text. text.now) texts.items ≡ map string_bytes words.entry.now) }
{
    let mut texts = Vec::new(alloc);
    for word in words {
        texts.push(word.as_str())?;
    }
    Ok(texts)
}
