//! What a refused command line answers: the kind of the error and its whole text.

use clap::Error;
use clap::error::ErrorKind;
use command_lines::Line;
use std::alloc::{AllocError, Global};

/// The words of a text, each with a bar before it.
pub fn words_of<'a>(alloc: Global, text: &'a str) -> Result<Vec<&'a str>, AllocError> {
    text.split('|').skip(1).collect(alloc)
}

fn tells(alloc: Global, error: &Error, told: &str) -> bool {
    matches!(format!(in alloc; "{error}"), Ok(text) if text.as_str() == told)
}

fn are_refused_with(alloc: Global, words: &[&str], kind: ErrorKind, told: &str) -> bool {
    match Line::read(alloc, words) {
        Ok(_) => false,
        Err(error) => error.kind() == kind && tells(alloc, &error, told),
    }
}

/// Whether the words of this text are refused with an error of this kind and this text.
pub fn is_refused_with(alloc: Global, text: &str, kind: ErrorKind, told: &str) -> bool {
    match words_of(alloc, text) {
        Ok(words) => are_refused_with(alloc, &words, kind, told),
        Err(_) => false,
    }
}

/// Whether the words of this text are refused with an error of this kind, whose text says what is
/// wrong and shows this usage.
pub fn is_refused_with_usage(
    alloc: Global,
    text: &str,
    kind: ErrorKind,
    wrong: &str,
    usage: &str,
) -> bool {
    let more = "For more information, try '--help'.";
    match format!(in alloc; "error: {wrong}\n\nUsage: gitpool {usage}\n\n{more}\n") {
        Ok(told) => is_refused_with(alloc, text, kind, told.as_str()),
        Err(_) => false,
    }
}
