//! How queries are read. Nothing is looked up.

ghost use Rattle.std.specs.{Prelude.{◌≡◌, false, None, Some, codes, position}, List.{before_first}};
ghost use Rattle.std.specs.{Option.{option_copied, option_map}, Str.{bytes_eq}};
ghost use Rattle.revisions.specs.ExpressionReading.{expression_of};
ghost use Rattle.git_model.specs.Results.{or_fault};
ghost use Rattle.answers.specs.Faults.{Gives};
ghost use Rattle.answers.specs.Queries.{after_space, is_space, query_by, query_of, word_of};
ghost use Rattle.answers.specs.declared.fault.Fault.TheVariants as fault;
ghost use Rattle.answers.specs.declared.query.Word.TheVariants as words;

use crate::fault::Fault;
use crate::query::{ObjectQuery, Query, RepositoryQuery, Word};
use revisions::{Expression, read_range};
use std::alloc::Global;

/// How many bytes a query may have.
const QUERY_LIMIT: usize = 8192;

fn place_of_space(text: &[u8]) -> Option<usize>
    ensures { result ≡ position is_space text.now }
{
    text.iter().position(|byte| *byte == b' ')
}

// What is before the first space and, where there is one, what is after it.
fn split_at_space(text: &[u8]) -> (&[u8], Option<&[u8]>)
    ensures before { result.0.now ≡ before_first is_space text.now }
    ensures after { option_map (λ rest. rest.now) result.1 ≡ after_space text.now }
{
    match place_of_space(text) {
        Some(place) => (text.split_at(place).0, Some(text.split_at(place + 1).1)),
        None => (text, None),
    }
}

// The expression that a word asks for.
fn read_expression<'a>(alloc: Global, text: &'a [u8]) -> Result<Expression<'a>, Fault>
    ensures { Gives result (or_fault fault.MalformedQuery (expression_of text.now)) }
{
    let expression = Expression::read(alloc, text)?;
    Ok(expression)
}

fn read_log<'a>(alloc: Global, text: &'a [u8]) -> Result<Query<'a>, Fault>
    ensures { Gives result (or_fault fault.MalformedQuery (query_by words.Log (Some text.now))) }
{
    let range = read_range(alloc, text)?;
    Ok(Query::Log(range))
}

// The word that a query begins with, where it asks for an object. The other words are in a function
// of their own, since the proof of so many comparisons grows faster than their number.
#[tactic(auto, unfolding(crate::specs::Queries::word_of))]
fn word_of(word: &[u8]) -> Option<Word>
    ensures { result ≡ word_of word.now }
{
    if word == b"rev-parse".as_slice() {
        Some(Word::Object(ObjectQuery::RevParse))
    } else if word == b"abbrev".as_slice() {
        Some(Word::Object(ObjectQuery::Abbrev))
    } else if word == b"cat".as_slice() {
        Some(Word::Object(ObjectQuery::Cat))
    } else if word == b"ls".as_slice() {
        Some(Word::Object(ObjectQuery::Ls))
    } else {
        other_word_of(word)
    }
}

#[tactic(auto, unfolding(crate::specs::Queries::word_of))]
fn other_word_of(word: &[u8]) -> Option<Word>
    ensures { bytes_eq word.now (codes "rev-parse") ≡ false
        → bytes_eq word.now (codes "abbrev") ≡ false → bytes_eq word.now (codes "cat") ≡ false
        → bytes_eq word.now (codes "ls") ≡ false → result ≡ word_of word.now }
{
    if word == b"log".as_slice() {
        Some(Word::Log)
    } else if word == b"refs".as_slice() {
        Some(Word::Repository(RepositoryQuery::Refs))
    } else if word == b"head".as_slice() {
        Some(Word::Repository(RepositoryQuery::Head))
    } else if word == b"export".as_slice() {
        Some(Word::Repository(RepositoryQuery::Export))
    } else {
        None
    }
}

// The query of a word without an argument.
fn alone<'a>(word: Word) -> Result<Query<'a>, Fault>
    ensures { Gives result (or_fault fault.MalformedQuery (query_by word None)) }
{
    match word {
        Word::Repository(asked) => Ok(Query::Repository(asked)),
        Word::Object(_) => Err(Fault::MalformedQuery),
        Word::Log => Err(Fault::MalformedQuery),
    }
}

// The query of a word and the text after its space.
fn read_asking<'a>(alloc: Global, word: Word, text: &'a [u8]) -> Result<Query<'a>, Fault>
    ensures { Gives result (or_fault fault.MalformedQuery (query_by word (Some text.now))) }
{
    match word {
        Word::Object(asked) => Ok(Query::Object(asked, read_expression(alloc, text)?)),
        Word::Log => read_log(alloc, text),
        Word::Repository(_) => Err(Fault::MalformedQuery),
    }
}

// The query of a word and what is after it.
fn read_after<'a>(alloc: Global, word: Word, rest: Option<&'a [u8]>) -> Result<Query<'a>, Fault>
    ensures { Gives result (or_fault fault.MalformedQuery
        (query_by word (option_copied rest.entry))) }
{
    match rest {
        Some(text) => read_asking(alloc, word, text),
        None => alone(word),
    }
}

/// Reads a query: a word and, after the first space, its argument.
///
/// `rev-parse`, `abbrev`, `cat` and `ls` take an expression, and `log` takes a range; `refs`,
/// `head` and `export` take nothing. `Fault::MalformedQuery` (41) above 8,192 bytes, else
/// `Fault::UnknownQuery` (40) where no query has this word, else `Fault::MalformedQuery` (41) where
/// the argument is not what the word takes. Takes memory for the suffixes of an expression;
/// `Fault::Memory` (90) where there is none. Nothing is looked up.
#[tactic(auto, unfolding(crate::specs::Queries::query_of))]
pub fn read_query<'a>(alloc: Global, text: &'a [u8]) -> Result<Query<'a>, Fault>
    ensures { Gives result (query_of text.now) }
{
    if text.len() > QUERY_LIMIT {
        return Err(Fault::MalformedQuery);
    }
    let (word, rest) = split_at_space(text);
    match word_of(word) {
        Some(word) => read_after(alloc, word, rest),
        None => Err(Fault::UnknownQuery),
    }
}
