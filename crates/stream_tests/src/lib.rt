//! Tests of stream_lex and stream_grammar.
#![tactic(auto)]

#[cfg(test)]
mod commands;
#[cfg(test)]
mod items;
