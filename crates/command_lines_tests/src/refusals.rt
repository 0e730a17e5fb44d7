//! Command lines that name no line, with the whole text that a user reads.

use crate::told::{is_refused_with, is_refused_with_usage};
use clap::error::ErrorKind;

// Words, each with a bar before it, the kind of their refusal, what was wrong, and the usage.
const REFUSED: &[(&str, ErrorKind, &str, &str)] = &[
    (
        "",
        ErrorKind::MissingSubcommand,
        "'gitpool' requires a subcommand but one was not provided\n  \
        [subcommands: serve, import, ask, check, copy, remove, compact, sizes, extract, merge, host, pack, help]",
        "<COMMAND>",
    ),
    (
        "|serve",
        ErrorKind::MissingRequiredArgument,
        "the following required arguments were not provided:\n  --pool <FILE>",
        "serve --pool <FILE>",
    ),
    (
        "|ask|t|refs",
        ErrorKind::MissingRequiredArgument,
        "the following required arguments were not provided:\n  --pool <FILE>",
        "ask --pool <FILE> <TENANT> <QUERY>",
    ),
    (
        "|import|--pool|f",
        ErrorKind::MissingRequiredArgument,
        "the following required arguments were not provided:\n  <TENANT>",
        "import --pool <FILE> <TENANT>",
    ),
    (
        "|ask|t|--pool|f",
        ErrorKind::MissingRequiredArgument,
        "the following required arguments were not provided:\n  <QUERY>",
        "ask --pool <FILE> <TENANT> <QUERY>",
    ),
    (
        "|copy",
        ErrorKind::MissingRequiredArgument,
        "the following required arguments were not provided:\n  --pool <FILE>\n  <FROM>\n  <TO>",
        "copy --pool <FILE> <FROM> <TO>",
    ),
    (
        "|copy|t|--pool|f",
        ErrorKind::MissingRequiredArgument,
        "the following required arguments were not provided:\n  <TO>",
        "copy --pool <FILE> <FROM> <TO>",
    ),
    (
        "|remove|--pool|f",
        ErrorKind::MissingRequiredArgument,
        "the following required arguments were not provided:\n  <TENANT>",
        "remove --pool <FILE> <TENANT>",
    ),
    (
        "|extract|t|--pool|f",
        ErrorKind::MissingRequiredArgument,
        "the following required arguments were not provided:\n  --to <FILE>",
        "extract --pool <FILE> --to <FILE> <TENANT>",
    ),
    (
        "|pack|--all|--pool|f",
        ErrorKind::MissingRequiredArgument,
        "the following required arguments were not provided:\n  <TENANT>",
        "pack --pool <FILE> --all <TENANT>",
    ),
    (
        "|merge|--pool|f",
        ErrorKind::MissingRequiredArgument,
        "the following required arguments were not provided:\n  <FILE>",
        "merge --pool <FILE> <FILE>",
    ),
    (
        "|remove|t|--pool|f|--to|g",
        ErrorKind::UnknownArgument,
        "unexpected argument '--to' found\n\n  tip: to pass '--to' as a value, use '-- --to'",
        "remove --pool <FILE> <TENANT>",
    ),
    (
        "|sizes|t|--pool|f",
        ErrorKind::UnknownArgument,
        "unexpected argument 't' found",
        "sizes --pool <FILE>",
    ),
    (
        "|serv|--pool|f",
        ErrorKind::InvalidSubcommand,
        "unrecognized subcommand 'serv'\n\n  tip: a similar subcommand exists: 'serve'",
        "<COMMAND>",
    ),
    (
        "|fetch",
        ErrorKind::InvalidSubcommand,
        "unrecognized subcommand 'fetch'",
        "<COMMAND>",
    ),
    (
        "|help|fetch",
        ErrorKind::InvalidSubcommand,
        "unrecognized subcommand 'fetch'",
        "<COMMAND>",
    ),
    (
        "|",
        ErrorKind::InvalidSubcommand,
        "unrecognized subcommand ''",
        "<COMMAND>",
    ),
    (
        "|-x",
        ErrorKind::UnknownArgument,
        "unexpected argument '-x' found",
        "<COMMAND>",
    ),
    (
        "|check|--version",
        ErrorKind::UnknownArgument,
        "unexpected argument '--version' found",
        "check --pool <FILE>",
    ),
    (
        "|check|--pool|f|-V",
        ErrorKind::UnknownArgument,
        "unexpected argument '-V' found",
        "check --pool <FILE>",
    ),
    (
        "|help|-V",
        ErrorKind::InvalidSubcommand,
        "unrecognized subcommand '-V'",
        "<COMMAND>",
    ),
    (
        "|serve|t|--pool|f",
        ErrorKind::UnknownArgument,
        "unexpected argument 't' found",
        "serve --pool <FILE>",
    ),
    (
        "|import|t|u|--pool|f",
        ErrorKind::UnknownArgument,
        "unexpected argument 'u' found",
        "import --pool <FILE> <TENANT>",
    ),
    (
        "|ask|t|log|m|--pool|f",
        ErrorKind::UnknownArgument,
        "unexpected argument 'm' found",
        "ask --pool <FILE> <TENANT> <QUERY>",
    ),
    (
        "|copy|t|u|v|--pool|f",
        ErrorKind::UnknownArgument,
        "unexpected argument 'v' found",
        "copy --pool <FILE> <FROM> <TO>",
    ),
    (
        "|ask|-t|refs|--pool|f",
        ErrorKind::UnknownArgument,
        "unexpected argument '-t' found\n\n  tip: to pass '-t' as a value, use '-- -t'",
        "ask --pool <FILE> <TENANT> <QUERY>",
    ),
    (
        "|check|--pool|-f",
        ErrorKind::UnknownArgument,
        "unexpected argument '-f' found",
        "check --pool <FILE>",
    ),
    (
        "|check|--pol|f",
        ErrorKind::UnknownArgument,
        "unexpected argument '--pol' found\n\n  tip: a similar argument exists: '--pool'",
        "check --pool <FILE>",
    ),
    (
        "|check|--pool|a|--pool|b",
        ErrorKind::ArgumentConflict,
        "the argument '--pool <FILE>' cannot be used multiple times",
        "check --pool <FILE>",
    ),
    (
        "|--|serve",
        ErrorKind::UnknownArgument,
        "unexpected argument 'serve' found\n\n  tip: subcommand 'serve' exists; to use it, remove the '--' before it",
        "<COMMAND>",
    ),
    (
        "|--pool|f|serve",
        ErrorKind::UnknownArgument,
        "unexpected argument '--pool' found\n\n  tip: 'serve --pool' exists",
        "<COMMAND>",
    ),
];

// A value that is left out: its refusal shows no usage.
const NO_VALUE: &str = "\
error: a value is required for '--pool <FILE>' but none was supplied

For more information, try '--help'.
";

#[test]
fn refuses_what_names_no_line_and_shows_its_usage(rt: HostRuntime) {
    for (words, kind, wrong, usage) in REFUSED {
        assert!(rt;
            is_refused_with_usage(rt.alloc(), words, *kind, wrong, usage),
            "{words}"
        );
    }
}

#[test]
fn refuses_an_option_without_its_value(rt: HostRuntime) {
    let kind = ErrorKind::InvalidValue;
    assert!(rt; is_refused_with(rt.alloc(), "|serve|--pool", kind, NO_VALUE));
}
