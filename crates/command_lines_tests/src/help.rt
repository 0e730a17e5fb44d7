//! The texts of help, of the program and of each subcommand, and of the version.

use crate::told::is_refused_with;
use clap::error::ErrorKind;
use command_lines::VERSION;
use std::alloc::Global;

// The help of a subcommand that takes the pool file alone.
macro_rules! help_of_pool {
    ($name:literal, $about:literal) => {
        concat!(
            $about,
            "\n\nUsage: gitpool ",
            $name,
            " --pool <FILE>\n\nOptions:\n      --pool <FILE>  The pool file\n  -h, --help         Print help\n"
        )
    };
}

// The help of one that takes a tenant too.
macro_rules! help_of_tenant {
    ($name:literal, $about:literal) => {
        concat!(
            $about,
            "\n\nUsage: gitpool ",
            $name,
            " --pool <FILE> <TENANT>\n\nArguments:\n  <TENANT>  The tenant's name\n",
            "\nOptions:\n      --pool <FILE>  The pool file\n  -h, --help         Print help\n"
        )
    };
}

const PROGRAM: &str = "\
Git repositories of many tenants over one pool of objects

Usage: gitpool <COMMAND>

Commands:
  serve    Answer frames of steps from standard input on standard output
  import   Import a stream of git-fast-import(1) from standard input
  ask      Print the answer to a query
  check    Check the pool file and count what it has
  copy     Copy a tenant's repository to an empty tenant
  remove   Remove a tenant with all that it has
  compact  Drop the objects that no ref of a tenant reaches
  sizes    Print how much each tenant has
  extract  Write a tenant to a pool file of its own
  merge    Add the tenants of another pool file
  host     Answer frames of steps and of the operator, and save when asked
  pack     Write a pack of what the lines of standard input ask for
  help     Print this message or the help of the given subcommand(s)

Options:
  -h, --help     Print help
  -V, --version  Print version
";

const SERVE: &str = help_of_pool!(
    "serve",
    "Answer frames of steps from standard input on standard output"
);

const IMPORT: &str = help_of_tenant!(
    "import",
    "Import a stream of git-fast-import(1) from standard input"
);

const ASK: &str = "\
Print the answer to a query

Usage: gitpool ask --pool <FILE> <TENANT> <QUERY>

Arguments:
  <TENANT>  The tenant's name
  <QUERY>   The query, as one word

Options:
      --pool <FILE>  The pool file
  -h, --help         Print help
";

const CHECK: &str = help_of_pool!("check", "Check the pool file and count what it has");

const COPY: &str = "\
Copy a tenant's repository to an empty tenant

Usage: gitpool copy --pool <FILE> <FROM> <TO>

Arguments:
  <FROM>  The tenant that is copied
  <TO>    The tenant that the copy is for

Options:
      --pool <FILE>  The pool file
  -h, --help         Print help
";

const REMOVE: &str = help_of_tenant!("remove", "Remove a tenant with all that it has");

const COMPACT: &str = help_of_tenant!(
    "compact",
    "Drop the objects that no ref of a tenant reaches"
);

const SIZES: &str = help_of_pool!("sizes", "Print how much each tenant has");

const EXTRACT: &str = "\
Write a tenant to a pool file of its own

Usage: gitpool extract --pool <FILE> --to <FILE> <TENANT>

Arguments:
  <TENANT>  The tenant's name

Options:
      --pool <FILE>  The pool file
      --to <FILE>    The pool file to write
  -h, --help         Print help
";

const MERGE: &str = "\
Add the tenants of another pool file

Usage: gitpool merge --pool <FILE> <FILE>

Arguments:
  <FILE>  The pool file that is read

Options:
      --pool <FILE>  The pool file
  -h, --help         Print help
";

const HOST: &str = help_of_pool!(
    "host",
    "Answer frames of steps and of the operator, and save when asked"
);

const PACK: &str = "\
Write a pack of what the lines of standard input ask for

Usage: gitpool pack [OPTIONS] --pool <FILE> <TENANT>

Arguments:
  <TENANT>  The tenant's name

Options:
      --pool <FILE>  The pool file
      --all          Also want every ref
  -h, --help         Print help
";

// Words that ask for help, each with a bar before it, and the help.
const SHOWN: &[(&str, &str)] = &[
    ("|-h", PROGRAM),
    ("|--help", PROGRAM),
    ("|help", PROGRAM),
    ("|-h|serve", PROGRAM),
    ("|-h|--version", PROGRAM),
    ("|serve|--help", SERVE),
    ("|help|serve", SERVE),
    ("|import|-h", IMPORT),
    ("|help|import", IMPORT),
    ("|ask|t|--help", ASK),
    ("|help|ask", ASK),
    ("|check|--pool|f|-h", CHECK),
    ("|help|check", CHECK),
    ("|copy|t|-h", COPY),
    ("|help|copy", COPY),
    ("|remove|t|-h", REMOVE),
    ("|help|remove", REMOVE),
    ("|compact|-h", COMPACT),
    ("|help|compact", COMPACT),
    ("|sizes|-h", SIZES),
    ("|help|sizes", SIZES),
    ("|extract|--to|f|-h", EXTRACT),
    ("|help|extract", EXTRACT),
    ("|merge|-h", MERGE),
    ("|help|merge", MERGE),
    ("|host|-h", HOST),
    ("|help|host", HOST),
    ("|pack|-h", PACK),
    ("|help|pack", PACK),
];

#[test]
fn shows_the_help_of_the_program_and_of_each_subcommand(rt: HostRuntime) {
    for (words, help) in SHOWN {
        let shown = is_refused_with(rt.alloc(), words, ErrorKind::DisplayHelp, help);
        assert!(rt; shown, "{words}");
    }
}

// Words that ask for the version, each with a bar before it.
const NUMBERED: &[&str] = &[
    "|--version",
    "|-V",
    "|-V|serve",
    "|--version|--help",
    "|-Vh",
];

fn is_answered_with_the_version(alloc: Global, words: &str) -> bool {
    match format!(in alloc; "gitpool {VERSION}\n") {
        Ok(text) => is_refused_with(alloc, words, ErrorKind::DisplayVersion, &text),
        Err(_) => false,
    }
}

#[test]
fn shows_the_version(rt: HostRuntime) {
    for words in NUMBERED {
        assert!(rt; is_answered_with_the_version(rt.alloc(), words), "{words}");
    }
}
