//! A command line: a subcommand with its arguments and the pool file.
//!
//! A run without words is no line here: it imports one stream, has no pool file, and the program
//! handles it.
ghost use Rattle.std.specs.Prelude.{◌≡◌, ◌∷◌, [], IfErr, IfOk, MatchResult, Some, map};
ghost use Rattle.std.specs.Prelude.{option_and_then, option_map, true};
ghost use Rattle.clap.specs.Words.{FailsBy, Text, fault_of, first_of, found_of, kind_of, rows_of};
ghost use Rattle.clap.specs.Words.{subcommand_of, subcommand_rows_of, takes};
ghost use Rattle.clap.specs.declared.error.kind.ErrorKind.TheVariants.{DisplayVersion, OutOfMemory};
ghost use Rattle.command_lines.specs.Lines.{AsksVersion, Said, is_set, said, said_by, said_in};
ghost use Rattle.command_lines.specs.{Lines.{two_given, words_of}, Usage.{gitpool}};

use crate::usage::gitpool;
use clap::{ArgMatches, Error};
use std::alloc::Global;
use std::convert::AsStr;

/// What the words after the program's name ask for.
///
/// The texts are borrowed from the words. `pool` is the path of the pool file.
#[derive(Clone, Copy, PartialEq, Eq)]
pub enum Line<'a> {
    /// `serve --pool FILE`: answer frames of steps.
    Serve {
        pool: &'a str,
    },
    /// `import TENANT --pool FILE`: import one stream into a tenant.
    Import {
        tenant: &'a str,
        pool: &'a str,
    },
    /// `ask TENANT QUERY --pool FILE`: print the answer to one query.
    Ask {
        tenant: &'a str,
        query: &'a str,
        pool: &'a str,
    },
    /// `check --pool FILE`: count what the pool file has.
    Check {
        pool: &'a str,
    },
    /// `copy FROM TO --pool FILE`: copy one tenant's repository to an empty one.
    Copy {
        from: &'a str,
        to: &'a str,
        pool: &'a str,
    },
    /// `remove TENANT --pool FILE`: remove one tenant.
    Remove {
        tenant: &'a str,
        pool: &'a str,
    },
    /// `compact TENANT --pool FILE`: drop what no ref of a tenant reaches.
    Compact {
        tenant: &'a str,
        pool: &'a str,
    },
    /// `sizes --pool FILE`: print how much each tenant has.
    Sizes {
        pool: &'a str,
    },
    /// `extract TENANT --pool FILE --to FILE`: write one tenant to a pool file of its own, at the
    /// path `file`.
    Extract {
        tenant: &'a str,
        file: &'a str,
        pool: &'a str,
    },
    /// `merge FILE --pool FILE`: add the tenants of another pool file, at the path `file`.
    Merge {
        file: &'a str,
        pool: &'a str,
    },
    /// `host --pool FILE`: answer frames of steps and of the operator.
    Host {
        pool: &'a str,
    },
    /// `pack TENANT --pool FILE [--all]`: write the pack of what a tenant's objects reach. `all` is
    /// whether every ref is wanted.
    Pack {
        tenant: &'a str,
        all: bool,
        pool: &'a str,
    },
}

// The value of an argument that takes one.
fn value<'a>(given: &ArgMatches<'a>, id: &str) -> Option<&'a str>
    ensures { option_map (λ s. s.now) result ≡ first_of id.now (rows_of (found_of given.now)) }
{
    given.get_str(id)
}

// The values of two arguments that take one each.
fn two_values<'a>(given: &ArgMatches<'a>, first: &str, second: &str) -> Option<(&'a str, &'a str)>
    ensures { option_map {U = Text × Text} (λ s. (s.0.now, s.1.now)) result
        ≡ two_given (rows_of (found_of given.now)) first.now second.now }
{
    Some((value(given, first)?, value(given, second)?))
}

// Whether a flag is among the words.
fn is_set(given: &ArgMatches<'_>, id: &str) -> bool
    ensures { result ≡ is_set (rows_of (found_of given.now)) id.now }
{
    match value(given, id) {
        Some(text) => text == "true",
        None => false,
    }
}

// What `clap` finds in the words.
fn matched<'a, S: AsStr>(alloc: Global, words: &'a [S]) -> Result<ArgMatches<'a>, Error>
    ensures found { IfOk result (λ m.
        subcommand_rows_of m ≡ subcommand_of gitpool (map S.text words.entry.now)) }
    ensures passes { IfErr result (λ e. takes gitpool (map S.text words.entry.now) ≡ true
        → kind_of e ≡ OutOfMemory) }
    ensures exact { FailsBy (fault_of gitpool (map S.text words.entry.now)) result }
{
    gitpool(alloc)?.try_get_matches_from(words)
}

impl<'a> Line<'a> {
    /// Reads the words after the program's name, by the rules of gitcli(7).
    ///
    /// The line has the texts of the words. A text may be empty: whether it is a good tenant name
    /// or query is not judged here.
    ///
    /// `Err` where the words name no line, or there are none, or they ask for help: the error's
    /// text is the usage or the help, for standard error. Its kind is `OutOfMemory` (90) where
    /// memory ran out; words that parse are refused for no other reason. It is `DisplayVersion` for
    /// `--version` and `-V`: the text is then the version, for standard output. Takes memory.
    pub fn read<S: AsStr>(alloc: Global, words: &'a [S]) -> Result<Line<'a>, Error>
        ensures found { IfOk result (λ line.
            said_in (map S.text words.entry.now) ≡ Some (said line)) }
        ensures only { IfErr result (λ e. takes gitpool (map S.text words.entry.now) ≡ true
            → kind_of e ≡ OutOfMemory) }
        ensures written { (line : Said) → map S.text words.entry.now ≡ words_of line
            → MatchResult result (λ read. said read ≡ line) (λ e. kind_of e ≡ OutOfMemory) }
        ensures version { AsksVersion (map S.text words.entry.now)
            → FailsBy (DisplayVersion ∷ []) result }
        ensures exact { FailsBy (fault_of gitpool (map S.text words.entry.now)) result }
    {
        let matches = matched(alloc, words)?;
        Ok(Line::of_matches(&matches).unwrap())
    }

    fn of_matches(matches: &ArgMatches<'a>) -> Option<Line<'a>>
        ensures { option_map said result
            ≡ option_and_then said_by (subcommand_rows_of matches.now) }
    {
        let (name, given) = matches.subcommand()?;
        Line::of_subcommand(name, given)
    }

    fn of_subcommand(name: &str, given: &ArgMatches<'a>) -> Option<Line<'a>>
        ensures { option_map said result
            ≡ said_by (name.now, rows_of (found_of given.now)) }
    {
        let pool = value(given, "pool")?;
        match name {
            "serve" => Some(Line::Serve { pool }),
            "import" => value(given, "tenant").map(|tenant| Line::Import { tenant, pool }),
            "ask" => two_values(given, "tenant", "query").map(|(tenant, query)| Line::Ask {
                tenant,
                query,
                pool,
            }),
            "check" => Some(Line::Check { pool }),
            "copy" => two_values(given, "from", "to").map(|(from, to)| Line::Copy {
                from,
                to,
                pool,
            }),
            "remove" => value(given, "tenant").map(|tenant| Line::Remove { tenant, pool }),
            "compact" => value(given, "tenant").map(|tenant| Line::Compact { tenant, pool }),
            "sizes" => Some(Line::Sizes { pool }),
            "extract" => two_values(given, "tenant", "to").map(|(tenant, file)| Line::Extract {
                tenant,
                file,
                pool,
            }),
            "merge" => value(given, "file").map(|file| Line::Merge { file, pool }),
            "host" => Some(Line::Host { pool }),
            "pack" => {
                let all = is_set(given, "all");
                value(given, "tenant").map(|tenant| Line::Pack { tenant, all, pool })
            }
            _ => None,
        }
    }
}
