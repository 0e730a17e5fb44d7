//! Command lines that name a line: each subcommand, the forms of an option, and values of any kind.

use command_lines::Line;
use std::alloc::{AllocError, Global};
use std::convert::AsStr;

// Words, and the line of this kind and with these parts that they name.
macro_rules! read {
    ([$($word:literal),+] => $kind:ident, $($part:ident: $value:literal),+) => {
        (&[$($word),+], Line::$kind { $($part: $value),+ })
    };
}

const READ: &[(&[&str], Line<'static>)] = &[
    read!(["serve", "--pool", "f"] => Serve, pool: "f"),
    read!(["serve", "--pool=f"] => Serve, pool: "f"),
    read!(["check", "--pool", "a b/f.pool"] => Check, pool: "a b/f.pool"),
    read!(["import", "t", "--pool", "f"] => Import, tenant: "t", pool: "f"),
    read!(["import", "--pool", "f", "t"] => Import, tenant: "t", pool: "f"),
    read!(["import", "--pool=f", "--", "--pool"] => Import, tenant: "--pool", pool: "f"),
    read!(["import", "", "--pool", "f"] => Import, tenant: "", pool: "f"),
    read!(["import", "serve", "--pool", "ask"] => Import, tenant: "serve", pool: "ask"),
    read!(["ask", "t", "rev-parse refs/heads/m", "--pool", "f"] =>
        Ask, tenant: "t", query: "rev-parse refs/heads/m", pool: "f"),
    read!(["ask", "t", "--pool=f", "refs"] => Ask, tenant: "t", query: "refs", pool: "f"),
    read!(["ask", "--pool", "f", "--", "-t", "-h"] => Ask, tenant: "-t", query: "-h", pool: "f"),
    read!(["ask", "-", "", "--pool", "-"] => Ask, tenant: "-", query: "", pool: "-"),
    read!(["copy", "t", "u", "--pool", "f"] => Copy, from: "t", to: "u", pool: "f"),
    read!(["copy", "t", "--pool=f", "t"] => Copy, from: "t", to: "t", pool: "f"),
    read!(["copy", "--pool", "f", "--", "-t", "--pool"] =>
        Copy, from: "-t", to: "--pool", pool: "f"),
    read!(["remove", "t", "--pool", "f"] => Remove, tenant: "t", pool: "f"),
    read!(["compact", "--pool=f", "--", "-t"] => Compact, tenant: "-t", pool: "f"),
    read!(["sizes", "--pool", "f"] => Sizes, pool: "f"),
    read!(["extract", "t", "--pool", "f", "--to", "g"] =>
        Extract, tenant: "t", file: "g", pool: "f"),
    read!(["extract", "--to=-g", "t", "--pool=f"] => Extract, tenant: "t", file: "-g", pool: "f"),
    read!(["merge", "g", "--pool", "f"] => Merge, file: "g", pool: "f"),
    read!(["host", "--pool", "f"] => Host, pool: "f"),
    read!(["pack", "t", "--pool", "f"] => Pack, tenant: "t", all: false, pool: "f"),
    read!(["pack", "--all", "t", "--pool", "f"] => Pack, tenant: "t", all: true, pool: "f"),
    read!(["pack", "--pool=f", "--", "--all"] => Pack, tenant: "--all", all: false, pool: "f"),
    read!(["check", "--pool=-f"] => Check, pool: "-f"),
    read!(["check", "--pool=a=b"] => Check, pool: "a=b"),
    read!(["check", "--pool="] => Check, pool: ""),
    read!(["check", "--pool", ""] => Check, pool: ""),
    read!(["check", "--pool", "é"] => Check, pool: "é"),
];

fn is_read_as<S: AsStr>(alloc: Global, words: &[S], line: Line<'_>) -> bool {
    matches!(Line::read(alloc, words), Ok(read) if read == line)
}

#[test]
fn reads_each_subcommand_with_its_arguments_in_any_order(rt: HostRuntime) {
    for (words, line) in READ {
        assert!(rt; is_read_as(rt.alloc(), words, *line), "{words:?}");
    }
}

// Words as a program has them.
fn add_words(alloc: Global, words: &mut Vec<String>) -> Result<(), AllocError> {
    for word in ["check", "--pool", "f"] {
        words.push(String::from_str(alloc, word)?)?;
    }
    Ok(())
}

#[test]
fn reads_words_that_are_owned(rt: HostRuntime) {
    let mut words = Vec::new(rt.alloc());
    add_words(rt.alloc(), &mut words).expect(&rt, "memory");
    let line = Line::Check { pool: "f" };
    assert!(rt; is_read_as(rt.alloc(), words.as_slice(), line));
}
