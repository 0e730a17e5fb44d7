//! The subcommands of `gitpool` as `clap` is told them, with their texts of usage and help.
//!
//! `specs/Usage.antt` says what each takes. The texts are for the user; no clause reads them.
//!
//! A function that adds to a command takes the `Result` of the call that made it, and only such
//! functions return early: a function that builds a whole command passes each `Result` on
//! unchanged.
ghost use Rattle.std.specs.Prelude.{◌≡◌, IfOk, codes, false, []};
ghost use Rattle.clap.specs.Words.{App, Shape, app_of, rule_of, with_subcommand};
ghost use Rattle.command_lines.specs.Usage.{ReadsWords, TakesMore, all_flag, alone, argument};
ghost use Rattle.command_lines.specs.Usage.{ask_usage, copy_usage, extract_usage, flag_of, gitpool};
ghost use Rattle.command_lines.specs.Usage.{merge_usage, option_of, pack_usage, pool_option};
ghost use Rattle.command_lines.specs.Usage.{pool_usage, subcommand, tenant_usage};

use crate::version::VERSION;
use clap::{Arg, ArgAction, Command};
use std::alloc::{AllocError, Global};

fn argument<'a>(alloc: Global, id: &'a str, shown: &'a str, help: &'a str) -> Arg<'a>
    ensures rule { rule_of result ≡ argument id.entry.now }
    ensures local { result.global ≡ false }
{
    Arg::new(alloc, id)
        .value_name(shown)
        .required(true)
        .help(help)
}

// An option whose value is the path of a file.
fn file_option<'a>(alloc: Global, id: &'a str, help: &'a str) -> Arg<'a>
    ensures rule { rule_of result ≡ option_of id.entry.now }
    ensures local { result.global ≡ false }
{
    argument(alloc, id, "FILE", help).long(id)
}

// An option without a value.
fn flag<'a>(alloc: Global, id: &'a str, help: &'a str) -> Arg<'a>
    ensures rule { rule_of result ≡ flag_of id.entry.now }
    ensures local { result.global ≡ false }
{
    Arg::new(alloc, id)
        .long(id)
        .action(ArgAction::SetTrue)
        .help(help)
}

fn subcommand<'a>(alloc: Global, name: &'a str, about: &'a str) -> Command<'a>
    ensures { ReadsWords result (subcommand name.entry.now []) }
{
    Command::new(alloc, name).about(about)
}

// The subcommand with one more argument.
fn with_word<'a>(
    alloc: Global,
    command: Result<Command<'a>, AllocError>,
    id: &'a str,
    shown: &'a str,
    help: &'a str,
) -> Result<Command<'a>, AllocError>
    ensures { TakesMore command.entry (argument id.entry.now) result }
{
    command?.arg(argument(alloc, id, shown, help))
}

fn with_tenant<'a>(
    alloc: Global,
    command: Result<Command<'a>, AllocError>,
) -> Result<Command<'a>, AllocError>
    ensures { TakesMore command.entry (argument (codes "tenant")) result }
{
    with_word(alloc, command, "tenant", "TENANT", "The tenant's name")
}

// The subcommand with an option that names a file.
fn with_file<'a>(
    alloc: Global,
    command: Result<Command<'a>, AllocError>,
    id: &'a str,
    help: &'a str,
) -> Result<Command<'a>, AllocError>
    ensures { TakesMore command.entry (option_of id.entry.now) result }
{
    command?.arg(file_option(alloc, id, help))
}

// The subcommand with `--pool`, which every subcommand has.
fn with_pool<'a>(
    alloc: Global,
    command: Result<Command<'a>, AllocError>,
) -> Result<Command<'a>, AllocError>
    ensures { TakesMore command.entry pool_option result }
{
    with_file(alloc, command, "pool", "The pool file")
}

// The subcommand with `--all`, which wants every ref.
fn with_all<'a>(
    alloc: Global,
    command: Result<Command<'a>, AllocError>,
) -> Result<Command<'a>, AllocError>
    ensures { TakesMore command.entry all_flag result }
{
    command?.arg(flag(alloc, "all", "Also want every ref"))
}

// A subcommand that takes the pool file alone.
fn for_pool<'a>(alloc: Global, name: &'a str, about: &'a str) -> Result<Command<'a>, AllocError>
    ensures { IfOk result (λ c. ReadsWords c (pool_usage name.entry.now)) }
{
    with_pool(alloc, Ok(subcommand(alloc, name, about)))
}

// A subcommand that takes a tenant and the pool file.
fn for_tenant<'a>(alloc: Global, name: &'a str, about: &'a str) -> Result<Command<'a>, AllocError>
    ensures { IfOk result (λ c. ReadsWords c (tenant_usage name.entry.now)) }
{
    let command = with_tenant(alloc, Ok(subcommand(alloc, name, about)));
    with_pool(alloc, command)
}

fn ask<'a>(alloc: Global) -> Result<Command<'a>, AllocError>
    ensures { IfOk result (λ c. ReadsWords c ask_usage) }
{
    let command = Ok(subcommand(alloc, "ask", "Print the answer to a query"));
    let command = with_tenant(alloc, command);
    let command = with_word(alloc, command, "query", "QUERY", "The query, as one word");
    with_pool(alloc, command)
}

fn copy<'a>(alloc: Global) -> Result<Command<'a>, AllocError>
    ensures { IfOk result (λ c. ReadsWords c copy_usage) }
{
    let about = "Copy a tenant's repository to an empty tenant";
    let command = Ok(subcommand(alloc, "copy", about));
    let command = with_word(alloc, command, "from", "FROM", "The tenant that is copied");
    let command = with_word(
        alloc,
        command,
        "to",
        "TO",
        "The tenant that the copy is for",
    );
    with_pool(alloc, command)
}

fn extract<'a>(alloc: Global) -> Result<Command<'a>, AllocError>
    ensures { IfOk result (λ c. ReadsWords c extract_usage) }
{
    let about = "Write a tenant to a pool file of its own";
    let command = for_tenant(alloc, "extract", about);
    with_file(alloc, command, "to", "The pool file to write")
}

fn merge<'a>(alloc: Global) -> Result<Command<'a>, AllocError>
    ensures { IfOk result (λ c. ReadsWords c merge_usage) }
{
    let about = "Add the tenants of another pool file";
    let command = Ok(subcommand(alloc, "merge", about));
    let command = with_word(alloc, command, "file", "FILE", "The pool file that is read");
    with_pool(alloc, command)
}

fn pack<'a>(alloc: Global) -> Result<Command<'a>, AllocError>
    ensures { IfOk result (λ c. ReadsWords c pack_usage) }
{
    let about = "Write a pack of what the lines of standard input ask for";
    with_all(alloc, for_tenant(alloc, "pack", about))
}

// The program without its subcommands.
fn program<'a>(alloc: Global) -> Result<Command<'a>, AllocError>
    ensures { IfOk result (λ c. app_of c ≡ alone) }
{
    Command::new(alloc, "gitpool")
        .about("Git repositories of many tenants over one pool of objects")
        .version(VERSION)
        .no_binary_name(true)
        .subcommand_required(true)
        .bin_name("gitpool")
}

// The program with one more subcommand.
fn with<'a>(
    program: Result<Command<'a>, AllocError>,
    subcommand: Result<Command<'a>, AllocError>,
) -> Result<Command<'a>, AllocError>
    ensures { (app : App) → (usage : Shape) → IfOk program.entry (λ c. app_of c ≡ app)
        → IfOk subcommand.entry (λ s. ReadsWords s usage)
        → IfOk result (λ c. app_of c ≡ with_subcommand app usage) }
{
    program?.subcommand(subcommand?)
}

/// The program with its subcommands. Takes memory.
pub(crate) fn gitpool<'a>(alloc: Global) -> Result<Command<'a>, AllocError>
    ensures { IfOk result (λ c. app_of c ≡ gitpool) }
{
    let about = "Answer frames of steps from standard input on standard output";
    let program = with(program(alloc), for_pool(alloc, "serve", about));
    let about = "Import a stream of git-fast-import(1) from standard input";
    let program = with(program, for_tenant(alloc, "import", about));
    let program = with(program, ask(alloc));
    let about = "Check the pool file and count what it has";
    let program = with(program, for_pool(alloc, "check", about));
    let program = with(program, copy(alloc));
    let about = "Remove a tenant with all that it has";
    let program = with(program, for_tenant(alloc, "remove", about));
    let about = "Drop the objects that no ref of a tenant reaches";
    let program = with(program, for_tenant(alloc, "compact", about));
    let about = "Print how much each tenant has";
    let program = with(program, for_pool(alloc, "sizes", about));
    let program = with(program, extract(alloc));
    let program = with(program, merge(alloc));
    let about = "Answer frames of steps and of the operator, and save when asked";
    let program = with(program, for_pool(alloc, "host", about));
    with(program, pack(alloc))
}
