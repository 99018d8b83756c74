//! The commands of the program, as `clap` knows them.

ghost use Rattle.std.specs.Prelude.{◌≡◌, IfOk, codes, false};
ghost use Rattle.clap.specs.Words.{app_of, kind_of, rule_of, shape_of};
ghost use Rattle.clap.specs.declared.builder.command.Command.TheViews.{out-Command};
ghost use Rattle.sptr.specs.CommandLine.{AddsCommand, bare, draw_line, file_word, flag_rule};
ghost use Rattle.sptr.specs.CommandLine.{left_line, option_rule, orders_line, owners_line, program};
ghost use Rattle.sptr.specs.CommandLine.{script_line, turns_line};

use clap::error::ErrorKind;
use clap::{Arg, ArgAction, Command, Error};
use std::alloc::{AllocError, Global};

/// What `--version` tells.
const VERSION: &str = "1.2.0";

/// `FILE`.
fn file_argument<'a>(alloc: Global, help: &'a str) -> Arg<'a>
    ensures rule { rule_of result ≡ file_word }
    ensures local { result.global ≡ false }
{
    Arg::new(alloc, "file").value_name("FILE").help(help)
}

/// `--NAME VALUE`.
fn option<'a>(alloc: Global, name: &'a str, value: &'a str, help: &'a str) -> Arg<'a>
    ensures rule { rule_of result ≡ option_rule name.entry.now }
    ensures local { result.global ≡ false }
{
    Arg::new(alloc, name)
        .long(name)
        .value_name(value)
        .help(help)
}

/// `--NAME`.
fn flag<'a>(alloc: Global, name: &'a str, help: &'a str) -> Arg<'a>
    ensures rule { rule_of result ≡ flag_rule name.entry.now }
    ensures local { result.global ≡ false }
{
    Arg::new(alloc, name)
        .long(name)
        .action(ArgAction::Count)
        .help(help)
}

/// A command that takes a script.
fn script_command<'a>(
    alloc: Global,
    name: &'a str,
    about: &'a str,
) -> Result<Command<'a>, AllocError>
    ensures shape { IfOk result (λ c. shape_of c ≡ script_line name.entry.now) }
    ensures local { IfOk result (λ c. (out-Command c).has_globals ≡ false) }
{
    Command::new(alloc, name).about(about).arg(file_argument(
        alloc,
        "The script; where none is named, standard input",
    ))
}

/// A command that takes a script and a list of turns.
fn turns_command<'a>(
    alloc: Global,
    name: &'a str,
    about: &'a str,
) -> Result<Command<'a>, AllocError>
    ensures shape { IfOk result (λ c. shape_of c ≡ turns_line name.entry.now) }
    ensures local { IfOk result (λ c. (out-Command c).has_globals ≡ false) }
{
    let turns = "Threads, by their numbers, in the order of their turns";
    let file = "A file with the list of turns, in place of --turns";
    script_command(alloc, name, about)?
        .arg(option(alloc, "turns", "LIST", turns))?
        .arg(option(alloc, "turns-file", "FILE", file))
}

fn left_command<'a>(alloc: Global) -> Result<Command<'a>, AllocError>
    ensures shape { IfOk result (λ c. shape_of c ≡ left_line) }
    ensures local { IfOk result (λ c. (out-Command c).has_globals ≡ false) }
{
    let about = "Runs a script act by act, and tells what is left and who holds it";
    turns_command(alloc, "left", about)?.arg(flag(alloc, "dot", "As a graph for Graphviz"))
}

fn draw_command<'a>(alloc: Global) -> Result<Command<'a>, AllocError>
    ensures shape { IfOk result (λ c. shape_of c ≡ draw_line) }
    ensures local { IfOk result (λ c. (out-Command c).has_globals ≡ false) }
{
    let about = "Runs a script act by act, and draws the run as SVG";
    let fine = "By single atomic steps, one for each number of the list";
    let page = "As one HTML page on which to go through the run act by act";
    turns_command(alloc, "draw", about)?
        .arg(flag(alloc, "fine", fine))?
        .arg(flag(alloc, "page", page))?
        .arg(option(alloc, "from", "N", "The first act that is drawn, from 1"))?
        .arg(option(alloc, "to", "M", "The last act that is drawn"))
}

fn owners_command<'a>(alloc: Global) -> Result<Command<'a>, AllocError>
    ensures shape { IfOk result (λ c. shape_of c ≡ owners_line) }
    ensures local { IfOk result (λ c. (out-Command c).has_globals ≡ false) }
{
    let about = "Reads a graph of owners, and tells what leaks, and what to make weak";
    Command::new(alloc, "owners")
        .about(about)
        .arg(file_argument(alloc, "The graph; where none is named, standard input"))?
        .arg(flag(alloc, "dot", "As a graph for Graphviz"))
}

fn orders_command<'a>(alloc: Global) -> Result<Command<'a>, AllocError>
    ensures shape { IfOk result (λ c. shape_of c ≡ orders_line) }
    ensures local { IfOk result (λ c. (out-Command c).has_globals ≡ false) }
{
    let about = "Runs a script in every order of its threads, and tells each outcome once";
    let find = "A line: only the turns are told by which it is told, or never";
    let page = "As one HTML page on which to go through the run of each outcome";
    script_command(alloc, "orders", about)?
        .arg(option(alloc, "find", "LINE", find))?
        .arg(option(alloc, "most", "N", "How many states are seen at most"))?
        .arg(flag(alloc, "page", page))
}

/// That `orders` was asked for a line and for a page.
pub(crate) fn conflict(alloc: Global) -> Result<Error, AllocError>
    ensures { IfOk result (λ e. kind_of e ≡ ErrorKind.ArgumentConflict) }
{
    let mut command = orders_command(alloc)?.bin_name("sptr orders")?;
    command.error(
        ErrorKind::ArgumentConflict,
        "the argument '--find <LINE>' cannot be used with '--page'",
    )
}

/// The program with this command too.
fn with_command<'a>(
    program: Result<Command<'a>, AllocError>,
    command: Result<Command<'a>, AllocError>,
) -> Result<Command<'a>, AllocError>
    ensures { IfOk result (λ r. AddsCommand program.entry command.entry r) }
{
    program?.subcommand(command?)
}

/// The program with no command yet.
fn bare_program<'a>(alloc: Global) -> Command<'a>
    ensures { app_of result ≡ bare }
{
    Command::new(alloc, "sptr")
        .about(
            "Runs scripts of shared and weak pointers, and finds what leaks of a graph of owners",
        )
        .version(VERSION)
        .subcommand_required(true)
}

/// The program, with all its commands.
pub(crate) fn command<'a>(alloc: Global) -> Result<Command<'a>, AllocError>
    ensures { IfOk result (λ c. app_of c ≡ program) }
{
    let check = "Reads a script, and says how many threads and statements it has";
    let program = with_command(
        Ok(bare_program(alloc)),
        script_command(alloc, "check", check),
    );
    let convert = "Reads a script, and writes the same in version 2, in canonical form";
    let program = with_command(program, script_command(alloc, "convert", convert));
    let program = with_command(
        program,
        turns_command(alloc, "step", "Runs a script act by act"),
    );
    let fine = "Runs a script by single atomic steps";
    let program = with_command(program, turns_command(alloc, "fine", fine));
    let run = "Runs a script on real workers, one a thread";
    let program = with_command(program, script_command(alloc, "run", run));
    let program = with_command(program, left_command(alloc));
    let program = with_command(program, draw_command(alloc));
    let program = with_command(program, owners_command(alloc));
    with_command(program, orders_command(alloc))
}
