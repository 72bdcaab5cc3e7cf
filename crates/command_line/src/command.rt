//! The parser's command, of the rows that stand for each command.

ghost use Rattle.std.specs.Prelude.{◌≡◌, [], ◌∷◌, ◌++◌, IfOk, false, true, map};
ghost use Rattle.std.specs.List.{flat_map, list_all};
ghost use Rattle.clap.specs.Words.{app_of, rule_of, with_subcommand};
ghost use Rattle.command_line.specs.Commands.{command_entries, commands, file, flag, limit, option, program};
ghost use Rattle.command_line.specs.proving.Rows.{is_unshared, rules_of_group, rule_of_argument, shape_of_row, with_entries, with_rows};

use crate::commands::{Argument, COMMANDS, CommandRow, LIMIT, after_help_of};
use clap::{Arg, ArgAction, Command, value_parser};
use std::alloc::{AllocError, Global};

/// The number of this version, as the file `VERSION` has it.
const VERSION: &str = "1.0.0";

/// What follows the list of commands in the program's help.
const OF_THE_PROGRAM: &str = "\
A LOG is what `candump -l` or `-L` writes. `udsnorm COMMAND --help` has the options of a command.

Exit status:
  0  done, even if a log holds neither identifier; of two logs: they mean the same
  1  two logs differ
  2  wrong arguments, a wrong profile, or one stream for two files
  3  a log is refused
  4  a file can't be opened, or reading or writing failed
  5  out of memory
  6  with `--strict`: a log is not clean

Example: udsnorm compare yesterday.log today.log";

/// The program with all its commands.
pub(crate) fn command<'a>(alloc: Global) -> Result<Command<'a>, AllocError>
    ensures { IfOk result (λ c. app_of c ≡ commands) }
{
    with_commands(alloc, program(alloc)?)
}

/// The program with its commands.
fn with_commands<'a>(alloc: Global, program: Command<'a>) -> Result<Command<'a>, AllocError>
    ensures { IfOk result (λ c. app_of c ≡ with_entries (app_of program.entry) command_entries) }
{
    with_rows(alloc, program, COMMANDS)
}

/// The program with more commands.
fn with_rows<'a>(
    alloc: Global,
    program: Command<'a>,
    rows: &[CommandRow],
) -> Result<Command<'a>, AllocError>
    ensures { IfOk result (λ c. app_of c ≡ with_rows (app_of program.entry) rows.now) }
{
    let mut command = program;
    'rows: for row in rows {
        command = with_row(alloc, command, row)?;
    }
    Ok(command)
}

/// The program before its commands, one of which has to be named.
fn program<'a>(alloc: Global) -> Result<Command<'a>, AllocError>
    ensures { IfOk result (λ c. app_of c ≡ record { top = program; subs = [] }) }
{
    Command::new(alloc, "udsnorm")
        .no_binary_name(true)
        .disable_help_subcommand(true)
        .subcommand_required(true)
        .version(VERSION)
        .about(
            "Compares recorded UDS sessions of an ECU (ISO 14229 over ISO-TP), from candump logs",
        )
        .after_help(OF_THE_PROGRAM)
        .bin_name("udsnorm")
}

/// The program with one command more.
fn with_row<'a>(
    alloc: Global,
    program: Command<'a>,
    row: &CommandRow,
) -> Result<Command<'a>, AllocError>
    ensures { IfOk result (λ c. app_of c ≡ with_subcommand (app_of program.entry) (shape_of_row row.now)) }
{
    program.subcommand(command_of_row(alloc, row)?)
}

/// A command. Its options and files are handed on together, since each call of the parser moves all of it.
fn command_of_row<'a>(alloc: Global, row: &CommandRow) -> Result<Command<'a>, AllocError>
    ensures { IfOk result (λ c. app_of c ≡ record { top = shape_of_row row.now; subs = [] }) }
{
    let args = args_of_row(alloc, row)?;
    Command::new(alloc, row.name)
        .about(row.about)
        .after_help(after_help_of(row.name))
        .args(args)
}

/// The options and files of a command.
fn args_of_row<'a>(alloc: Global, row: &CommandRow) -> Result<Vec<Arg<'a>>, AllocError>
    ensures rules { IfOk result (λ args. map rule_of args.items ≡ flat_map (λ group. rules_of_group group.now) row.now.arguments.now) }
    ensures local { IfOk result (λ args. list_all is_unshared args.items ≡ true) }
{
    let mut args = Vec::new(alloc);
    'groups: for group in row.arguments {
        push_group(alloc, &mut args, group)?;
    }
    Ok(args)
}

/// Puts the options and files of a group behind others.
#[inline(always)]
fn push_group<'a>(
    alloc: Global,
    args: &mut Vec<Arg<'a>>,
    group: &[Argument],
) -> Result<(), AllocError>
    ensures rules { IfOk result (λ _. map rule_of args.new.items ≡ map rule_of args.old.items ++ rules_of_group group.now) }
    ensures local { list_all is_unshared args.old.items ≡ true → list_all is_unshared args.new.items ≡ true }
{
    'arguments: for argument in group {
        push_argument(alloc, args, *argument)?;
    }
    Ok(())
}

/// Puts an option or a file behind others.
#[inline(always)]
fn push_argument<'a>(
    alloc: Global,
    args: &mut Vec<Arg<'a>>,
    argument: Argument,
) -> Result<(), AllocError>
    ensures rules { IfOk result (λ _. map rule_of args.new.items ≡ map rule_of args.old.items ++ rule_of_argument argument ∷ []) }
    ensures local { list_all is_unshared args.old.items ≡ true → list_all is_unshared args.new.items ≡ true }
{
    args.push(arg(alloc, argument))?;
    Ok(())
}

/// An option or a file.
fn arg<'a>(alloc: Global, argument: Argument) -> Arg<'a>
    ensures rule { rule_of result ≡ rule_of_argument argument }
    ensures local { result.global ≡ false }
{
    match argument {
        Argument::Text { name, value, help } => text(alloc, name, value, help),
        Argument::Limit { default, help } => limit(alloc, default, help),
        Argument::Flag { name, help } => flag(alloc, name, help),
        Argument::File {
            name,
            is_required,
            help,
        } => file(alloc, name, is_required, help),
    }
}

/// An option that takes a text, which its help calls so.
fn text<'a>(alloc: Global, name: &'a str, value: &'a str, help: &'a str) -> Arg<'a>
    ensures rule { rule_of result ≡ option name.entry.now }
    ensures local { result.global ≡ false }
{
    Arg::new(alloc, name)
        .long(name)
        .value_name(value)
        .help(help)
}

/// The option of the limit, which is this where it is not given.
fn limit<'a>(alloc: Global, most: &'a str, help: &'a str) -> Arg<'a>
    ensures rule { rule_of result ≡ limit most.entry.now }
    ensures local { result.global ≡ false }
{
    Arg::new(alloc, LIMIT)
        .long(LIMIT)
        .value_name("BYTES")
        .help(help)
        .value_parser(value_parser!(u64))
        .default_value(most)
}

/// An option without a value.
fn flag<'a>(alloc: Global, name: &'a str, help: &'a str) -> Arg<'a>
    ensures rule { rule_of result ≡ flag name.entry.now }
    ensures local { result.global ≡ false }
{
    Arg::new(alloc, name)
        .long(name)
        .action(ArgAction::SetTrue)
        .help(help)
}

/// A file.
fn file<'a>(alloc: Global, name: &'a str, is_required: bool, help: &'a str) -> Arg<'a>
    ensures rule { rule_of result ≡ file name.entry.now is_required }
    ensures local { result.global ≡ false }
{
    Arg::new(alloc, name).required(is_required).help(help)
}
