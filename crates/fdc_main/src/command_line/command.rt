// The command as `clap` sees it: the mode, and the options of all modes.
ghost use Rattle.std.specs.Prelude.{◌≡◌, IfOk};
ghost use Rattle.clap.specs.Simple.{app_of, with_rule};
ghost use Rattle.fdc_main.specs.WordsCommand.{bare_app, command_app, mode_rule, number_rule};

use clap::builder::ValueParser;
use clap::{Arg, ArgAction, Command};
use std::alloc::{AllocError, Global};

pub fn fdc_command<'a>(alloc: Global) -> Result<Command<'a>, AllocError>
    ensures { IfOk result (λ c. app_of c ≡ command_app) }
{
    let command = with_mode(alloc, bare_command(alloc))?;
    let command = with_option(alloc, command, "ranks", 1, 16)?;
    let command = with_option(alloc, command, "steps", 1, 100_000_000)?;
    let command = with_option(alloc, command, "seed", 0, u64::MAX)?;
    with_option(alloc, command, "size", 1, 50_000)
}

fn bare_command<'a>(alloc: Global) -> Command<'a>
    ensures { app_of result ≡ bare_app }
{
    Command::new(alloc, "fdc")
        .no_binary_name(true)
        .disable_help_flag(true)
        .disable_version_flag(true)
}

fn with_mode<'a>(alloc: Global, command: Command<'a>) -> Result<Command<'a>, AllocError>
    ensures { IfOk result (λ c. app_of c ≡ with_rule (app_of command.entry) mode_rule) }
{
    let mode = Arg::new(alloc, "mode")
        .required(true)
        .action(ArgAction::Set);
    command.arg(mode)
}

// An option with a number from `low` to `high`.
fn with_option<'a>(
    alloc: Global,
    command: Command<'a>,
    name: &'static str,
    low: u64,
    high: u64,
) -> Result<Command<'a>, AllocError>
    ensures { IfOk result (λ c. app_of c ≡ with_rule (app_of command.entry) (number_rule name.now low high)) }
{
    let option = Arg::new(alloc, name)
        .long(name)
        .action(ArgAction::Set)
        .value_parser(ValueParser::Unsigned(low, high));
    command.arg(option)
}
