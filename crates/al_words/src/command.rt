ghost use Rattle.std.specs.Prelude.{◌≡◌, IfOk, false};
ghost use Rattle.clap.specs.Simple.{app_of};
ghost use Rattle.clap.specs.Walk.{rule_of};
ghost use Rattle.al_words.specs.Command.{position as position_rule, option as option_rule, bare as bare_app, with_positions as positions_app, line as line_app};

use clap::{Arg, ArgAction, Command};
use std::alloc::{AllocError, Global};

fn position<'a>(alloc: Global, name: &'static str) -> Arg<'a>
    ensures rule { rule_of result ≡ position_rule name.entry.now }
    ensures local { result.global ≡ false }
{
    Arg::new(alloc, name).action(ArgAction::Set)
}

fn option<'a>(alloc: Global, name: &'static str) -> Arg<'a>
    ensures rule { rule_of result ≡ option_rule name.entry.now }
    ensures local { result.global ≡ false }
{
    Arg::new(alloc, name).long(name).action(ArgAction::Set)
}

fn bare<'a>(alloc: Global) -> Command<'a>
    ensures { app_of result ≡ bare_app }
{
    Command::new(alloc, "alef")
        .no_binary_name(true)
        .disable_help_flag(true)
        .disable_version_flag(true)
}

fn with_positions<'a>(alloc: Global) -> Result<Command<'a>, AllocError>
    ensures { IfOk result (λ c. app_of c ≡ positions_app) }
{
    let command = bare(alloc).arg(position(alloc, "mode"))?;
    let command = command.arg(position(alloc, "file"))?;
    command.arg(position(alloc, "schedule"))
}

/// The command line of the program.
pub fn line<'a>(alloc: Global) -> Result<Command<'a>, AllocError>
    ensures { IfOk result (λ c. app_of c ≡ line_app) }
{
    let command = with_positions(alloc)?.arg(option(alloc, "workers"))?;
    let command = command.arg(option(alloc, "entries"))?;
    let command = command.arg(option(alloc, "region"))?;
    command.arg(option(alloc, "number"))
}
