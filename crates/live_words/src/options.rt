//! The options of `live`, and how `clap` is told of them.
ghost use Rattle.std.specs.Prelude.{◌≡◌, IfOk, false};
ghost use Rattle.clap.specs.Words.{app_of, rule_of};
ghost use Rattle.live_words.specs.Words.{names};
ghost use Rattle.live_words.specs.Command.{command_of, option_rule};

use clap::{Arg, Command};
use ft_base::NoMemory;
use std::alloc::Global;

fn option<'a>(alloc: Global, name: &'a str) -> Arg<'a>
    ensures rule { rule_of result ≡ option_rule name.entry.now }
    ensures own { result.global ≡ false }
{
    Arg::new(alloc, name).long(name)
}

/// The command whose words these are: it has no flags of its own.
pub(crate) fn live_command<'a>(alloc: Global) -> Result<Command<'a>, NoMemory>
    ensures { IfOk result (λ command. app_of command ≡ command_of names) }
{
    let mut command = Command::new(alloc, "live")
        .no_binary_name(true)
        .disable_help_flag(true)
        .disable_version_flag(true);
    for name in ["hosts", "clients", "calls", "style", "kill", "after"] {
        match command.arg(option(alloc, name)) {
            Ok(more) => command = more,
            Err(_) => return Err(NoMemory),
        }
    }
    Ok(command)
}
