//! Options of a command line, by their kind.
ghost use Rattle.thp_cli.specs.OptionKinds.{flag_rule, valued_rule, IsOption};

use clap::{Arg, ArgAction};
use std::alloc::Global;

/// Returns the flag `--NAME`, with its text in `--help`.
pub fn flag<'a>(alloc: Global, name: &'a str, help: &'a str) -> Arg<'a>
    ensures { IsOption result (flag_rule name.entry.now) }
{
    Arg::new(alloc, name)
        .long(name)
        .help(help)
        .action(ArgAction::SetTrue)
}

/// Returns the option `--NAME VALUE`, with the name of its value and its text in `--help`.
pub(crate) fn valued<'a>(
    alloc: Global,
    name: &'a str,
    value_name: &'a str,
    help: &'a str,
) -> Arg<'a>
    ensures { IsOption result (valued_rule name.entry.now) }
{
    Arg::new(alloc, name)
        .long(name)
        .value_name(value_name)
        .help(help)
        .action(ArgAction::Set)
}
