//! The options of the command line.
ghost use Rattle.std.specs.Prelude.{◌≡◌, ◌∷◌, [], IfOk, map, codes};
ghost use Rattle.thp_cli.specs.Prelude.{IsOption, IsOwnCommand, blocks_rule, check_rule, nodes_rule, number_rule, orders_rule, report_names, report_rule, underused_rule, workers_rule};

use crate::help::AFTER_HELP;
use crate::option_kinds::{flag, valued};
use crate::version::VERSION;
use clap::{Arg, Command, value_parser};
use std::alloc::{AllocError, Global};
use thp_history::Shape;
use thp_script::{MAX_NODES, MAX_WORKERS};

static REPORTS: [&str; 3] = ["totals", "journal", "answers"];

// The option `--NAME NUMBER`: a whole number from 1 to the highest.
fn number<'a>(
    alloc: Global,
    name: &'a str,
    value_name: &'a str,
    help: &'a str,
    highest: u32,
    default: &'a str,
) -> Arg<'a>
    ensures { IsOption result (number_rule name.entry.now highest default.entry.now) }
{
    valued(alloc, name, value_name, help)
        .value_parser(value_parser!(u32).range(1..=i64::from(highest)))
        .default_value(default)
}

fn nodes_option<'a>(alloc: Global) -> Arg<'a>
    ensures { IsOption result nodes_rule }
{
    let help = "Memory nodes, 1 to 8";
    number(alloc, "nodes", "NODES", help, MAX_NODES as u32, "1")
}

fn blocks_option<'a>(alloc: Global) -> Arg<'a>
    ensures { IsOption result blocks_rule }
{
    let help = "Blocks of each node, 1 to 4096";
    number(alloc, "blocks", "BLOCKS", help, Shape::MAX_BLOCKS, "16")
}

fn workers_option<'a>(alloc: Global) -> Arg<'a>
    ensures { IsOption result workers_rule }
{
    let help = "Workers that a script may name, 1 to 63";
    number(alloc, "workers", "WORKERS", help, MAX_WORKERS, "1")
}

fn report_option<'a>(alloc: Global) -> Arg<'a>
    ensures { (names : _) × (map (λ name. name.now) names.now ≡ report_names) × IsOption result (report_rule names) }
{
    valued(alloc, "report", "REPORT", "What to write at the end")
        .value_parser(REPORTS.as_slice())
        .default_value("totals")
}

fn orders_option<'a>(alloc: Global) -> Arg<'a>
    ensures { IsOption result orders_rule }
{
    valued(
        alloc,
        "orders",
        "ORDERS",
        "Orders of the nodes' pages, 2 to 9 each, separated by commas; without this option 9 each",
    )
}

fn underused_option<'a>(alloc: Global) -> Arg<'a>
    ensures { IsOption result underused_rule }
{
    valued(
        alloc,
        "underused",
        "THRESHOLDS",
        "Zero-filled subpages allowed in a page of each node, or 'off', separated by commas",
    )
}

fn check_option<'a>(alloc: Global) -> Arg<'a>
    ensures { IsOption result check_rule }
{
    flag(
        alloc,
        "check",
        "Check whether a journal is legal, instead of running a script",
    )
}

/// Returns the command with its options.
pub(crate) fn command<'a>(alloc: Global) -> Result<Command<'a>, AllocError>
    ensures { IfOk result IsOwnCommand }
{
    let options = vec![in alloc;
        nodes_option(alloc),
        blocks_option(alloc),
        workers_option(alloc),
        report_option(alloc),
        orders_option(alloc),
        underused_option(alloc),
        check_option(alloc),
    ]?;
    Command::new(alloc, "thpsplit")
        .about("Runs a script on deferred split queues of huge pages, and reports the result")
        .version(VERSION)
        .after_help(AFTER_HELP)
        .args(options)
}
