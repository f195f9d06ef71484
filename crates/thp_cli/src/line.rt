//! The request of a command line.
ghost use Rattle.std.specs.Prelude.{◌≡◌, ◌≢◌, ◌≤◌, ◌<◌, ◌^◌, ℕ, IfOk, IfSome, IfNone, Some, map, codes, pos};
ghost use Rattle.clap.specs.Words.{first_value, found_of, one_text};
ghost use Rattle.clap.specs.declared.builder.value_parser.ValueParser.TheVariants.{Names, Signed};
ghost use Rattle.thp_cli.specs.Prelude.{FailsAsWords, HasValue, HoldsWords, IsLineWithinLimits, WritesNumber, report_name, report_names};
ghost use Rattle.thp_script.specs.declared.settings.Report.{Report};

use crate::options::command;
use clap::{ArgMatches, Error};
use std::alloc::Global;
use thp_script::Report;

/// The request of a command line.
#[derive(Clone, Copy, Debug)]
pub struct Line<'a> {
    /// The number of nodes, 1 to 8.
    pub nodes: u32,
    /// The number of blocks of each node, 1 to 4,096.
    pub blocks: u32,
    /// The number of workers that a script may name, 1 to 63.
    pub workers: u32,
    /// What to write at the end.
    pub report: Report,
    /// The orders of the nodes' pages, as written in the words.
    pub orders: Option<&'a str>,
    /// The thresholds of the nodes that split underused pages, as written in the words.
    pub underused: Option<&'a str>,
    /// Whether to check a journal instead of running a script.
    pub check: bool,
}

/// Returns the number that is the value of this option.
fn number_of(matches: &ArgMatches, id: &str) -> u32
    requires { (high : ℕ) × (high < 2 ^ 32) × HasValue (found_of matches.now) id.now (Signed (pos 1) (pos high)) }
    ensures written { WritesNumber (one_text (found_of matches.now) id.now) result }
    ensures least { 1 ≤ result }
    ensures most { (high : ℕ) → high < 2 ^ 32 → HasValue (found_of matches.now) id.now (Signed (pos 1) (pos high)) → result ≤ high }
{
    matches.get_one::<u32>(id).unwrap()
}

fn report_of(matches: &ArgMatches) -> Report
    requires { (names : _) × (map (λ name. name.now) names.now ≡ report_names) × HasValue (found_of matches.now) (codes "report") (Names names) }
    ensures { first_value (found_of matches.now) (codes "report") ≡ Some (report_name result) }
{
    match matches.get_str("report").unwrap() {
        "totals" => Report::Totals,
        "journal" => Report::Journal,
        _ => Report::Answers,
    }
}

/// Reads the words of a command line. The first word names the program.
///
/// The line has the values of the options in the words, or their defaults. The error is `clap`'s: help if the words request it,
/// otherwise what is wrong with them, or that memory could not be allocated.
pub fn read_line<'a>(alloc: Global, words: &'a [&'a str]) -> Result<Line<'a>, Error>
    ensures held { IfOk result (HoldsWords (map (λ word. word.now) words.entry.now)) }
    ensures within { IfOk result IsLineWithinLimits }
    ensures refused { FailsAsWords (map (λ word. word.now) words.entry.now) result }
{
    let matches = command(alloc)?.try_get_matches_from(words)?;
    let nodes = number_of(&matches, "nodes");
    let blocks = number_of(&matches, "blocks");
    let workers = number_of(&matches, "workers");
    let orders = matches.get_str("orders");
    let underused = matches.get_str("underused");
    Ok(Line {
        nodes,
        blocks,
        workers,
        report: report_of(&matches),
        orders,
        underused,
        check: matches.get_flag("check"),
    })
}
