//! Three runs, each of some 100,000 commands.
use crate::stress::runs::{ran, settings_of};
use crate::stress::scripts::Plan;
use crate::stress::tallies::Tally;
use crate::stress::texts::{are_answers, are_totals, is_journal};
use crate::stress::walks::explain_section;
use std::alloc::Global;
use std::process::Abort;
use std::thread::Threads;
use std::time::Clock;
use thp_check::check;
use thp_node::Node;
use thp_run::{RunResult, Script};
use thp_script::Settings;
use thp_worker::SectionLog;

// The sums of the events of each node.
fn tallies_of(alloc: Global, nodes: &[Node]) -> Option<Vec<Tally>> {
    let mut tallies = Vec::new(alloc);
    for node in nodes {
        tallies.push(Tally::of(alloc, node)?).ok()?;
    }
    Some(tallies)
}

// Each section's answers are explained.
fn explain_sections(
    rt: &impl Abort,
    alloc: Global,
    tallies: &[Tally],
    script: &Script,
    nodes: &[Node],
    sections: &[SectionLog],
) {
    assert!(rt; sections.len() == script.workers.as_slice().len() + 1);
    for (number, section) in sections.iter().enumerate() {
        assert!(rt; section.worker as usize == number);
        let commands = match number.checked_sub(1) {
            Some(worker) => script.workers.as_slice().get(worker).expect(rt, "a worker"),
            None => &script.setup,
        };
        let commands = commands.as_slice();
        let explained = explain_section(alloc, nodes, tallies, commands, section);
        assert!(rt; explained.is_some(), "section {number}");
    }
}

// The reports agree with the nodes and the answers.
fn report_the_run(
    rt: &impl Abort,
    alloc: Global,
    settings: &Settings,
    tallies: &[Tally],
    nodes: &[Node],
    sections: &[SectionLog],
) {
    assert!(rt; is_journal(alloc, settings, nodes) == Some(true));
    assert!(rt; are_totals(alloc, settings, nodes, tallies) == Some(true));
    assert!(rt; are_answers(alloc, settings, nodes, sections) == Some(true));
}

// The number of times that an event of a worker from the ninth on directly follows one of another such worker. If all of them
// always found the nodes busy, each would execute its section alone at the end, and there would be some sixty such changes on a
// node.
fn changes_of(nodes: &[Node]) -> usize {
    let mut changes = 0usize;
    for node in nodes {
        let mut last = 0u32;
        for event in node.journal() {
            if last > 8 && event.caller > 8 && last != event.caller {
                changes = changes.saturating_add(1);
            }
            last = event.caller;
        }
    }
    changes
}

// The journals of eight nodes are legal.
fn expect_legal(rt: &impl Abort, alloc: Global, nodes: &[Node]) {
    assert!(rt; nodes.len() == 8);
    for node in nodes {
        assert!(rt; check(alloc, node.shape(), node.journal()).is_ok());
    }
}

// The answers are explained, and the reports agree with them.
fn expect_reported(
    rt: &impl Abort,
    alloc: Global,
    settings: &Settings,
    script: &Script,
    nodes: &[Node],
    sections: &[SectionLog],
) {
    let tallies = tallies_of(alloc, nodes).expect(rt, "a tally");
    let tallies = tallies.as_slice();
    explain_sections(rt, alloc, tallies, script, nodes, sections);
    report_the_run(rt, alloc, settings, tallies, nodes, sections);
}

// Runs the script of a plan, checks the result, and returns how often later workers alternate.
fn run_plan<R: Threads + Clock + Abort + Sync>(rt: &R, alloc: Global, plan: &Plan) -> usize {
    let settings = settings_of(rt, plan);
    let (script, ran) = ran(rt, alloc, plan, &settings);
    let (nodes, sections) = (ran.nodes.as_slice(), ran.sections.as_slice());
    expect_legal(rt, alloc, nodes);
    expect_reported(rt, alloc, &settings, &script, nodes, sections);
    changes_of(nodes)
}

// The least number if workers take turns, of some 100,000 events; a worker that found its nodes busy and was postponed alternates
// once.
const LEAST_CHANGES: usize = 1_000;

#[test]
fn eight_workers(rt: HostRuntime) {
    let plan = Plan {
        seed: 1,
        blocks: 64,
        workers: 8,
        commands: 12_600,
        pace: 80,
        take_turns: false,
    };
    let _changes = run_plan(&rt, rt.alloc(), &plan);
}

#[test]
fn twenty_four_workers(rt: HostRuntime) {
    let plan = Plan {
        seed: 2,
        blocks: 256,
        workers: 24,
        commands: 4_200,
        pace: 12,
        take_turns: true,
    };
    assert!(rt; run_plan(&rt, rt.alloc(), &plan) >= LEAST_CHANGES);
}

#[test]
fn sixty_three_workers(rt: HostRuntime) {
    let plan = Plan {
        seed: 3,
        blocks: 4_096,
        workers: 63,
        commands: 1_600,
        pace: 4,
        take_turns: true,
    };
    assert!(rt; run_plan(&rt, rt.alloc(), &plan) >= LEAST_CHANGES);
}
