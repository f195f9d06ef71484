//! Journals of nodes.
use crate::reports::nodes::{EMPTY, FIRST_RUN, UNDERUSED_SCAN, expect};
use thp_script::Report;

#[test]
fn the_empty_input_has_a_journal_of_no_events(rt: HostRuntime) {
    let nodes = [EMPTY];
    let want = "thp-journal 1\nnode 0 blocks 16\nend\n";
    expect(&rt, rt.alloc(), Report::Journal, &nodes, &[], want);
}

#[test]
fn the_first_run_is_reported_event_by_event(rt: HostRuntime) {
    let nodes = [FIRST_RUN];
    let want =
        "thp-journal 1\nnode 0 blocks 16\n0 alloc 0\n0 splitpmd 0\n0 unmapsub 0 0 256 queued -\n0 taken 0\n0 split 0 0-255\nend\n";
    expect(&rt, rt.alloc(), Report::Journal, &nodes, &[], want);
}

#[test]
fn an_underused_scan_is_reported_in_version_3(rt: HostRuntime) {
    let nodes = [UNDERUSED_SCAN];
    let want =
        "thp-journal 3\nnode 0 blocks 4 order 2 underused 1\n0 alloc 0\n0 write 0 0 3\n0 taken 0\n0 used 0\n0 splitpmd 0\n0 unmapsub 0 0 1 queued -\n0 taken 0\n0 split 0 0,3\n0 unmapsub 0 3 1 stays -\n0 unmapsub 0 1 2 freed 1-2\nend\n";
    expect(&rt, rt.alloc(), Report::Journal, &nodes, &[], want);
}

// Each node's events follow its own line.
#[test]
fn two_nodes_stand_in_order(rt: HostRuntime) {
    let nodes = [FIRST_RUN, EMPTY];
    let want =
        "thp-journal 1\nnode 0 blocks 16\n0 alloc 0\n0 splitpmd 0\n0 unmapsub 0 0 256 queued -\n0 taken 0\n0 split 0 0-255\nnode 1 blocks 16\nend\n";
    expect(&rt, rt.alloc(), Report::Journal, &nodes, &[], want);
}
