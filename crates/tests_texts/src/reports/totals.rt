//! Totals of nodes.
use crate::reports::nodes::{EMPTY, FIRST_RUN, UNDERUSED_PINNED, expect};
use thp_script::Report;

const NO_PAGES: &str =
    "node 0\npages 0\nqueue 0\nframes_held 0\nframes_given 0\nthp_split_page 0\nthp_split_page_failed 0\nthp_deferred_split_page 0\nthp_split_pmd 0\n";

#[test]
fn the_empty_input_has_nine_lines_of_no_pages(rt: HostRuntime) {
    let nodes = [EMPTY];
    expect(&rt, rt.alloc(), Report::Totals, &nodes, &[], NO_PAGES);
}

#[test]
fn the_first_run_gives_half_of_a_page_back(rt: HostRuntime) {
    let nodes = [FIRST_RUN];
    let want =
        "node 0\npages 1\nqueue 0\nframes_held 256\nframes_given 256\nthp_split_page 1\nthp_split_page_failed 0\nthp_deferred_split_page 1\nthp_split_pmd 1\n";
    expect(&rt, rt.alloc(), Report::Totals, &nodes, &[], want);
}

// The tenth line is that of the nodes with the switch on; each node's lines have its number.
#[test]
fn an_underused_page_is_reported_by_a_tenth_line(rt: HostRuntime) {
    let nodes = [EMPTY, UNDERUSED_PINNED];
    let want =
        "node 0\npages 0\nqueue 0\nframes_held 0\nframes_given 0\nthp_split_page 0\nthp_split_page_failed 0\nthp_deferred_split_page 0\nthp_split_pmd 0\nnode 1\npages 2\nqueue 0\nframes_held 6\nframes_given 2\nthp_split_page 1\nthp_split_page_failed 1\nthp_deferred_split_page 0\nthp_split_pmd 1\nthp_underused_split_page 1\n";
    expect(&rt, rt.alloc(), Report::Totals, &nodes, &[], want);
}
