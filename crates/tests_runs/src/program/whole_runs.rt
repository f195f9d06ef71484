//! Runs of scripts on one node, with the reports `totals` that are known beforehand. `tests/test_rows.py` has the rows.
use crate::program::running::reports;

pub(crate) const FIRST_SCRIPT: &[u8] = b"setup\nalloc 0\nsplitpmd 0 0\nunmap 0 0 0 256\nscan 0 8\n";

#[test]
fn first_run(rt: HostRuntime) {
    let report =
        b"node 0\npages 1\nqueue 0\nframes_held 256\nframes_given 256\nthp_split_page 1\nthp_split_page_failed 0\nthp_deferred_split_page 1\nthp_split_pmd 1\n";
    assert!(rt; reports(&rt, rt.alloc(), 16, FIRST_SCRIPT, report));
}

#[test]
fn empty_input(rt: HostRuntime) {
    let report =
        b"node 0\npages 0\nqueue 0\nframes_held 0\nframes_given 0\nthp_split_page 0\nthp_split_page_failed 0\nthp_deferred_split_page 0\nthp_split_pmd 0\n";
    assert!(rt; reports(&rt, rt.alloc(), 16, b"", report));
    assert!(rt; reports(&rt, rt.alloc(), 16, b"# nothing\n\nsetup\n", report));
}
