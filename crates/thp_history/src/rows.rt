//! Worked histories, computed by the prover. The functions do nothing: each contract states a result.
ghost use Rattle.thp_history.specs.Legal.{IsLegal};
ghost use Rattle.thp_history.specs.Rows.{HasTotals, large_pages, small_pages, first_run, pinned_goes_to_the_tail, small_page_split, few_used, underused_scan, underused_pinned};

/// States that half of a page of 512 subpages is unmapped, and that a scan splits it: 256 frames are held and 256 were given
/// back.
pub fn first_run_is_legal()
    ensures legal { IsLegal large_pages first_run }
    ensures totals { HasTotals large_pages first_run 1 0 256 256 1 0 1 1 0 }
{}

/// States that a scan of three queued pages puts the pinned one back at the queue's tail, and that after the unpin the next scan
/// splits it.
pub fn pinned_goes_to_the_tail_is_legal()
    ensures legal { IsLegal large_pages pinned_goes_to_the_tail }
    ensures totals { HasTotals large_pages pinned_goes_to_the_tail 3 0 1533 3 3 1 3 3 0 }
{}

/// States that three of the four subpages of a small page are unmapped, and that a scan splits it.
pub fn small_page_split_is_legal()
    ensures legal { IsLegal small_pages small_page_split }
    ensures totals { HasTotals small_pages small_page_split 1 0 1 3 1 0 1 1 0 }
{}

/// States that a scan finds a page in use that has one zero-filled subpage, with threshold 1. After a partial unmap the
/// page is split, and that subpage gives its frame back too.
pub fn underused_scan_is_legal()
    ensures legal { IsLegal few_used underused_scan }
    ensures totals { HasTotals few_used underused_scan 1 0 0 4 1 0 1 1 0 }
{}

/// States that a scan of two underused pages splits the first and drops the second, which is pinned and not partly mapped.
pub fn underused_pinned_is_legal()
    ensures legal { IsLegal few_used underused_pinned }
    ensures totals { HasTotals few_used underused_pinned 2 0 6 2 1 1 0 1 1 }
{}
