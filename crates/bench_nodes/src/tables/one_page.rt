//! Times of the calls of one page of 512 subpages.

use crate::stopwatch::Stopwatch;
use anyhow::Result;
use std::time::CpuClock;
use thp_history::SubSet;
use thp_page::Page;

const ORDER: u32 = 9;

/// Unmaps and maps the first subpages of a page.
pub(crate) fn time_range<R: CpuClock + Eprint>(rt: &R, count: u32, rounds: u32) -> Result<()> {
    let mut page = mapped_by_subpages();
    let watch = Stopwatch::start(rt)?;
    let mut sum = 0u64;
    for _round in 0..rounds {
        if let Ok(change) = page.unmap_sub(0, count) {
            sum = sum.wrapping_add(u64::from(change.used_left));
        }
        sum = sum.wrapping_add(u64::from(page.map_sub(0, count).is_ok()));
    }
    let what = format_args!("unmap_sub and map_sub of {count}");
    watch.report(rt, what, rounds, sum)
}

/// Maps and unmaps the first subpages of a page that is split.
pub(crate) fn time_range_of_split_page<R: CpuClock + Eprint>(
    rt: &R,
    count: u32,
    rounds: u32,
) -> Result<()> {
    let mut page = mapped_by_subpages();
    let mut sum = u64::from(split(&mut page).count());
    let watch = Stopwatch::start(rt)?;
    for _round in 0..rounds {
        sum = sum.wrapping_add(u64::from(page.map_sub(0, count).is_ok()));
        if let Ok(change) = page.unmap_sub(0, count) {
            sum = sum.wrapping_add(u64::from(change.used_left));
        }
    }
    let what = format_args!("map_sub and unmap_sub of {count}, split page");
    watch.report(rt, what, rounds, sum)
}

/// Writes data and then zeros to the first subpages of a page.
pub(crate) fn time_writes<R: CpuClock + Eprint>(rt: &R, count: u32, rounds: u32) -> Result<()> {
    let mut page = mapped_by_subpages();
    let watch = Stopwatch::start(rt)?;
    let mut sum = 0u64;
    for _round in 0..rounds {
        sum = sum.wrapping_add(u64::from(page.write(0, count).is_ok()));
        sum = sum.wrapping_add(u64::from(page.zero(0, count).is_ok()));
    }
    let what = format_args!("write and zero of {count}");
    watch.report(rt, what, rounds, sum)
}

/// Makes a page and splits its mapping.
pub(crate) fn time_split_pmd<R: CpuClock + Eprint>(rt: &R, rounds: u32) -> Result<()> {
    let watch = Stopwatch::start(rt)?;
    let mut sum = 0u64;
    for _round in 0..rounds {
        let page = mapped_by_subpages();
        sum = sum.wrapping_add(u64::from(page.has_use()));
    }
    watch.report(rt, "fresh and split_pmd", rounds, sum)
}

/// The same, and then unmaps half of the page and splits it.
pub(crate) fn time_split<R: CpuClock + Eprint>(rt: &R, rounds: u32) -> Result<()> {
    let watch = Stopwatch::start(rt)?;
    let mut sum = 0u64;
    for _round in 0..rounds {
        let mut page = mapped_by_subpages();
        sum = sum.wrapping_add(u64::from(page.unmap_sub(0, 256).is_ok()));
        sum = sum.wrapping_add(u64::from(split(&mut page).count()));
    }
    watch.report(
        rt,
        "fresh, split_pmd, unmap_sub of 256 and split",
        rounds,
        sum,
    )
}

// A page of which each subpage has a mapping of its own.
fn mapped_by_subpages() -> Page {
    let mut page = Page::fresh(ORDER);
    let _done = page.split_pmd();
    page
}

// Splits a page, if it can be split.
fn split(page: &mut Page) -> SubSet {
    if page.is_split() || page.pins() > 0 {
        SubSet::empty()
    } else {
        page.split(false)
    }
}
