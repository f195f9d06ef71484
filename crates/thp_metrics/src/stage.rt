//! The stages of a page's life, and the number of pages in each.
ghost use Rattle.std.specs.Prelude.{◌≡◌, ◌^◌};
ghost use Rattle.thp_metrics.specs.Prelude.{AreWithin, MayEnter, MayLeave, entered, left, stage_by};

use thp_check::Standing;

/// The number of stages.
pub const STAGES: usize = 5;

/// The stage of a live page: the last of these that applies. Numbers of the pages in each stage are in this order.
#[derive(Clone, Copy, Debug, PartialEq, Eq)]
pub enum Stage {
    /// On no list, and not partly mapped.
    Allocated,
    /// Partly mapped, and on no list.
    PartlyMapped,
    /// In the deferred split queue.
    Queued,
    /// In a caller's batch.
    InBatch,
    /// Split into base pages.
    Split,
}

pub(crate) fn stage_by(split: bool, standing: Standing, partly_mapped: bool) -> Stage
    ensures { result ≡ stage_by split standing partly_mapped }
{
    match standing {
        _ if split => Stage::Split,
        Standing::Batch(_) => Stage::InBatch,
        Standing::Queued => Stage::Queued,
        Standing::Nowhere if partly_mapped => Stage::PartlyMapped,
        Standing::Nowhere => Stage::Allocated,
    }
}

// A page left this stage, if any.
pub(crate) fn leave(pages: &mut [u64; STAGES], stage: Option<Stage>)
    requires { MayLeave pages.old stage }
    ensures { pages.new ≡ left pages.old stage }
{
    if let Some(stage) = stage {
        pages[stage as usize] -= 1;
    }
}

// A page entered this stage, if any.
pub(crate) fn enter(pages: &mut [u64; STAGES], stage: Option<Stage>)
    requires { MayEnter pages.old stage }
    ensures { pages.new ≡ entered pages.old stage }
{
    if let Some(stage) = stage {
        pages[stage as usize] += 1;
    }
}

/// Returns the number of pages in each stage, as sums over one prefix.
pub fn widened(pages: &[u64; STAGES]) -> [u128; STAGES]
    ensures same { result ≡ pages.now }
    ensures few { AreWithin (2 ^ 64) result }
{
    pages.map(u128::from)
}
