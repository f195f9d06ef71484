//! Laws of every legal history. The functions do nothing: each contract is the law.
ghost use Rattle.thp_history.specs.BlockLaws.{LivePagesAreApart, HeldBlocksAreInUse, LeastBlocksChangeOnlyBlocks, LeastBlocksAreLegal, LeastBlocksLastLongest};
ghost use Rattle.thp_history.specs.FrameLaws.{EachFrameOnce, FramesAreKept, LivePagesHoldFrames};
ghost use Rattle.thp_history.specs.PlaceLaws.{NoPageTwice, StandingPagesAreWhole, OldestAreTaken, FreedPagesAreLeftAlone, PagesAreNewOnce, NothingEntersAfterClose, OthersOnlyFree, FrontsStayInFront, BatchStaysInFront, FlightsGoByEvents, QueueGoesByEvents};
ghost use Rattle.thp_history.specs.RequestLaws.{AnswersAreOne, RequestsDecide};
ghost use Rattle.thp_history.specs.UnderusedLaws.{StandingPagesArePartlyMapped, NoPageIsFoundUsed, NoPageIsSplitAsUnderused};

/// States that no page occurs twice in the queue and all flights together, and that each page there is live and not split.
pub fn no_page_stands_twice()
    ensures once { NoPageTwice }
    ensures whole { StandingPagesAreWhole }
{}

/// States that a take is the oldest queued pages in order: consecutive takes by one caller take the first pages of the queue.
pub fn oldest_are_taken()
    ensures { OldestAreTaken }
{}

/// States that no freed page is ever taken, split, put back or dropped: each event of a page comes after its one allocation and
/// before it is freed.
pub fn freed_pages_are_left_alone()
    ensures live { FreedPagesAreLeftAlone }
    ensures new { PagesAreNewOnce }
{}

/// States that no page is queued or allocated after a close.
pub fn nothing_enters_after_close()
    ensures { NothingEntersAfterClose }
{}

/// States that no frame is lost or given back twice.
///
/// Each frame of each allocated page is either held and was never given back, or is not held and was given back once. In sum, the
/// frames of all allocated pages are those held and those given back. A live page holds at least one frame, except that a split
/// page may hold none if the switch is on. A page that is not live holds none.
pub fn each_frame_once()
    ensures each { EachFrameOnce }
    ensures sum { FramesAreKept }
    ensures live { LivePagesHoldFrames }
{}

/// States that two live pages have different blocks.
pub fn live_pages_are_apart()
    ensures { LivePagesAreApart }
{}

/// States that events of other callers change a caller's flight only by removing freed pages, and keep the order of the rest.
///
/// A prefix of the flight therefore remains a prefix after the freed pages are removed from both, and the remaining pages of a
/// batch that was a prefix are still one.
pub fn others_only_free()
    ensures flight { OthersOnlyFree }
    ensures front { FrontsStayInFront }
    ensures batch { BatchStaysInFront }
{}

/// States how a flight changes: it starts empty, the caller's takes append to it, and its splits, its returns and any caller's
/// frees remove from it. Nothing else changes it. The queue changes event by event in the same way.
pub fn flights_go_by_events()
    ensures flights { FlightsGoByEvents }
    ensures queue { QueueGoesByEvents }
{}

/// States that the choice of blocks is free: if some choice makes the events legal, so does that of the least block that no page
/// holds, and no choice is legal for longer. The blocks that pages of a legal history hold are those in use.
pub fn least_blocks_are_legal()
    ensures held { HeldBlocksAreInUse }
    ensures same { LeastBlocksChangeOnlyBlocks }
    ensures legal { LeastBlocksAreLegal }
    ensures longest { LeastBlocksLastLongest }
{}

/// States that requests decide a history: the same request has one result, and legal histories of the same requests are equal
/// except for the blocks.
pub fn requests_decide()
    ensures answer { AnswersAreOne }
    ensures history { RequestsDecide }
{}

/// States that while the switch is off each page of the queue and of a flight is partly mapped: no page is found in use, and none
/// is split as underused.
pub fn none_is_underused_while_off()
    ensures partly { StandingPagesArePartlyMapped }
    ensures used { NoPageIsFoundUsed }
    ensures split { NoPageIsSplitAsUnderused }
{}
