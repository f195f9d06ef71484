//! The list that each page is on: the queue, or the flight of the caller that took it.
ghost use Rattle.std.specs.Prelude.{◌≡◌, ◌↔◌, IsTrue, IfOk, OnOk, Some, slice_get};
ghost use Rattle.thp_history.specs.Places.{queue, queue_by, queue_after, flights, flights_by, flights_after, flight, leaves, standing, has_page, takes_by, is_taking};

use std::alloc::{AllocError, Global};
use std::collections::VecDeque;
use thp_history::{Event, Outcome, PageId, Shape, What};

// The lists that pages are on after some events.
#[derive(Drop)]
pub(super) struct Lists {
    pub(super) queue: VecDeque<PageId>,
    // The pages in the flight of one caller.
    pub(super) flight: VecDeque<PageId>,
    // The pages of the queue and of all flights.
    pub(super) standing: VecDeque<PageId>,
}

// The queue after an outcome of the page.
fn queue_outcome(
    queue: &mut VecDeque<PageId>,
    page: PageId,
    outcome: Outcome,
) -> Result<(), AllocError>
    ensures { OnOk result (queue.new.items ≡ queue_by queue.old.items page outcome) }
{
    match outcome {
        Outcome::Stays => {}
        Outcome::Queued => queue.push_back(page)?,
        Outcome::Freed => queue.retain(|other| *other != page),
    }
    Ok(())
}

// The queue after an event.
fn queue_event(queue: &mut VecDeque<PageId>, shape: Shape, what: &What) -> Result<(), AllocError>
    ensures { OnOk result (queue.new.items ≡ queue_after shape queue.old.items what.now) }
{
    match *what {
        What::Alloc { page, .. } if shape.shrinks_underused() => queue.push_back(page)?,
        What::UnmapWhole { page, outcome, .. }
        | What::UnmapSub { page, outcome, .. }
        | What::Unpin { page, outcome, .. } => queue_outcome(queue, page, outcome)?,
        What::Taken { .. } => {
            let _ = queue.pop_front();
        }
        What::Back { page } => queue.push_back(page)?,
        _ => {}
    }
    Ok(())
}

// The queue, the oldest page first.
pub(super) fn queue(
    alloc: Global,
    shape: Shape,
    events: &[Event],
) -> Result<VecDeque<PageId>, AllocError>
    ensures { IfOk result (λ q. q.items ≡ queue shape events.now) }
{
    let mut queue = VecDeque::new(alloc);
    for event in events {
        queue_event(&mut queue, shape, &event.what)?;
    }
    Ok(queue)
}

// The flights after an outcome of the page.
fn flights_outcome(flights: &mut Vec<(u32, PageId)>, page: PageId, outcome: Outcome)
    ensures { flights.new.items ≡ flights_by flights.old.items page outcome }
{
    if let Outcome::Freed = outcome {
        flights.retain(|flight| flight.1 != page);
    }
}

// The flights after the page leaves that of the caller.
fn leave(flights: &mut Vec<(u32, PageId)>, caller: u32, page: PageId)
    ensures { flights.new.items ≡ leaves caller page flights.old.items }
{
    flights.retain(|flight| !(flight.0 == caller && flight.1 == page));
}

// The flights after an event.
fn flights_event(flights: &mut Vec<(u32, PageId)>, event: &Event) -> Result<(), AllocError>
    ensures { OnOk result (flights.new.items ≡ flights_after flights.old.items event.now.caller event.now.what) }
{
    match event.what {
        What::UnmapWhole { page, outcome, .. }
        | What::UnmapSub { page, outcome, .. }
        | What::Unpin { page, outcome, .. } => flights_outcome(flights, page, outcome),
        What::Taken { page } => flights.push((event.caller, page))?,
        What::Split { page, .. }
        | What::Used { page }
        | What::Back { page }
        | What::Dropped { page } => leave(flights, event.caller, page),
        _ => {}
    }
    Ok(())
}

// The pages in flight, each with its caller, in the order of the takes.
pub(super) fn flights(alloc: Global, events: &[Event]) -> Result<Vec<(u32, PageId)>, AllocError>
    ensures { IfOk result (λ f. f.items ≡ flights events.now) }
{
    let mut flights = Vec::new(alloc);
    for event in events {
        flights_event(&mut flights, event)?;
    }
    Ok(flights)
}

// The pages of the caller's flight.
pub(super) fn flight(
    alloc: Global,
    events: &[Event],
    caller: u32,
) -> Result<VecDeque<PageId>, AllocError>
    ensures { IfOk result (λ f. f.items ≡ flight events.now caller) }
{
    let flights = flights(alloc, events)?;
    let mut pages = VecDeque::new(alloc);
    for flight in flights.as_slice() {
        if flight.0 == caller {
            pages.push_back(flight.1)?;
        }
    }
    Ok(pages)
}

// The pages of the queue and of all flights.
pub(super) fn standing(
    alloc: Global,
    shape: Shape,
    events: &[Event],
) -> Result<VecDeque<PageId>, AllocError>
    ensures { IfOk result (λ pages. pages.items ≡ standing shape events.now) }
{
    let mut pages = queue(alloc, shape, events)?;
    let flights = flights(alloc, events)?;
    for flight in flights.as_slice() {
        pages.push_back(flight.1)?;
    }
    Ok(pages)
}

// Whether the page is among these.
pub(super) fn has_page(page: PageId, pages: &VecDeque<PageId>) -> bool
    ensures { result ≡ has_page page pages.now.items }
{
    pages.contains(&page)
}

// Whether the page is the first of these.
pub(super) fn is_first(page: PageId, pages: &VecDeque<PageId>) -> bool
    ensures { IsTrue result ↔ (slice_get pages.now.items 0 ≡ Some page) }
{
    pages.front() == Some(&page)
}

// Whether an event is a take by the caller.
fn takes_by(caller: u32, event: &Event) -> bool
    ensures { result ≡ takes_by caller event.now.caller event.now.what }
{
    matches!(event.what, What::Taken { .. } if event.caller == caller)
}

// Whether the last event is a take by the caller.
pub(super) fn is_taking(events: &[Event], caller: u32) -> bool
    ensures { result ≡ is_taking events.now caller }
{
    let mut taking = false;
    for event in events {
        taking = takes_by(caller, event);
    }
    taking
}
