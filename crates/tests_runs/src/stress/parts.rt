//! A caller's part of a journal.
use std::alloc::{AllocError, Global};
use thp_history::{Event, What};

// The events of one caller on a node, and how many of them are explained.
#[derive(Drop)]
pub(crate) struct Part<'a> {
    events: &'a [Event],
    // the indices of the caller's events
    places: Vec<usize>,
    explained: usize,
}

impl<'a> Part<'a> {
    // The part of a caller, before any of it is explained.
    pub(crate) fn new(
        alloc: Global,
        events: &'a [Event],
        caller: u32,
    ) -> Result<Part<'a>, AllocError> {
        let mut places = Vec::new(alloc);
        for (place, event) in events.iter().enumerate() {
            if event.caller == caller {
                places.push(place)?;
            }
        }
        Ok(Part {
            events,
            places,
            explained: 0,
        })
    }

    // The caller's next event, which is explained then.
    pub(crate) fn next(&mut self) -> Option<What> {
        let place = *self.places.get(self.explained)?;
        let event = self.events.get(place)?;
        self.explained = self.explained.wrapping_add(1);
        Some(event.what)
    }

    // How many events aren't explained.
    pub(crate) fn left(&self) -> usize {
        self.places.len().saturating_sub(self.explained)
    }

    // The number of events of the node before the caller's next event: at least, and at most.
    pub(crate) fn before(&self) -> (usize, usize) {
        let least = match self.explained.checked_sub(1) {
            Some(last) => match self.places.get(last) {
                Some(place) => place.wrapping_add(1),
                None => 0,
            },
            None => 0,
        };
        let most = match self.places.get(self.explained) {
            Some(place) => *place,
            None => self.events.len(),
        };
        (least, most)
    }
}
