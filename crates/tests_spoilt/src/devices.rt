//! Readers and writers that have a mishap at one of their calls.
use std::alloc::Global;
use std::io;
use std::io::{Error, ErrorKind, Read, Write};

/// What a device does at one of its calls instead of what was requested.
#[derive(Clone, Copy)]
pub(crate) enum Mishap {
    /// It fails.
    Fails(ErrorKind),
    /// A writer takes no byte.
    TakesNone,
}

/// A behaviour without a mishap, which moves as many bytes as a buffer of the runs has room for.
pub(crate) const LARGE: Manner = Manner {
    step: 8192,
    mishap: None,
};

/// The behaviour of a device: the greatest number of bytes that it moves per call, and its mishap at the call of this number,
/// counted from 0.
#[derive(Clone, Copy)]
pub(crate) struct Manner {
    pub(crate) step: usize,
    pub(crate) mishap: Option<(u32, Mishap)>,
}

impl Manner {
    /// No mishap, and this many bytes per call.
    pub(crate) fn by(step: usize) -> Manner {
        Manner { step, mishap: None }
    }

    /// A mishap at a call.
    pub(crate) fn with(step: usize, call: u32, mishap: Mishap) -> Manner {
        Manner {
            step,
            mishap: Some((call, mishap)),
        }
    }

    /// What happens at a call.
    fn at(self, call: u32) -> Option<Mishap> {
        match self.mishap {
            Some((place, mishap)) if place == call => Some(mishap),
            _ => None,
        }
    }
}

/// A reader of a text, followed by so many line feeds.
#[derive(Drop)]
pub(crate) struct Source<'a> {
    rest: &'a [u8],
    feeds: usize,
    manner: Manner,
    pub(crate) calls: u32,
    // the number of bytes that it gave
    pub(crate) given: usize,
}

impl<'a> Source<'a> {
    pub(crate) fn new(text: &'a [u8], feeds: usize, manner: Manner) -> Source<'a> {
        Source {
            rest: text,
            feeds,
            manner,
            calls: 0,
            given: 0,
        }
    }
}

impl<'a> Read for Source<'a> {
    fn read(&mut self, buf: &mut [u8]) -> io::Result<usize> {
        let call = self.calls;
        self.calls = call.saturating_add(1);
        if let Some(Mishap::Fails(kind)) = self.manner.at(call) {
            return Err(Error::from(kind));
        }
        let all = self.rest.len().saturating_add(self.feeds);
        let count = all.min(buf.len()).min(self.manner.step);
        let (front, rest) = self.rest.split_at(self.rest.len().min(count));
        buf[..count].fill(b'\n');
        buf[..front.len()].copy_from_slice(front);
        self.rest = rest;
        self.feeds = self.feeds.saturating_sub(count.saturating_sub(front.len()));
        self.given = self.given.saturating_add(count);
        Ok(count)
    }
}

/// A writer that stores what it takes. Flushes count as calls, too.
#[derive(Drop)]
pub(crate) struct Sink {
    manner: Manner,
    pub(crate) held: Vec<u8>,
    pub(crate) calls: u32,
}

impl Sink {
    pub(crate) fn new(alloc: Global, manner: Manner) -> Sink {
        Sink {
            manner,
            held: Vec::new(alloc),
            calls: 0,
        }
    }

    /// What happens at the next call.
    fn next(&mut self) -> Option<Mishap> {
        let call = self.calls;
        self.calls = call.saturating_add(1);
        self.manner.at(call)
    }
}

impl Write for Sink {
    fn write(&mut self, buf: &[u8]) -> io::Result<usize> {
        match self.next() {
            Some(Mishap::Fails(kind)) => return Err(Error::from(kind)),
            Some(Mishap::TakesNone) => return Ok(0),
            None => {}
        }
        let count = buf.len().min(self.manner.step);
        if self.held.extend_from_slice(&buf[..count]).is_err() {
            return Err(Error::from(ErrorKind::OutOfMemory));
        }
        Ok(count)
    }

    fn flush(&mut self) -> io::Result<()> {
        match self.next() {
            Some(Mishap::Fails(kind)) => Err(Error::from(kind)),
            _ => Ok(()),
        }
    }
}
