//! Devices that allocate no memory, and the report of which call failed for lack of memory.
use std::io;
use std::io::Write;

/// Reports that a call failed for lack of memory.
pub(crate) fn print_call(rt: &impl Print, call: &str) {
    let _ = rt.print("refused: ");
    let _ = rt.println(call);
}

/// A writer that compares what it takes with a text.
#[derive(Drop)]
pub(crate) struct Compares {
    wanted: usize,
    rest: &'static [u8],
    is_same: bool,
}

impl Compares {
    pub(crate) fn new(wanted: &'static [u8]) -> Compares {
        Compares {
            wanted: wanted.len(),
            rest: wanted,
            is_same: true,
        }
    }

    /// It took the text, and nothing else.
    pub(crate) fn has_all(&self) -> bool {
        self.is_same && self.rest.is_empty()
    }

    /// It took nothing.
    pub(crate) fn has_nothing(&self) -> bool {
        self.is_same && self.rest.len() == self.wanted
    }
}

impl Write for Compares {
    fn write(&mut self, buf: &[u8]) -> io::Result<usize> {
        let count = buf.len().min(self.rest.len());
        let (front, rest) = self.rest.split_at(count);
        self.is_same = self.is_same && front == buf;
        self.rest = rest;
        Ok(buf.len())
    }

    fn flush(&mut self) -> io::Result<()> {
        Ok(())
    }
}
