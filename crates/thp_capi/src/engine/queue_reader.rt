//! The reader of an engine's queue.
ghost use Rattle.std.specs.Prelude.{◌≡◌, length};
ghost use Rattle.thp_history.specs.Prelude.{queue};
ghost use Rattle.thp_capi.specs.Prelude.{filled_with};

use crate::engine::Engine;
use thp_node::Recorder;

impl<R: Recorder> Engine<R> {
    /// Stores the queued pages, oldest first, as many as there is room for, and returns the number of queued pages. Reads the link
    /// of each page that it stores.
    pub fn queue(&self, pages: &mut [u64]) -> u32
        ensures length { result ≡ length (queue self.now.node.shape self.now.node.journal) }
        ensures pages { pages.new ≡ filled_with (queue self.now.node.shape self.now.node.journal) pages.old }
    {
        let table = self.node.table();
        let queue = self.node.queue();
        let Some(first) = queue.front() else {
            return 0;
        };
        let mut block = first;
        let count = pages.len().min(queue.len() as usize);
        for place in 0..count {
            pages[place] = table.number(block).0;
            block = table.peek_next(block);
        }
        queue.len()
    }
}
