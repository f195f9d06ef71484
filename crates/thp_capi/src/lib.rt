//! What the library for C is made of: handles of nodes, shared nodes and checks, and what they hold.
//!
//! A C program holds a handle, a struct in its own memory: a pointer and a mark. What the handle owns is its ghost value; the
//! contract of each call states what it did to that. `thp_c` has the calls; docs/C.md has what is proved, call by call.
//!
//! - Handles: `handle` (one for all; `Handles`, `Rows`), `room` (`Rooms`), and what C sees of them: `node_handle`, `pass_handle`,
//!   `check_handle`.
//! - Nodes: `engine` (a node and its open batches), `replies`; `Calls`, `Reading`, `Replies`, `Engines`. `held`, `held_passes`:
//!   what handles hold, of nodes that store their events or only count them (`Held`), and the calls on it (`on_node`, `on_pass`).
//! - Shared nodes: `shared_pass`, `open_batches`; `Passes`, `Sharing`, `PassBatches`, `OpenBatches` (of nodes, too).
//! - Checks: `checks` (of a whole text: `Checks`; in parts: `LongChecks`).
//! - Codes: `codes` (`Codes`).
//!
//! A new call is in `thp_c`; it also needs `c/thp.h`, `c/thp.c`, `c/names`, docs/libthp.3, docs/C.md, `rust/src` and the tests of
//! both.
#![tactic(auto)]

mod check_handle;
mod checks;
mod codes;
mod engine;
mod handle;
mod held;
mod held_passes;
mod node_handle;
mod open_batches;
mod pass_handle;
mod replies;
mod room;
mod shared_pass;

pub use check_handle::ThpCheck;
pub use checks::{CheckStage, begin_check, check_text, judge, read_on, reason_text, verdict_code};
pub use codes::{Fault, code, report};
pub use engine::{Engine, shape};
pub use held::{Held, HeldEngine, HeldPass};
pub use node_handle::ThpNode;
pub use pass_handle::ThpPass;
pub use replies::{ThpDone, ThpPageState, ThpStats, ThpTried, put_text};
pub use room::Room;
pub use shared_pass::SharedPass;
pub use thp_node::{BackReply, ScanReply};
