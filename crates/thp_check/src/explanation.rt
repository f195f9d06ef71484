//! The complete explanation of an event that does not fit.
ghost use Rattle.std.specs.Prelude.{◌≡◌, ◌++◌, OnOk};
ghost use Rattle.thp_check.specs.Explanations.{explanation};

use crate::Misfit;
use crate::expected::put_expected;
use crate::reason_text::put_why;
use std::alloc::AllocError;
use thp_history::Event;
use thp_journal_writer::{put, put_event_line, put_number};

/// Appends the explanation of an event that does not fit for this reason: the event as on its line of the journal, the events
/// that would fit instead, and the reason. These are three lines, or four if there are two alternatives. If memory can't be
/// allocated, the text can contain a prefix of them.
#[tactic(auto, using(crate::proofs::Joined::whole), unfolding(crate::specs::Explanations::explanation))]
pub fn put_explanation(
    text: &mut Vec<u8>,
    line: u64,
    event: &Event,
    misfit: &Misfit,
) -> Result<(), AllocError>
    ensures { OnOk result (text.new.items ≡ text.old.items ++ explanation line event.now misfit.now) }
{
    put(text, b"line ")?;
    put_number(text, line, b':')?;
    put(text, b" ")?;
    put_event_line(text, event)?;
    put_expected(text, event.caller, &event.what, misfit)?;
    put(text, b"why: ")?;
    put_why(text, event.caller, &event.what, misfit)
}
