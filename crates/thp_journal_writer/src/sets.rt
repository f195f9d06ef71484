//! Appends sets of subpages to a text.
ghost use Rattle.std.specs.Prelude.{◌≡◌, ◌+◌, ◌<◌, ◌≤◌, [], ◌∷◌, ◌++◌, OnOk, MatchOption, IfSome, drop};
ghost use Rattle.thp_journal_writer.specs.Prelude.{run_text, runs_from, set_room, set_text, Takes};

use crate::numbers::{put, put_number};
use std::alloc::AllocError;
use thp_history::SubSet;

// The elements of sets are below this number.
const SUBPAGES: u32 = 512;

/// Appends the text of a set, and the byte `after`.
pub(crate) fn put_set(text: &mut Vec<u8>, set: &SubSet, after: u8) -> Result<(), AllocError>
    ensures text { OnOk result (text.new.items ≡ text.old.items ++ set_text set.now ++ after ∷ []) }
    ensures room { Takes set_room text.old text.new result }
{
    let Some(run) = next_run(set, 0) else {
        return put(text, &[b'-', after]);
    };
    let mut last = run;
    while let Some(run) = next_run(set, last.1 + 1) {
        put_run(text, last, b',')?;
        last = run;
    }
    put_run(text, last, after)
}

// the first run of the set that begins at `from` or later
fn next_run(set: &SubSet, from: u32) -> Option<(u32, u32)>
    requires { from ≤ 512 }
    ensures ahead { IfSome result (λ run. from ≤ run.1) }
    ensures order { IfSome result (λ run. run.0 ≤ run.1) }
    ensures within { IfSome result (λ run. run.1 < 512) }
    ensures runs { MatchOption result (runs_from from (drop from set.now) ≡ []) (λ run. runs_from from (drop from set.now) ≡ run ∷ runs_from (run.1 + 1) (drop (run.1 + 1) set.now)) }
{
    let first = set.first_in(from);
    if first == SUBPAGES {
        return None;
    }
    Some((first, set.first_out(first) - 1))
}

// a run, and the byte `after`
#[inline]
fn put_run(text: &mut Vec<u8>, run: (u32, u32), after: u8) -> Result<(), AllocError>
    requires order { run.0 ≤ run.1 }
    requires within { run.1 < 512 }
    ensures text { OnOk result (text.new.items ≡ text.old.items ++ run_text run ++ after ∷ []) }
    ensures room { Takes 8 text.old text.new result }
{
    if run.0 == run.1 {
        return put_number(text, u64::from(run.0), after);
    }
    put_number(text, u64::from(run.0), b'-')?;
    put_number(text, u64::from(run.1), after)
}
