//! Parses sets of subpages.
ghost use Rattle.std.specs.Prelude.{◌≡◌, ◌≤◌, ◌+◌, ◌||◌, IfOk, length};
ghost use Rattle.thp_history.specs.Prelude.{has, set_of};
ghost use Rattle.thp_journal_reader.specs.SetTexts.{covers_number, run_from, run_of, set_of_runs, set_of_text, subpage_number};

use thp_history::SubSet;
use thp_script::{TextKind, cut_at, number};

fn subpage_number(word: &[u8]) -> Result<u32, TextKind>
    ensures value { result ≡ subpage_number word.now }
    ensures bound { IfOk result (λ n. n ≤ 511) }
{
    let value = number(511, word).ok_or(TextKind::BadSet)?;
    Ok(value as u32)
}

/// Parses the first and the last subpage of a run: `NUMBER` or `FIRST-LAST`.
#[tactic(auto, unfolding(crate::specs::SetTexts::run_of))]
fn run_of(text: &[u8]) -> Result<(u32, u32), TextKind>
    ensures value { result ≡ run_of text.now }
    ensures order { IfOk result (λ run. run.0 ≤ run.1) }
    ensures bound { IfOk result (λ run. run.1 ≤ 511) }
{
    let (first, behind) = cut_at(b'-', text);
    let Some(behind) = behind else {
        let number = subpage_number(first)?;
        return Ok((number, number));
    };
    let (last, more) = cut_at(b'-', behind);
    if more.is_some() {
        return Err(TextKind::BadSet);
    }
    let first = subpage_number(first)?;
    let last = subpage_number(last)?;
    if last <= first {
        return Err(TextKind::BadSet);
    }
    Ok((first, last))
}

/// Parses a run that does not begin below `least`.
#[tactic(auto, unfolding(crate::specs::SetTexts::run_from))]
fn run_from(least: u32, text: &[u8]) -> Result<(u32, u32), TextKind>
    ensures value { result ≡ run_from least text.now }
    ensures order { IfOk result (λ run. run.0 ≤ run.1) }
    ensures bound { IfOk result (λ run. run.1 ≤ 511) }
{
    let run = run_of(text)?;
    if run.0 < least {
        return Err(TextKind::BadSet);
    }
    Ok(run)
}

/// Inserts the subpages of a run into a set.
fn put_run(set: &mut SubSet, run: (u32, u32))
    requires order { run.0 ≤ run.1 }
    requires bound { run.1 ≤ 511 }
    ensures { length set.old ≡ 512 → set.new ≡ set_of (λ i. has set.old i || covers_number i run) }
{
    let (first, last) = run;
    if first == last {
        set.insert(first);
        return;
    }
    *set = set.union(SubSet::range(first, last - first + 1));
}

/// Parses a set from runs that are separated by commas.
fn set_of_runs(text: &[u8]) -> Result<SubSet, TextKind>
    ensures { result ≡ set_of_runs text.now }
{
    let mut set = SubSet::empty();
    let mut least = 0;
    let mut rest = text;
    loop {
        let (piece, after) = cut_at(b',', rest);
        let run = run_from(least, piece)?;
        put_run(&mut set, run);
        match after {
            None => return Ok(set),
            Some(after) => {
                least = run.1 + 2;
                rest = after;
            }
        }
    }
}

/// Parses a set: its maximal runs in ascending order, separated by commas, or `-` if it is empty.
#[tactic(auto, unfolding(crate::specs::SetTexts::set_of_text, crate::specs::SetTexts::set_with))]
pub(crate) fn set_of_text(text: &[u8]) -> Result<SubSet, TextKind>
    ensures { result ≡ set_of_text text.now }
{
    if text == b"-".as_slice() {
        return Ok(SubSet::empty());
    }
    set_of_runs(text)
}
