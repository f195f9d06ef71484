//! The guarantee that an explanation gives about the history.
ghost use Rattle.thp_check.specs.Fitting.{ExpectedFits};

/// States that for an event that does not fit for a reason, what the explanation expects fits instead: the outcome and the
/// frames, the result of a try, and whether a page is put back or dropped.
///
/// The function does nothing: its contract is the law.
pub fn what_is_expected_fits()
    ensures { ExpectedFits }
{}
