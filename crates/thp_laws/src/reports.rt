//! Laws of reports, and of the output of `thp_run::run`. The functions do nothing: each contract is the law.
ghost use Rattle.thp_laws.specs.OneReport.{OneSettingIsApart, OneWorkerHasOneReport, OneWorkerIsApart, WorkersApartHaveOneReport, WorkersApartWriteOneText};
ghost use Rattle.thp_laws.specs.OneText.{OneJournalHasOneTotals};

/// States that two lists of 1 to 8 legal histories with the same journal text, of callers below 64 and of at most 16,777,216
/// bytes, have the same totals.
pub fn one_journal_has_one_totals()
    ensures { OneJournalHasOneTotals }
{}

/// States that the output of a run is a function of the settings and the input, if each node is used by one worker at most: each
/// of the three reports of one run equals that of every other.
///
/// - `one`, `setting`: this includes the cases where at most one worker has commands, and where the settings have one worker or
///   none;
/// - `report`: the script of the input has one report;
/// - `written`: runs that succeed on writers with the same content leave the same content.
pub fn workers_apart_have_one_report()
    ensures one { OneWorkerIsApart }
    ensures setting { OneSettingIsApart }
    ensures report { WorkersApartHaveOneReport }
    ensures written { WorkersApartWriteOneText }
{}

/// States that with one worker or none, the report is a function of the settings and the input.
pub fn one_worker_has_one_report()
    ensures { OneWorkerHasOneReport }
{}
