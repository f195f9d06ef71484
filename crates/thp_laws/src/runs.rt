//! Laws of runs. The functions do nothing: each contract is the law.
ghost use Rattle.thp_laws.specs.OneRun.{OneWorkerHasOneRun, WorkersApartHaveOneRun};
ghost use Rattle.thp_laws.specs.OneStep.{StepsHaveOneAnswer};
ghost use Rattle.thp_laws.specs.Repeated.{ScriptsRepeatHistories};

/// States that a step of a caller, at legal histories that are equal except for blocks and with the same open batch, has one
/// result, leaves one open batch, and records events that are equal except for blocks.
pub fn steps_have_one_answer()
    ensures { StepsHaveOneAnswer }
{}

/// States that two runs of a script whose workers use different nodes, on equally many nodes of the same shapes, are equal: the
/// events of each node are the same except for blocks, and each section has the same answers. The commands of `setup` come before
/// those of all workers.
pub fn workers_apart_have_one_run()
    ensures { WorkersApartHaveOneRun }
{}

/// States the same if at most one worker has commands, on any nodes.
pub fn one_worker_has_one_run()
    ensures { OneWorkerHasOneRun }
{}

/// States that a run of scripts that repeat histories has these histories, except for blocks: each is a legal history of caller 0
/// alone whose batches are whole scans, each trying its pages in the order in which they were taken.
pub fn scripts_repeat_histories()
    ensures { ScriptsRepeatHistories }
{}
