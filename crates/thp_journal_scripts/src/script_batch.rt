//! The batch of a script: how far its commands are written.
ghost use Rattle.std.specs.Prelude.{◌≡◌, ◌++◌, IfOk, MatchOption, OnOk, replicate};
ghost use Rattle.thp_script.specs.declared.script.Op.TheVariants.{SplitNext};
ghost use Rattle.thp_journal_scripts.specs.ScriptBatches.{pending_ops, settled, Completes, EndsPuts, EndsTakes, EndsTries, IsIncomplete, PutsMore, TakesMore, TriesMore};

use std::alloc::AllocError;
use thp_script::Op;

/// The greatest number of pages that a command takes.
pub(crate) const MAX_TAKEN: u32 = 128;

/// The batch of a script. Nothing is written of a batch whose takes and tries are counted: it can still become one scan.
#[derive(Clone, Copy)]
pub(crate) enum ScriptBatch {
    /// No batch.
    Idle,
    /// The caller took pages.
    Taking { caller: u32, taken: u32 },
    /// The caller took pages, and tried some.
    Trying { caller: u32, taken: u32, tried: u32 },
    /// The caller took pages, tried each, and put some back.
    Scanned { caller: u32, taken: u32 },
    /// The `take` and the tries so far are written.
    Open { caller: u32 },
    /// These are written, and the caller put some pages back.
    Closing { caller: u32 },
}

impl ScriptBatch {
    /// Returns the batch after its caller took one more page; `None` if that is not part of it.
    pub(crate) fn with_take(self, by: u32) -> Option<ScriptBatch>
        ensures { MatchOption result (EndsTakes self by) (TakesMore self by) }
    {
        match self {
            ScriptBatch::Taking { caller, taken } if caller == by && taken < MAX_TAKEN => {
                Some(ScriptBatch::Taking {
                    caller,
                    taken: taken + 1,
                })
            }
            _ => None,
        }
    }

    /// Returns the batch after its caller tried one more page; `None` if that needs a command.
    pub(crate) fn with_try(self, by: u32) -> Option<ScriptBatch>
        ensures { MatchOption result (EndsTries self by) (TriesMore self by) }
    {
        match self {
            ScriptBatch::Taking { caller, taken } if caller == by => Some(ScriptBatch::Trying {
                caller,
                taken,
                tried: 1,
            }),
            ScriptBatch::Trying {
                caller,
                taken,
                tried,
            } if caller == by && tried < taken => Some(ScriptBatch::Trying {
                caller,
                taken,
                tried: tried + 1,
            }),
            _ => None,
        }
    }

    /// Returns the batch after its caller put back one more page; `None` if that needs a command.
    pub(crate) fn with_put(self, by: u32) -> Option<ScriptBatch>
        ensures { MatchOption result (EndsPuts self by) (PutsMore self by) }
    {
        match self {
            ScriptBatch::Trying {
                caller,
                taken,
                tried,
            } if caller == by && tried == taken => Some(ScriptBatch::Scanned { caller, taken }),
            ScriptBatch::Scanned { caller, .. } | ScriptBatch::Closing { caller } => {
                if caller == by { Some(self) } else { None }
            }
            _ => None,
        }
    }

    /// Returns the command that completes the batch once no page is left in it; `None` if one command does not.
    pub(crate) fn completion(self) -> Option<Op>
        ensures { MatchOption result (IsIncomplete self) (Completes self) }
    {
        match self {
            ScriptBatch::Trying { taken, tried, .. } if tried == taken => {
                Some(Op::Scan { count: taken })
            }
            ScriptBatch::Scanned { taken, .. } => Some(Op::Scan { count: taken }),
            ScriptBatch::Closing { .. } => Some(Op::PutBack),
            _ => None,
        }
    }

    /// Appends the commands of what is not written yet, and returns the batch after them.
    pub(crate) fn settle(self, ops: &mut Vec<Op>) -> Result<ScriptBatch, AllocError>
        ensures ops { IfOk result (λ _. ops.new.items ≡ ops.old.items ++ pending_ops self) }
        ensures batch { IfOk result (λ batch. batch ≡ settled self) }
    {
        match self {
            ScriptBatch::Taking { caller, taken } => {
                ops.push(Op::Take { count: taken })?;
                Ok(ScriptBatch::Open { caller })
            }
            ScriptBatch::Trying {
                caller,
                taken,
                tried,
            } => {
                ops.push(Op::Take { count: taken })?;
                put_tries(ops, tried)?;
                Ok(ScriptBatch::Open { caller })
            }
            ScriptBatch::Scanned { taken, .. } => {
                ops.push(Op::Scan { count: taken })?;
                Ok(ScriptBatch::Idle)
            }
            ScriptBatch::Closing { .. } => {
                ops.push(Op::PutBack)?;
                Ok(ScriptBatch::Idle)
            }
            ScriptBatch::Idle | ScriptBatch::Open { .. } => Ok(self),
        }
    }
}

/// Appends so many tries.
fn put_tries(ops: &mut Vec<Op>, count: u32) -> Result<(), AllocError>
    ensures { OnOk result (ops.new.items ≡ ops.old.items ++ replicate count SplitNext) }
{
    for _try in 0..count {
        ops.push(Op::SplitNext)?;
    }
    Ok(())
}
