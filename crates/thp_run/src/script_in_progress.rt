//! A script that is run while it is read: the commands of `setup` are not stored.
ghost use Rattle.std.specs.Prelude.{◌≡◌, [], All, IfOk, IfErr, List, ℕ, false};
ghost use Rattle.atomic_table.specs.Seated.{TableId};
ghost use Rattle.thp_cell.specs.Prelude.{PassState};
ghost use Rattle.thp_script.specs.Prelude.{max_input, spelled_with, script_of, ReportsFault};
ghost use Rattle.thp_cli.specs.Prelude.{ReadsOn};
ghost use Rattle.thp_run.specs.ScriptInProgress.{HasRead, HasRun, IsScriptInProgress, EndsBeforeRun, RunsInput, RunsOnRest};
ghost use Rattle.thp_run.specs.ScriptInProgressLaws.{nothing_read, more_read};
ghost use Rattle.thp_run.specs.InParts.{AreNew, HasBegun};
ghost use Rattle.thp_worker.specs.Prelude.{Fronts};
ghost use Rattle.thp_run.specs.Passes.{fronts_in};
ghost use Rattle.thp_worker.specs.declared.answer_log.Answers.TheVariants.{Kept as KeptAnswers};
ghost use Rattle.thp_run.specs.Sections.{SectionAnswersAre};
ghost use Rattle.thp_script.specs.declared.fault.ReadFault.TheVariants.{OutOfMemory};
ghost use Rattle.thp_script.specs.declared.script.Command.{Command};

use crate::node_passes::NodePasses;
use crate::script_run::{RunResult, begin_run, end_run, new_cells, take_apart};
use std::alloc::Global;
use std::io::Read;
use std::thread::Threads;
use thp_cell::{NodeCell, Pass};
use thp_cli::{RunFault, Watched, read_parts};
use thp_node::Recorder;
use thp_script::{MAX_INPUT, ReadFault, ReadsParts, Report, ScriptReader, Settings};
use thp_worker::{Gate, SectionLog, SectionOutcome, do_commands};

// A script that has been read in part. Its commands of `setup` so far have been executed.
#[derive(Drop)]
struct ScriptInProgress<'a, N: Recorder> {
    script: ScriptReader<'a>,
    passes: NodePasses<'a, N>,
    setup: SectionOutcome,
    ghost ready: { IsScriptInProgress script passes setup },
}

impl<'a, N: Recorder> ReadsParts for ScriptInProgress<'a, N> {
    ghost has_read = { λ old bytes new. HasRead old.script old.passes old.setup bytes new.script new.passes new.setup };

    fn read_part(self, part: &[u8]) -> Result<Self, ReadFault> {
        let mut script = self.script.read_part(part)?;
        let mut passes = self.passes;
        let setup = do_commands(script.setup(), 0, self.setup, &mut passes)?;
        script.drop_setup();
        Ok(ScriptInProgress {
            script,
            passes,
            setup,
        })
    }

    ghost nothing_read = { λ r. nothing_read r.script r.passes r.setup };

    ghost more_read = { λ a b c first more old new. more_read a.script b.script c.script a.passes b.passes c.passes a.setup b.setup c.setup first more old new };
}

impl<'a, N: Recorder> ScriptInProgress<'a, N> {
    // A script of which nothing has been read, on new nodes.
    fn new(
        alloc: Global,
        settings: &'a Settings,
        cells: &'a [NodeCell<N>],
        passes: Vec<Pass<N>>,
    ) -> Result<ScriptInProgress<'a, N>, ReadFault>
        requires { AreNew settings.now cells.now passes.items }
        ensures begun { IfOk result (λ r. HasBegun settings.now cells.now passes.items (fronts_in r.passes) [] (fronts_in r.passes) r.setup) }
        ensures script { IfOk result (λ r. (text : List ℕ) → spelled_with r.script text ≡ script_of settings.now text) }
        ensures settings { IfOk result (λ r. r.script.settings ≡ settings.now) }
        ensures answers { settings.now.report ≡ Report.Answers → IfOk result (λ r. r.setup.answers.are ≡ KeptAnswers) }
        ensures memory { IfErr result (λ fault. fault ≡ OutOfMemory) }
    {
        let (passes, setup) = begin_run(alloc, settings, cells, passes)?;
        let script = ScriptReader::new(alloc, settings)?;
        Ok(ScriptInProgress {
            script,
            passes,
            setup,
        })
    }

    // Executes the rest of the script, all of which has been read.
    fn finish<R: Threads + Sync, G: Gate + Sync>(
        self,
        rt: &R,
        alloc: Global,
        settings: &Settings,
        gate: &G,
    ) -> Result<(Vec<Pass<N>>, Vec<SectionLog>), ReadFault>
    where
        N: Send,
        requires begun { (cells : List TableId) × (old : List PassState) × (first : Fronts) × (before : List Command) × HasBegun settings.now cells old first before (fronts_in self.passes) self.setup }
        requires settings { self.script.settings ≡ settings.now }
        ensures runs { (cells : List TableId) (old : List PassState) (first : Fronts) (before : List Command) → HasBegun settings.now cells old first before (fronts_in self.entry.passes) self.entry.setup → IfOk result (λ r. RunsOnRest old (spelled_with self.entry.script []) before r.0.items r.1.items) }
        ensures answers { settings.now.report ≡ Report.Answers → self.entry.setup.answers.are ≡ KeptAnswers → IfOk result (λ r. All (SectionAnswersAre KeptAnswers) r.1.items) }
        ensures fault { IfErr result (ReportsFault (spelled_with self.entry.script [])) }
    {
        let rest = self.script.finish()?;
        let (passes, setup) = (self.passes, self.setup);
        Ok(end_run(rt, alloc, settings, passes, setup, rest, gate)?)
    }
}

/// Runs the script from a reader while reading it, on new nodes that record their events in an `N`.
pub(crate) fn run_as_read<T: Threads + Sync, R: Read, N: Recorder + Send, G: Gate + Sync>(
    rt: &T,
    alloc: Global,
    settings: &Settings,
    reader: &mut Watched<R>,
    gate: &G,
) -> Result<RunResult<N>, RunFault>
    requires { reader.old.failed ≡ false }
    ensures ran { IfOk result (λ ran. HasRun settings.now (R.remaining reader.old.device) ran.nodes.items ran.sections.items) }
    ensures flag { IfOk result (λ _. reader.new.failed ≡ false) }
    ensures fault { IfErr result (EndsBeforeRun settings.now (R.remaining reader.old.device) reader.new.failed) }
    ensures calls { ReadsOn max_input reader.new.failed reader.old.calls reader.new.calls }
{
    let (cells, passes) = new_cells::<N>(alloc, settings)?;
    let (passes, sections) = run_in_cells(
        rt,
        alloc,
        settings,
        cells.as_slice(),
        passes,
        reader,
        gate,
    )?;
    Ok(take_apart(alloc, settings, cells, passes, sections)?)
}

// Runs the script from a reader while reading it, on new nodes in cells. A separate function, since the proof of one that also
// makes the cells and takes them apart takes several times as long.
fn run_in_cells<T: Threads + Sync, R: Read, N: Recorder + Send, G: Gate + Sync>(
    rt: &T,
    alloc: Global,
    settings: &Settings,
    cells: &[NodeCell<N>],
    passes: Vec<Pass<N>>,
    reader: &mut Watched<R>,
    gate: &G,
) -> Result<(Vec<Pass<N>>, Vec<SectionLog>), RunFault>
    requires new { AreNew settings.now cells.now passes.items }
    requires reader { reader.old.failed ≡ false }
    ensures ran { IfOk result (λ r. RunsInput settings.now (R.remaining reader.old.device) passes.items r.0.items r.1.items) }
    ensures flag { IfOk result (λ _. reader.new.failed ≡ false) }
    ensures fault { IfErr result (EndsBeforeRun settings.now (R.remaining reader.old.device) reader.new.failed) }
    ensures calls { ReadsOn max_input reader.new.failed reader.old.calls reader.new.calls }
{
    let script_in_progress = ScriptInProgress::new(alloc, settings, cells, passes)?;
    let script_in_progress = read_parts(script_in_progress, MAX_INPUT, reader)?;
    let (passes, sections) = script_in_progress.finish(rt, alloc, settings, gate)?;
    Ok((passes, sections))
}
