//! Runs of scripts on new nodes in cells: of a script in memory, or of one whose `setup` arrives in parts, so that its commands
//! need not be stored. After `setup` come the concurrent workers, and then the commands that they postponed.
ghost use Rattle.std.specs.Prelude.{◌≡◌, ◌↔◌, ◌+◌, ◌<◌, ◌≤◌, ◌∷◌, [], All, IfOk, IsTrue, List, length, map};
ghost use Rattle.thp_cell.specs.Prelude.{PassState};
ghost use Rattle.thp_worker.specs.declared.answer_log.Answers.TheVariants.{Kept as KeptAnswers, Counted as CountedAnswers};
ghost use Rattle.thp_worker.specs.declared.answer_log.Answers.{Answers};
ghost use Rattle.thp_worker.specs.Prelude.{AllWork, AnswersAre, AreCommandsFor, Fronts, HoldsAllCallers, IsDoneFor, KeepsNode};
ghost use Rattle.thp_run.specs.Passes.{Agree, fronts_in};
ghost use Rattle.thp_script.specs.Prelude.{after_setup, max_workers, IsScriptFor};
ghost use Rattle.thp_script.specs.declared.script.Command.{Command};
ghost use Rattle.atomic_table.specs.Seated.{TableId};
ghost use Rattle.thp_script.specs.declared.script.ScriptSections.{ScriptSections};
ghost use Rattle.thp_run.specs.Prelude.{AreFew, AreNew, AreNodesFor, HasBegun, IsFreshPass, IsRun, RunsOn, SectionAnswersAre, histories_of, shapes_of};
ghost use Rattle.thp_run.specs.NewNodes.{new_shape};
ghost use Rattle.thp_run.specs.Sharing.{pass_of};
ghost use Rattle.thp_run.specs.Sections.{numbered, GoesFrom, InOrder, IsSetUp, RunsTo};

use crate::node_passes::NodePasses;
use crate::values::{Script, sections_of_script};
use std::alloc::{AllocError, Global};
use std::thread::Threads;
use thp_cell::{NodeCell, Pass};
use thp_history::Shape;
use thp_node::{FullLog, Node, Recorder};
use thp_script::{Command, Report, ScriptSections, Sequence, Settings};
use thp_worker::{
    Answers, Gate, NodePass, Passes, SectionLog, SectionOutcome, Steps, begin_section, do_commands,
    end_section, run_range, work_rest,
};

/// The result of a run: the nodes, which recorded their events in an `N`, and the answers of each section.
#[derive(Drop)]
pub struct RunResult<N: Recorder = FullLog> {
    /// The nodes, by number.
    pub nodes: Vec<Node<N>>,
    /// The answers of `setup`, and then those of each worker; they are stored if the report is of answers.
    pub sections: Vec<SectionLog>,
}

/// Runs a script on new nodes.
///
/// Executes `setup` as caller 0, then the section of each worker as its caller, on its own thread, and then the postponed
/// commands, workers in ascending order. If memory can't be allocated anywhere, the run fails after all workers have ended; a
/// section of 2^32 commands or more counts as that.
pub fn run_script<R: Threads + Sync, G: Gate + Sync>(
    rt: &R,
    alloc: Global,
    settings: &Settings,
    script: Script,
    gate: &G,
) -> Result<RunResult, AllocError>
    requires { IsScriptFor settings.now script }
    ensures nodes { IfOk result (λ r. AreNodesFor settings.now r.nodes.items) }
    ensures answers { settings.now.report ≡ Report.Answers → IfOk result (λ r. All (SectionAnswersAre Answers.Kept) r.sections.items) }
    ensures counted { (settings.now.report ≡ Report.Answers → ⊥) → IfOk result (λ r. All (SectionAnswersAre Answers.Counted) r.sections.items) }
    ensures run { IfOk result (λ r. IsRun settings.now.nodes (shapes_of r.nodes.items) script (histories_of r.nodes.items) r.sections.items) }
{
    let sections = sections_of_script(alloc, script)?;
    let (cells, passes) = new_cells(alloc, settings)?;
    let (passes, setup) = begin_run(alloc, settings, cells.as_slice(), passes)?;
    let (passes, logs) = end_run(rt, alloc, settings, passes, setup, sections, gate)?;
    take_apart(alloc, settings, cells, passes, logs)
}

/// Creates the nodes that the settings describe, which record their events in an `N`, each in a cell, and the passes that have all
/// of their callers.
pub(crate) fn new_cells<N: Recorder>(
    alloc: Global,
    settings: &Settings,
) -> Result<(Vec<NodeCell<N>>, Vec<Pass<N>>), AllocError>
    ensures { IfOk result (λ r. AreNew settings.now r.0.items r.1.items) }
{
    let mut cells = Vec::new(alloc);
    let mut passes = Vec::new(alloc);
    for index in 0..settings.nodes {
        let (cell, pass) = new_cell(alloc, settings, index)?;
        cells.push(cell)?;
        passes.push(pass)?;
    }
    Ok((cells, passes))
}

/// Creates the node of this number in a cell, and its pass. The settings are within the limits of nodes and cells, so this fails
/// only for lack of memory.
fn new_cell<N: Recorder>(
    alloc: Global,
    settings: &Settings,
    index: u32,
) -> Result<(NodeCell<N>, Pass<N>), AllocError>
    requires { index < settings.now.nodes }
    ensures cell { IfOk result (λ r. r.1.cell ≡ r.0) }
    ensures shape { IfOk result (λ r. r.1.shape ≡ new_shape settings.now index) }
    ensures fresh { IfOk result (λ r. IsFreshPass (settings.now.workers + 1) r.1) }
{
    let shape = Shape {
        blocks: settings.blocks,
        order: settings.orders[index as usize],
        underused: settings.underused[index as usize],
    };
    let node = Node::with_recorder(alloc, shape).map_err(|_| AllocError)?;
    NodeCell::new(alloc, node, settings.workers + 1).map_err(|_| AllocError)
}

/// Begins a run on new nodes, before the first command of `setup`. The passes keep the nodes for it.
pub(crate) fn begin_run<'a, N: Recorder>(
    alloc: Global,
    settings: &Settings,
    cells: &'a [NodeCell<N>],
    passes: Vec<Pass<N>>,
) -> Result<(NodePasses<'a, N>, SectionOutcome), AllocError>
    requires { AreNew settings.now cells.now passes.items }
    ensures begun { IfOk result (λ r. HasBegun settings.now cells.now passes.items (fronts_in r.0) [] (fronts_in r.0) r.1) }
    ensures answers { settings.now.report ≡ Report.Answers → IfOk result (λ r. r.1.answers.are ≡ KeptAnswers) }
    ensures counted { (settings.now.report ≡ Report.Answers → ⊥) → IfOk result (λ r. r.1.answers.are ≡ CountedAnswers) }
    ensures kept { IfOk result (λ r. All KeepsNode r.0.held) }
{
    let callers = settings.workers + 1;
    let mut nodes = Vec::new(alloc);
    for pass in passes {
        let cell = &cells[nodes.len()];
        nodes.push(NodePass::new(alloc, cell, pass)?)?;
    }
    let mut passes = NodePasses::new(nodes, callers, 0, callers);
    passes.keep_nodes();
    let setup = begin_section(alloc, 0, answers_for(settings.report), &passes)?;
    Ok((passes, setup))
}

/// Ends a run: executes the rest of its script, `setup` first.
pub(crate) fn end_run<'a, R: Threads + Sync, N: Recorder + Send, G: Gate + Sync>(
    rt: &R,
    alloc: Global,
    settings: &Settings,
    mut passes: NodePasses<'a, N>,
    setup: SectionOutcome,
    script: ScriptSections,
    gate: &G,
) -> Result<(Vec<Pass<N>>, Vec<SectionLog>), AllocError>
    requires script { IsScriptFor settings.now script }
    requires begun { (cells : List TableId) × (old : List PassState) × (first : Fronts) × (before : List Command) × HasBegun settings.now cells old first before (fronts_in passes) setup }
    ensures runs { (cells : List TableId) (old : List PassState) (first : Fronts) (before : List Command) → HasBegun settings.now cells old first before (fronts_in passes.entry) setup → IfOk result (λ r. RunsOn old r.0.items (after_setup before script) r.1.items) }
    ensures answers { settings.now.report ≡ Report.Answers → setup.answers.are ≡ KeptAnswers → IfOk result (λ r. All (SectionAnswersAre KeptAnswers) r.1.items) }
    ensures counted { (settings.now.report ≡ Report.Answers → ⊥) → setup.answers.are ≡ CountedAnswers → IfOk result (λ r. All (SectionAnswersAre CountedAnswers) r.1.items) }
{
    if !are_few(&script) {
        return Err(AllocError);
    }
    let (commands, workers) = (script.setup, script.workers);
    let setup = do_commands(commands.as_slice(), 0, setup, &mut passes)?;
    let setup = end_section(0, setup, &mut passes)?;
    let answers = answers_for(settings.report);
    let (passes, sections) = run_workers_after(rt, alloc, passes, setup, workers, answers, gate)?;
    Ok((close(alloc, passes)?, sections))
}

/// Converts the passes back after all steps.
fn close<'a, R: Recorder>(
    alloc: Global,
    passes: NodePasses<'a, R>,
) -> Result<Vec<Pass<R>>, AllocError>
    ensures passes { IfOk result (λ r. r.items ≡ map pass_of passes.entry.held) }
    ensures agree { Agree passes.entry.callers passes.entry.first passes.entry.end passes.entry.held }
{
    let nodes = passes.into_nodes();
    let mut all = Vec::new(alloc);
    for node in nodes {
        all.push(node.into_pass())?;
    }
    Ok(all)
}

/// Dismantles the cells of a run that has ended, and returns the nodes with the answers of the sections.
pub(crate) fn take_apart<N: Recorder>(
    alloc: Global,
    settings: &Settings,
    cells: Vec<NodeCell<N>>,
    passes: Vec<Pass<N>>,
    sections: Vec<SectionLog>,
) -> Result<RunResult<N>, AllocError>
    requires ran { (old : List PassState) × (script : ScriptSections) × AreNew settings.now cells.items old × RunsOn old passes.items script sections.items }
    ensures nodes { IfOk result (λ r. AreNodesFor settings.now r.nodes.items) }
    ensures run { (old : List PassState) (script : ScriptSections) → AreNew settings.now cells.items old → RunsOn old passes.items script sections.items → IfOk result (λ r. IsRun settings.now.nodes (shapes_of r.nodes.items) script (histories_of r.nodes.items) r.sections.items) }
    ensures sections { IfOk result (λ r. r.sections.items ≡ sections.items) }
{
    let mut nodes = Vec::new(alloc);
    let mut passes = passes.into_iter();
    for cell in cells {
        // there are equally many of both
        if let Some(pass) = passes.next() {
            nodes.push(cell.finish(pass))?;
        }
    }
    Ok(RunResult { nodes, sections })
}

/// Returns what happens to the answers: they are stored if the report is of answers.
fn answers_for(report: Report) -> Answers
    ensures kept { (result ≡ Answers.Kept) ↔ (report ≡ Report.Answers) }
    ensures counted { (report ≡ Report.Answers → ⊥) → result ≡ Answers.Counted }
{
    match report {
        Report::Answers => Answers::Kept,
        Report::Totals | Report::Journal => Answers::Counted,
    }
}

/// Returns whether each section has fewer than 2^32 commands.
fn are_few(script: &ScriptSections) -> bool
    ensures { IsTrue result ↔ AreFew script.now }
{
    let most = u32::MAX as usize;
    script.setup.len() <= most && script.workers.iter().all(|commands| commands.len() <= most)
}

/// Executes the sections of the workers after `setup`, each on its own thread, and then the postponed commands, workers in
/// ascending order.
fn run_workers_after<R: Threads + Sync, P: Passes + Send + Drop, G: Gate + Sync>(
    rt: &R,
    alloc: Global,
    passes: P,
    setup: SectionOutcome,
    workers: Sequence<Sequence<Command>>,
    answers: Answers,
    gate: &G,
) -> Result<(P, Vec<SectionLog>), AllocError>
    requires set_up { (first : Fronts) × (commands : List Command) × IsSetUp first (P.fronts passes) commands workers setup }
    requires done { IsDoneFor setup }
    ensures runs { (first : Fronts) (commands : List Command) → IsSetUp first (P.fronts passes) commands workers setup → IfOk result (λ r. RunsTo first (P.fronts r.0) (record { setup = commands; workers = workers }) r.1.items) }
    ensures answers { AnswersAre answers setup → IfOk result (λ r. All (SectionAnswersAre answers) r.1.items) }
{
    let (mut passes, worked) = run_range(rt, alloc, passes, 1, workers.as_slice(), answers, gate)?;
    passes.keep_nodes();
    let done = do_rest(alloc, workers.as_slice(), worked, &mut passes)?;
    let sections = sections(alloc, setup, done)?;
    Ok((passes, sections))
}

/// Executes the rest of the workers' sections, from worker 1 on and in ascending order, with the passes of all callers.
fn do_rest<P: Steps>(
    alloc: Global,
    workers: &[Sequence<Command>],
    worked: Vec<SectionOutcome>,
    passes: &mut P,
) -> Result<Vec<SectionOutcome>, AllocError>
    requires holds { HoldsAllCallers (P.fronts passes.old) }
    requires callers { (P.fronts passes.old).callers ≡ 1 + length workers.now }
    requires most { length workers.now ≤ max_workers }
    requires sections { All (AreCommandsFor (P.fronts passes.old).nodes) workers.now }
    requires worked { (old : Fronts) × AllWork 1 old (P.fronts passes.old) workers.now worked.items }
    ensures goes { IfOk result (λ _. GoesFrom 1 (P.fronts passes.old) (P.fronts passes.new)) }
    ensures work { (old : Fronts) → AllWork 1 old (P.fronts passes.old) workers.now worked.items → IfOk result (λ r. AllWork 1 old (P.fronts passes.new) workers.now r.items) }
    ensures ascending { IfOk result (λ r. InOrder 1 (P.fronts passes.old) (P.fronts passes.new) workers.now worked.items r.items) }
    ensures done { IfOk result (λ r. All IsDoneFor r.items) }
    ensures answers { (are : Answers) → All (AnswersAre are) worked.items → IfOk result (λ r. All (AnswersAre are) r.items) }
{
    let mut done = Vec::new(alloc);
    for worked in worked {
        let index = done.len();
        let rest = work_rest(workers[index].as_slice(), 1 + index as u32, worked, passes)?;
        done.push(rest)?;
    }
    Ok(done)
}

/// Returns the sections by number: `setup` is section 0.
fn sections(
    alloc: Global,
    setup: SectionOutcome,
    workers: Vec<SectionOutcome>,
) -> Result<Vec<SectionLog>, AllocError>
    requires { length workers.items ≤ max_workers }
    ensures { IfOk result (λ r. r.items ≡ numbered 0 (setup ∷ workers.items)) }
{
    let mut all = Vec::new(alloc);
    all.push(SectionLog {
        worker: 0,
        answers: setup.answers,
    })?;
    for worked in workers {
        let worker = all.len() as u32;
        all.push(SectionLog {
            worker,
            answers: worked.answers,
        })?;
    }
    Ok(all)
}
