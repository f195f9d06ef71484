//! From the bytes of a journal of any length to the drawing of its nodes.
ghost use Rattle.std.specs.Prelude.{◌≡◌, IfErr, IfOk, false, ℕ, List, IfSome};
ghost use Rattle.thp_journal_tools.specs.Progress.{may_show, ShowsProgress};
ghost use Rattle.thp_cli.specs.declared.ending.Program.TheVariants.{Thpdraw};
ghost use Rattle.thp_cli.specs.Prelude.{device_of, source_of, ReadsOn};
ghost use Rattle.thp_journal_tools.specs.Drawings.{drawing_text, node_text, some_illegal, Shows, AreDrawn};
ghost use Rattle.thp_journal_tools.specs.DrawOutcomes.{DrawIsDone, IsOutputFault};
ghost use Rattle.thp_journal_tools.specs.Checks.{IsFindFault};
ghost use Rattle.thp_script.specs.Prelude.{max_counted, IsFrontOf};

use crate::draw_program::DrawOptions;
use crate::keeping_check::{KeepingCheck, SeriesNode};
use crate::progress::{Screen, read_journal};
use crate::request::ending_if;
use std::alloc::{AllocError, Global};
use std::io::{Read, Write};
use std::time::Clock;
use thp_check::Misfit;
use thp_cli::{Ending, Program, ProgramFault, RunFault, Watched, write_text};
use thp_drawing::{DrawnNode, put_node_picture, put_node_table, put_picture, put_table};
use thp_history::{Outcome, Refusal, What};

/// The output for a journal, and how the program ends after it was written.
#[derive(Drop)]
struct Output {
    text: Vec<u8>,
    ending: Ending,
}

/// Returns whether some node has an illegal event.
fn some_illegal(nodes: &[DrawnNode]) -> bool
    ensures { result ≡ some_illegal nodes.now }
{
    nodes.iter().any(|node| node.illegal.is_some())
}

/// Returns the output for all nodes: a table if that is requested, otherwise a picture.
fn text_of(alloc: Global, table: bool, nodes: &[DrawnNode]) -> Result<Vec<u8>, AllocError>
    ensures { IfOk result (λ text. text.items ≡ drawing_text table nodes.now) }
{
    let mut text = Vec::new(alloc);
    if table {
        put_table(&mut text, nodes)?;
    } else {
        put_picture(&mut text, nodes)?;
    }
    Ok(text)
}

/// Returns the output for one node alone.
fn node_text(
    alloc: Global,
    table: bool,
    number: usize,
    node: &DrawnNode,
) -> Result<Vec<u8>, AllocError>
    ensures { IfOk result (λ text. text.items ≡ node_text table number node.now) }
{
    let mut text = Vec::new(alloc);
    if table {
        put_node_table(&mut text, number, node)?;
    } else {
        put_node_picture(&mut text, number, node)?;
    }
    Ok(text)
}

/// Returns the output for these nodes, or for the requested one alone.
fn output_of(
    alloc: Global,
    options: DrawOptions,
    nodes: &[DrawnNode],
) -> Result<Output, ProgramFault>
    ensures output { IfOk result (λ output. Shows options.table options.node nodes.now output.ending output.text.items) }
    ensures fault { IfErr result (IsOutputFault options.node nodes.now) }
{
    let Some(number) = options.node else {
        return Ok(Output {
            text: text_of(alloc, options.table, nodes)?,
            ending: ending_if(some_illegal(nodes)),
        });
    };
    let Some(node) = nodes.get(number as usize) else {
        return Err(ProgramFault::NoNode(number));
    };
    Ok(Output {
        text: node_text(alloc, options.table, number as usize, node)?,
        ending: ending_if(node.illegal.is_some()),
    })
}

/// Draws the nodes of a journal of any length from the reader, each up to its first illegal event. Writes a picture, or the table
/// if that is requested, of all nodes or of the requested one, and returns whether a node in it has an illegal event. If the
/// journal does not have the requested node, nothing is written.
///
/// Nothing else is written; if the writer fails, a prefix of the text has been written. The screen shows the progress of the
/// reading, if the options request that or the screen is a terminal. Only the state of the current node, the line in progress and
/// at most 600 columns of each node are in memory.
pub fn draw<R: Read, W: Write, S: Write, C: Clock>(
    alloc: Global,
    options: DrawOptions,
    reader: &mut Watched<R>,
    writer: &mut Watched<W>,
    screen: &mut Screen<S, C>,
) -> Result<Ending, ProgramFault>
    requires reader { reader.old.failed ≡ false }
    requires writer { writer.old.failed ≡ false }
    requires screen { screen.old.writer.failed ≡ false }
    ensures does { DrawIsDone options (source_of R.remaining reader.old reader.new) (device_of W.contents writer.old writer.new) result }
    ensures screen { ShowsProgress Thpdraw (may_show options.progress screen.old.is_terminal) (R.remaining reader.old.device) (device_of S.contents screen.old.writer screen.new.writer) }
{
    let nodes = find_nodes(alloc, options.progress, reader, screen)?;
    let output = output_of(alloc, options, nodes.as_slice())?;
    write_text(writer, output.text.as_slice()).ok_or::<RunFault<u64>>(RunFault::Write)?;
    Ok(output.ending)
}

/// Reads the journal from the reader in parts, and returns what is drawn of its nodes.
pub(crate) fn find_nodes<R: Read, S: Write, C: Clock>(
    alloc: Global,
    asked: bool,
    reader: &mut Watched<R>,
    screen: &mut Screen<S, C>,
) -> Result<Vec<DrawnNode>, RunFault<u64>>
    requires reader { reader.old.failed ≡ false }
    requires screen { screen.old.writer.failed ≡ false }
    ensures found { IfOk result (λ nodes. (bytes : List ℕ) × IfSome (R.remaining reader.old.device) (IsFrontOf max_counted bytes) × AreDrawn bytes nodes.items) }
    ensures flag { IfOk result (λ _. reader.new.failed ≡ false) }
    ensures fault { IfErr result (λ fault. IsFindFault (R.remaining reader.old.device) reader.new.failed fault) }
    ensures calls { ReadsOn max_counted reader.new.failed reader.old.calls reader.new.calls }
    ensures screen { ShowsProgress Thpdraw (may_show asked screen.old.is_terminal) (R.remaining reader.old.device) (device_of S.contents screen.old.writer screen.new.writer) }
{
    // the toolchain finds these types, which illegal events contain, only in functions that name them
    let _in_illegal = (
        What::Close,
        Outcome::Stays,
        Refusal::NoPage,
        Misfit::BlockTaken,
    );
    let check: KeepingCheck<DrawnNode, SeriesNode> = KeepingCheck::new(alloc);
    let check = read_journal(alloc, Program::Thpdraw, asked, check, reader, screen)?;
    let (_, nodes) = check.finish()?;
    Ok(nodes)
}
