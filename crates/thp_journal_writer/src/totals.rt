//! The totals of a node.
ghost use Rattle.std.specs.Prelude.{◌≡◌, ◌++◌, OnOk};
ghost use Rattle.thp_journal_writer.specs.Totals.{nine_lines, number_line, totals_lines, totals_lines_from};

use crate::numbers::put;
use itoa::Buffer;
use std::alloc::AllocError;

/// The totals of a node. The statistics have the kernel's names.
#[derive(Clone, Copy, Debug, PartialEq, Eq)]
pub struct Totals {
    /// The number of pages allocated.
    pub pages: u64,
    /// The number of pages in the deferred split queue.
    pub queue: u32,
    /// The number of frames that the live pages hold.
    pub frames_held: u128,
    /// The number of frames given back.
    pub frames_given: u128,
    /// The number of pages split.
    pub thp_split_page: u64,
    /// The number of tries that found a page pinned.
    pub thp_split_page_failed: u64,
    /// The number of times that a page was queued.
    pub thp_deferred_split_page: u64,
    /// The number of PMD mappings split.
    pub thp_split_pmd: u128,
    /// The number of pages split as underused; `None` if the node's shrinker does not look for those.
    pub thp_underused_split_page: Option<u64>,
}

/// Appends the lines of the node of this number to a text: nine, and a tenth if its shrinker looks for underused pages. If memory
/// can't be allocated, the text can contain a prefix of them.
#[tactic(auto, unfolding(crate::specs::Totals::tenth_line))]
pub fn put_totals(text: &mut Vec<u8>, number: usize, totals: &Totals) -> Result<(), AllocError>
    ensures { OnOk result (text.new.items ≡ text.old.items ++ totals_lines number totals.now) }
{
    put_nine_lines(text, number, totals)?;
    match totals.thp_underused_split_page {
        Some(split) => put_line(text, b"thp_underused_split_page ", u128::from(split)),
        None => Ok(()),
    }
}

/// Appends the lines of nodes, which are numbered from 0, to a text. If memory can't be allocated, the text can contain a prefix
/// of them.
pub fn put_totals_of_each(text: &mut Vec<u8>, totals: &[Totals]) -> Result<(), AllocError>
    ensures { OnOk result (text.new.items ≡ text.old.items ++ totals_lines_from 0 totals.now) }
{
    for (number, node) in totals.iter().enumerate() {
        put_totals(text, number, node)?;
    }
    Ok(())
}

#[tactic(auto, using(crate::proofs::Pieces::nine), unfolding(crate::specs::Totals::nine_lines))]
fn put_nine_lines(text: &mut Vec<u8>, number: usize, totals: &Totals) -> Result<(), AllocError>
    ensures { OnOk result (text.new.items ≡ text.old.items ++ nine_lines number totals.now) }
{
    put_line(text, b"node ", number as u128)?;
    put_line(text, b"pages ", u128::from(totals.pages))?;
    put_line(text, b"queue ", u128::from(totals.queue))?;
    put_line(text, b"frames_held ", totals.frames_held)?;
    put_line(text, b"frames_given ", totals.frames_given)?;
    put_line(text, b"thp_split_page ", u128::from(totals.thp_split_page))?;
    put_line(
        text,
        b"thp_split_page_failed ",
        u128::from(totals.thp_split_page_failed),
    )?;
    put_line(
        text,
        b"thp_deferred_split_page ",
        u128::from(totals.thp_deferred_split_page),
    )?;
    put_line(text, b"thp_split_pmd ", totals.thp_split_pmd)
}

#[tactic(auto, using(crate::proofs::Pieces::three), unfolding(crate::specs::Totals::number_line))]
fn put_line(text: &mut Vec<u8>, label: &[u8], number: u128) -> Result<(), AllocError>
    ensures { OnOk result (text.new.items ≡ text.old.items ++ number_line label.now number) }
{
    put(text, label)?;
    put(text, Buffer::new().format(number).as_bytes())?;
    put(text, b"\n")
}
