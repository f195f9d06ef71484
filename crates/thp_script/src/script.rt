//! Scripts as values, and the words of their commands.
ghost use Rattle.std.specs.Prelude.{◌≡◌, Err, IfErr, IfOk, IfSome, List, map};
ghost use Rattle.thp_script.specs.Prelude.{FastCommand, IsName, Names, Settings, Text, batch_op, command_in, page_call_of, page_op, range_op, reading_of};

use crate::fast_parsing::parse_operands_fast;
use crate::fast_words::after_name;
use crate::fault::TextKind;
use crate::sequence::Sequence;
use crate::settings::Settings;
use thp_history::{Gain, Loss, PageCall, PageId};

/// A call on a node, with its operands.
#[derive(Clone, Copy, Debug, PartialEq, Eq)]
pub enum Op {
    /// Allocates a page.
    Alloc,
    /// Maps the whole page once more, by a PMD entry.
    MapWhole {
        page: PageId,
    },
    /// Removes one mapping of the whole page.
    UnmapWhole {
        page: PageId,
    },
    /// Maps `count` subpages of a page once more by PTE entries, from subpage `first` on.
    Map {
        first: u32,
        count: u32,
        page: PageId,
    },
    /// Removes one PTE mapping of each of `count` subpages of a page, from subpage `first` on.
    Unmap {
        first: u32,
        count: u32,
        page: PageId,
    },
    /// Writes data to `count` subpages of a page, from subpage `first` on: they are not zero-filled afterwards.
    Write {
        first: u32,
        count: u32,
        page: PageId,
    },
    /// Writes zeros to `count` subpages of a page, from subpage `first` on.
    Zero {
        first: u32,
        count: u32,
        page: PageId,
    },
    /// Splits the PMD mapping of a page.
    SplitPmd {
        page: PageId,
    },
    /// Adds a pin to a page.
    Pin {
        page: PageId,
    },
    /// Removes a pin of a page.
    Unpin {
        page: PageId,
    },
    /// Closes the node: no page is queued or allocated afterwards.
    Close,
    /// Takes up to `count` pages, tries to split each, and puts back the pinned ones.
    Scan {
        count: u32,
    },
    /// Returns the number of queued pages.
    Count,
    /// Takes up to `count` of the oldest queued pages into a batch.
    Take {
        count: u32,
    },
    /// Tries the next page of the open batch.
    SplitNext,
    /// Puts back the remaining pages of the open batch.
    PutBack,
}

impl Op {
    /// Returns the page and the call of a command about one page.
    #[inline(always)]
    pub fn page_call(self) -> Option<(PageId, PageCall)>
        ensures { result ≡ page_call_of self }
    {
        let (page, call) = match self {
            Op::MapWhole { page } => (page, PageCall::Gain(Gain::MapWhole)),
            Op::UnmapWhole { page } => (page, PageCall::Loss(Loss::UnmapWhole)),
            Op::Map { first, count, page } => {
                (page, PageCall::Gain(Gain::MapSub { first, count }))
            }
            Op::Unmap { first, count, page } => {
                (page, PageCall::Loss(Loss::UnmapSub { first, count }))
            }
            Op::Write { first, count, page } => {
                (page, PageCall::Gain(Gain::Write { first, count }))
            }
            Op::Zero { first, count, page } => {
                (page, PageCall::Gain(Gain::Zero { first, count }))
            }
            Op::SplitPmd { page } => (page, PageCall::Gain(Gain::SplitPmd)),
            Op::Pin { page } => (page, PageCall::Gain(Gain::Pin)),
            Op::Unpin { page } => (page, PageCall::Loss(Loss::Unpin)),
            _ => return None,
        };
        Some((page, call))
    }

    /// Returns the command of a call about one page.
    #[inline(always)]
    pub fn of_page(page: PageId, call: PageCall) -> Op
        ensures { result ≡ page_op call page }
    {
        match call {
            PageCall::Gain(Gain::MapWhole) => Op::MapWhole { page },
            PageCall::Gain(Gain::MapSub { first, count }) => Op::Map { first, count, page },
            PageCall::Gain(Gain::SplitPmd) => Op::SplitPmd { page },
            PageCall::Gain(Gain::Pin) => Op::Pin { page },
            PageCall::Gain(Gain::Write { first, count }) => Op::Write { first, count, page },
            PageCall::Gain(Gain::Zero { first, count }) => Op::Zero { first, count, page },
            PageCall::Loss(Loss::UnmapWhole) => Op::UnmapWhole { page },
            PageCall::Loss(Loss::UnmapSub { first, count }) => Op::Unmap { first, count, page },
            PageCall::Loss(Loss::Unpin) => Op::Unpin { page },
        }
    }
}

/// The calls on a range of a page's subpages.
#[derive(Clone, Copy)]
pub(crate) enum RangeCall {
    Map,
    Unmap,
    Write,
    Zero,
}

impl RangeCall {
    #[inline(always)]
    pub(crate) fn op(self, page: PageId, first: u32, count: u32) -> Op
        ensures { result ≡ range_op self page first count }
    {
        match self {
            RangeCall::Map => Op::Map { first, count, page },
            RangeCall::Unmap => Op::Unmap { first, count, page },
            RangeCall::Write => Op::Write { first, count, page },
            RangeCall::Zero => Op::Zero { first, count, page },
        }
    }
}

/// The calls on a number of pages, at most as many as a batch holds.
#[derive(Clone, Copy)]
pub(crate) enum BatchCall {
    Scan,
    Take,
}

impl BatchCall {
    #[inline(always)]
    pub(crate) fn op(self, count: u32) -> Op
        ensures { result ≡ batch_op self count }
    {
        match self {
            BatchCall::Scan => Op::Scan { count },
            BatchCall::Take => Op::Take { count },
        }
    }
}

/// The command that a word names, by the operands that follow it.
#[derive(Clone, Copy)]
pub(crate) enum CommandWord {
    /// `NODE`
    OfNode(Op),
    /// `NODE PAGE`
    OfPage(PageCall),
    /// `NODE PAGE FIRST COUNT`
    OfRange(RangeCall),
    /// `NODE COUNT`
    OfBatch(BatchCall),
}

/// The commands, each by its word.
const COMMANDS: [(&[u8], CommandWord); 16] = [
    (b"alloc", CommandWord::OfNode(Op::Alloc)),
    (
        b"mapwhole",
        CommandWord::OfPage(PageCall::Gain(Gain::MapWhole)),
    ),
    (
        b"unmapwhole",
        CommandWord::OfPage(PageCall::Loss(Loss::UnmapWhole)),
    ),
    (b"map", CommandWord::OfRange(RangeCall::Map)),
    (b"unmap", CommandWord::OfRange(RangeCall::Unmap)),
    (
        b"splitpmd",
        CommandWord::OfPage(PageCall::Gain(Gain::SplitPmd)),
    ),
    (b"pin", CommandWord::OfPage(PageCall::Gain(Gain::Pin))),
    (b"unpin", CommandWord::OfPage(PageCall::Loss(Loss::Unpin))),
    (b"write", CommandWord::OfRange(RangeCall::Write)),
    (b"zero", CommandWord::OfRange(RangeCall::Zero)),
    (b"close", CommandWord::OfNode(Op::Close)),
    (b"scan", CommandWord::OfBatch(BatchCall::Scan)),
    (b"count", CommandWord::OfNode(Op::Count)),
    (b"take", CommandWord::OfBatch(BatchCall::Take)),
    (b"splitnext", CommandWord::OfNode(Op::SplitNext)),
    (b"putback", CommandWord::OfNode(Op::PutBack)),
];

/// Returns the command that a word names.
#[tactic(auto, unfolding(crate::specs::Commands::command_of))]
pub(crate) fn command_word(name: &[u8]) -> Result<CommandWord, TextKind>
    ensures { Names name.now result }
{
    command_in(&COMMANDS, name)
}

/// Returns the command that a word names among these.
fn command_in(commands: &[(&[u8], CommandWord)], name: &[u8]) -> Result<CommandWord, TextKind>
    ensures named { IfOk result (λ word. (s : Settings) (words : List Text) → command_in (map (λ command. (command.0.now, reading_of command.1)) commands.now) s name.now words ≡ reading_of word s words) }
    ensures unknown { IfErr result (λ kind. (s : Settings) (words : List Text) → command_in (map (λ command. (command.0.now, reading_of command.1)) commands.now) s name.now words ≡ Err kind) }
{
    for (word, command) in commands {
        if name == *word {
            return Ok(*command);
        }
    }
    Err(TextKind::BadWord)
}

/// Parses the line that a text begins with, if its command has this name.
#[inline(always)]
fn parse_named_fast<'t>(
    settings: &Settings,
    name: &[u8],
    word: CommandWord,
    text: &'t [u8],
) -> Option<(Command, &'t [u8])>
    requires { IsName settings.now name.now (reading_of word) }
    ensures { IfSome result (λ read. FastCommand settings.now text.now read.0 read.1.now) }
{
    let operands = after_name(name, text)?;
    parse_operands_fast(settings, word, operands)
}

/// Parses the line that a text begins with, if its command is one of these, each given by its name and its operands.
macro_rules! first_named {
    ($settings:expr, $text:expr; $($name:literal $kind:ident $call:expr),+) => {{
        $(
            if let Some(read) =
                parse_named_fast($settings, $name, CommandWord::$kind($call), $text)
            {
                return Some(read);
            }
        )+
        None
    }};
}

/// Parses the command of the line that a text begins with, and returns it with the text after the line. `None` implies nothing
/// about the line. Each word is dispatched to its operands at once, since recognising a word in one place and matching on it in
/// another takes more instructions.
#[inline(always)]
pub(crate) fn parse_command_fast<'t>(
    settings: &Settings,
    text: &'t [u8],
) -> Option<(Command, &'t [u8])>
    ensures { IfSome result (λ read. FastCommand settings.now text.now read.0 read.1.now) }
{
    match *text.first()? {
        b'a' => first_named!(settings, text; b"alloc" OfNode Op::Alloc),
        b'm' => first_named!(settings, text;
            b"map" OfRange RangeCall::Map,
            b"mapwhole" OfPage PageCall::Gain(Gain::MapWhole)),
        b'u' => first_named!(settings, text;
            b"unmap" OfRange RangeCall::Unmap,
            b"unpin" OfPage PageCall::Loss(Loss::Unpin),
            b"unmapwhole" OfPage PageCall::Loss(Loss::UnmapWhole)),
        b's' => first_named!(settings, text;
            b"splitpmd" OfPage PageCall::Gain(Gain::SplitPmd),
            b"scan" OfBatch BatchCall::Scan,
            b"splitnext" OfNode Op::SplitNext),
        b'p' => first_named!(settings, text;
            b"pin" OfPage PageCall::Gain(Gain::Pin),
            b"putback" OfNode Op::PutBack),
        b'c' => first_named!(settings, text;
            b"count" OfNode Op::Count,
            b"close" OfNode Op::Close),
        b't' => first_named!(settings, text; b"take" OfBatch BatchCall::Take),
        b'w' => first_named!(settings, text; b"write" OfRange RangeCall::Write),
        b'z' => first_named!(settings, text; b"zero" OfRange RangeCall::Zero),
        _ => None,
    }
}

/// A call, and the node on which it is made.
#[derive(Clone, Copy, Debug, PartialEq, Eq)]
pub struct Command {
    /// The number of the node, counted from 0.
    pub node: u32,
    /// The call.
    pub op: Op,
}

/// The commands of a script's sections, in order.
#[derive(Debug, Drop)]
pub struct ScriptSections {
    /// The commands of the section `setup`, which are executed first.
    pub setup: Sequence<Command>,
    /// The commands of each worker, beginning with worker 1.
    pub workers: Sequence<Sequence<Command>>,
}
