//! Scripts made by a generator.
use std::alloc::{AllocError, Global};

// The orders of the pages of the eight nodes, and the thresholds of those that split underused pages.
pub(crate) const ORDERS: [u32; 8] = [9, 9, 9, 9, 3, 2, 5, 9];

pub(crate) const UNDERUSED: [Option<u32>; 8] = [
    None,
    None,
    None,
    Some(100),
    Some(2),
    None,
    Some(8),
    None,
];

// The parameters of a script.
#[derive(Clone, Copy)]
pub(crate) struct Plan {
    pub(crate) seed: u64,
    pub(crate) blocks: u32,
    pub(crate) workers: u32,
    // of each worker
    pub(crate) commands: u32,
    // how many commands of a worker pass until its pages are one number further
    pub(crate) pace: u64,
    // whether the workers take turns, or all run at once
    pub(crate) take_turns: bool,
}

// The next number of a sequence that looks random (the multiplier is Knuth's of MMIX).
fn next(state: u64) -> u64 {
    state
        .wrapping_mul(6_364_136_223_846_793_005)
        .wrapping_add(1_442_695_040_888_963_407)
}

// How many subpages the pages of an order have.
pub(crate) fn subpages_of(order: u32) -> u32 {
    let mut subpages = 1u32;
    for _ in 0..order {
        subpages = subpages.wrapping_mul(2);
    }
    subpages
}

// The order of the pages of a node.
fn order_of(node: u64) -> u32 {
    match ORDERS.get(node as usize) {
        Some(order) => *order,
        None => 9,
    }
}

// Writes a command about a page, chosen by a number. Subpage 0 is mapped and unmapped on its own, the others together.
fn write_page_command(
    text: &mut String,
    state: u64,
    node: u64,
    page: u64,
) -> Result<(), AllocError> {
    let size = u64::from(subpages_of(order_of(node)));
    let others = size.wrapping_sub(1);
    let first = (state >> 20).checked_rem(size).unwrap_or(0);
    let count = 1 + (state >> 30) % 3;
    let number = (state >> 59) % 32;
    let range = match number {
        5..=9 | 16 => Some((0, 1)),
        10..=15 => Some((1, others)),
        17 | 18 | 28 => Some((first, count)),
        29..=31 => Some((0, size)),
        _ => None,
    };
    let word = page_word(number);
    match range {
        Some((first, count)) => write!(text, "{word} {node} {page} {first} {count}\n"),
        None => write!(text, "{word} {node} {page}\n"),
    }
}

fn page_word(number: u64) -> &'static str {
    match number {
        0..=4 => "splitpmd",
        5..=15 | 17 => "unmap",
        16 | 18 => "map",
        19 => "mapwhole",
        20..=23 => "unmapwhole",
        24 => "pin",
        25..=27 => "unpin",
        28..=30 => "write",
        _ => "zero",
    }
}

// Writes a command about the node itself, chosen by a number. One node is closed once in a while.
fn write_node_command(text: &mut String, state: u64, node: u64) -> Result<(), AllocError> {
    let (word, count) = match (state >> 59) % 16 {
        0 => ("scan", " 3"),
        1 => ("scan", " 128"),
        2 | 3 => ("take", " 2"),
        4 => ("take", " 8"),
        5..=8 => ("splitnext", ""),
        9 | 10 => ("putback", ""),
        11 if node == 7 && (state >> 20) % 64 == 0 => ("close", ""),
        11 => ("count", ""),
        _ => ("alloc", ""),
    };
    write!(text, "{word} {node}{count}\n")
}

// Writes one command, chosen by a number: about a node, or about a page of a few from `base` on or of all before these.
fn write_command(text: &mut String, state: u64, base: u64) -> Result<(), AllocError> {
    let node = (state >> 40) % 8;
    if (state >> 57) % 4 == 0 {
        return write_node_command(text, next(state), node);
    }
    let page = if (state >> 62) < 3 {
        base.wrapping_add((state >> 44) % 24)
    } else {
        (state >> 44) % base.wrapping_add(24).max(1)
    };
    write_page_command(text, next(state), node, page)
}

// A section's commands.
fn write_commands(text: &mut String, plan: &Plan, seed: u64, count: u32) -> Result<(), AllocError> {
    let mut state = seed;
    for index in 0..count {
        state = next(state);
        let base = u64::from(index).checked_div(plan.pace).unwrap_or(0);
        write_command(text, state, base)?;
    }
    Ok(())
}

// A setup section, and one for each worker.
pub(crate) fn script(alloc: Global, plan: &Plan) -> Result<String, AllocError> {
    let mut text = String::new(alloc);
    write!(text, "setup\n")?;
    write_commands(&mut text, plan, plan.seed, 400)?;
    for worker in 1..=plan.workers {
        write!(text, "worker {worker}\n")?;
        let seed = next(plan.seed.wrapping_add(u64::from(worker)));
        write_commands(&mut text, plan, seed, plan.commands)?;
    }
    Ok(text)
}
