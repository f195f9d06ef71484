//! The parameters of a run: its nodes, their blocks, its workers and its report.
ghost use Rattle.std.specs.Prelude.{◌≡◌, ◌↔◌, ◌++◌, IsSome, IfSome, IsTrue, None, drop, replicate, true};
ghost use Rattle.std.specs.List.{list_all};
ghost use Rattle.thp_history.specs.Prelude.{max_order};
ghost use Rattle.thp_script.specs.Limits.{max_nodes};
ghost use Rattle.thp_script.specs.Settings.{is_low, is_order, AreLow, AreOrdersFor, AreThresholdsFor, IsWithinLimits};

use crate::limits::{MAX_NODES, MAX_WORKERS};
use thp_history::Shape;

/// The output of a run.
#[derive(Clone, Copy, Debug, PartialEq, Eq)]
pub enum Report {
    /// The totals of each node.
    Totals,
    /// The journal of each node.
    Journal,
    /// The answer to each command.
    Answers,
}

/// The nodes, blocks and workers of a run, within this project's limits, and its report.
#[derive(Clone, Copy, Debug)]
pub struct Settings {
    /// The number of memory nodes.
    pub nodes: u32,
    /// The number of blocks of each node.
    pub blocks: u32,
    /// The number of workers that a script may name.
    pub workers: u32,
    /// What to write at the end.
    pub report: Report,
    /// The order of the pages of each node, 2 to 9; entries beyond the nodes are ignored.
    pub orders: [u32; MAX_NODES],
    /// The threshold of zero-filled subpages for each node that splits underused pages; `None` for the others. Entries beyond the
    /// nodes are ignored.
    pub underused: [Option<u32>; MAX_NODES],
    // The numbers of nodes, blocks and workers are within the limits.
    pub ghost within_limits: { IsWithinLimits nodes blocks workers },
    // Each order is within the limits.
    pub ghost orders_fit: { list_all is_order orders ≡ true },
    // Each threshold is valid for the order of its node.
    pub ghost thresholds_fit: { AreLow orders underused },
}

impl Settings {
    /// Creates settings of these numbers, with pages of order 9 on each node and no node that splits underused pages. `None`
    /// exactly if a number is outside its limits (this project's profile).
    pub fn new(nodes: u32, blocks: u32, workers: u32, report: Report) -> Option<Settings>
        ensures limits { IsSome result ↔ IsWithinLimits nodes blocks workers }
        ensures nodes { IfSome result (λ settings. settings.nodes ≡ nodes) }
        ensures blocks { IfSome result (λ settings. settings.blocks ≡ blocks) }
        ensures workers { IfSome result (λ settings. settings.workers ≡ workers) }
        ensures report { IfSome result (λ settings. settings.report ≡ report) }
        ensures orders { IfSome result (λ settings. settings.orders ≡ replicate max_nodes max_order) }
        ensures underused { IfSome result (λ settings. settings.underused ≡ replicate max_nodes None) }
    {
        if (1..=MAX_NODES as u32).contains(&nodes)
            && (1..=Shape::MAX_BLOCKS).contains(&blocks)
            && (1..=MAX_WORKERS).contains(&workers)
        {
            Some(Settings {
                nodes,
                blocks,
                workers,
                report,
                orders: [Shape::MAX_ORDER; MAX_NODES],
                underused: [None; MAX_NODES],
            })
        } else {
            None
        }
    }

    /// Returns these settings with an order for each node. `None` exactly if the number of orders differs from that of the nodes,
    /// an order is not 2 to 9, or an order is too small for the threshold of its node.
    pub fn with_orders(self, orders: &[u32]) -> Option<Settings>
        ensures limits { IsSome result ↔ AreOrdersFor self.nodes self.underused orders.now }
        ensures orders { IfSome result (λ settings. settings.orders ≡ orders.now ++ drop self.nodes self.orders) }
        ensures underused { IfSome result (λ settings. settings.underused ≡ self.underused) }
        ensures nodes { IfSome result (λ settings. settings.nodes ≡ self.nodes) }
        ensures blocks { IfSome result (λ settings. settings.blocks ≡ self.blocks) }
        ensures workers { IfSome result (λ settings. settings.workers ≡ self.workers) }
        ensures report { IfSome result (λ settings. settings.report ≡ self.report) }
    {
        if orders.len() != self.nodes as usize
            || !are_orders(orders)
            || !are_low(orders, &self.underused)
        {
            return None;
        }
        let mut settings = self;
        let mut all = settings.orders;
        all[..orders.len()].copy_from_slice(orders);
        settings.orders = all;
        Some(settings)
    }

    /// Returns these settings with a threshold for each node that splits underused pages, and `None` for each other node. `None`
    /// exactly if the number of elements differs from that of the nodes, or a threshold is not below the number of subpages of
    /// its node's pages.
    pub fn with_underused(self, thresholds: &[Option<u32>]) -> Option<Settings>
        ensures limits { IsSome result ↔ AreThresholdsFor self.nodes self.orders thresholds.now }
        ensures underused { IfSome result (λ settings. settings.underused ≡ thresholds.now ++ drop self.nodes self.underused) }
        ensures orders { IfSome result (λ settings. settings.orders ≡ self.orders) }
        ensures nodes { IfSome result (λ settings. settings.nodes ≡ self.nodes) }
        ensures blocks { IfSome result (λ settings. settings.blocks ≡ self.blocks) }
        ensures workers { IfSome result (λ settings. settings.workers ≡ self.workers) }
        ensures report { IfSome result (λ settings. settings.report ≡ self.report) }
    {
        if thresholds.len() != self.nodes as usize || !are_low(&self.orders, thresholds) {
            return None;
        }
        let mut settings = self;
        let mut all = settings.underused;
        all[..thresholds.len()].copy_from_slice(thresholds);
        settings.underused = all;
        Some(settings)
    }
}

fn are_orders(orders: &[u32]) -> bool
    ensures { result ≡ list_all is_order orders.now }
{
    orders.iter().all(|order| (Shape::MIN_ORDER..=Shape::MAX_ORDER).contains(order))
}

/// Returns whether a threshold, if there is one, is below the number of subpages of a page of this order.
fn is_low(order: u32, threshold: Option<u32>) -> bool
    requires { is_order order ≡ true }
    ensures { result ≡ is_low order threshold }
{
    match threshold {
        None => true,
        Some(threshold) => threshold < 1 << order,
    }
}

/// Returns whether each threshold is below the number of subpages of a page of the order at the same index.
fn are_low(orders: &[u32], thresholds: &[Option<u32>]) -> bool
    requires { list_all is_order orders.now ≡ true }
    ensures { IsTrue result ↔ AreLow orders.now thresholds.now }
{
    for k in 0..orders.len().min(thresholds.len()) {
        if !is_low(orders[k], thresholds[k]) {
            return false;
        }
    }
    true
}
