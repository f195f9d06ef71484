//! Whole scripts run by workers: rows of sections, open batches and gated workers.

mod batches;
mod gated;
mod runs;
mod workers;
