//! The public surface as a caller of six crates and `std` meets it: every public item that was asked for, with its fields, variants
//! and argument types. Where an item is renamed or takes another form, this crate does not compile.
//!
//! | Module | Items |
//! |---|---|
//! | `sets`, `laws` | `thp_model`: sets, events, shapes; the check, and the laws of legal histories |
//! | `links` | `thp_links`: lists by index over a table of pages, and over a table defined here |
//! | `pages`, `nodes`, `cells` | `thp_page`, `thp_node`, `thp_cell`: pages and their table, a node of one thread, a shared node |
//! | `program` | `thp_run`: settings, scripts, journals, runs, devices and a gate defined here |
//! | `sections`, `steps` | `thp_run`: sections and their answers, on any nodes, among them some defined here |
//! | `names` | every variant and field of the values that calls take and return |
#![tactic(auto)]

#[cfg(test)]
mod cells;
#[cfg(test)]
mod equal;
#[cfg(test)]
mod laws;
#[cfg(test)]
mod links;
#[cfg(test)]
mod names;
#[cfg(test)]
mod nodes;
#[cfg(test)]
mod pages;
#[cfg(test)]
mod program;
#[cfg(test)]
mod sections;
#[cfg(test)]
mod sets;
#[cfg(test)]
mod steps;
