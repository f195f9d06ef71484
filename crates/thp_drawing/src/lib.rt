//! The numbers of nodes as a table and as an SVG picture.
//!
//! The texts are exactly those of the definitions: `table_text` and `node_table` (`Tables`), `picture_text` and `node_picture`
//! (`Pictures`, and `Titles`, `Overviews`, `Panels`, `Quantities`, `Rows`, `Lanes`, `Stucks`, `Bars`, `Axes`, `Areas`, `Scales`,
//! `Elements`, `Grouped`, `Styles`).
//!
//! - `node`: what is drawn of a node (`Drawn`): its numbers, its columns, the event at which it ends.
//! - `table`; `picture` (`Styles`), `title` (`Stucks`), `overview`, `panel`, `quantity`, `stages`, `bar` (`Rows`, one for each
//!   page; `Lanes`, one for each caller's batches; `Laws`), `axis`, `area`, `scale`, `element` (`Grouped`): by the same names. A
//!   text is a list of pieces (`element`), which one function appends.
//! - `escaping` (`Escapes`): words as XML has them.
//!
//! docs/FORMATS.md has both formats; the stored pictures are compared by `tests/test_drawer.py`.
#![tactic(auto)]

mod area;
mod axis;
mod bar;
mod element;
mod escaping;
mod grid;
mod node;
mod overview;
mod panel;
mod picture;
mod quantity;
mod scale;
mod stages;
mod table;
mod title;

pub use bar::each_page_has_its_row;
pub use escaping::{escaped_stays_within, put_escaped};
pub use node::{DrawnNode, IllegalEvent};
pub use picture::{put_node_picture, put_picture};
pub use table::{put_node_table, put_table};
