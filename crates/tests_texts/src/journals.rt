//! Journals as text, of histories written out.

mod histories;
mod kinds;
mod rows;
mod streams;
