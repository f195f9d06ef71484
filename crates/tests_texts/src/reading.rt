//! Journal texts that are read and checked: first faults, worked rows, and texts cut at each place.

mod blocks;
mod events;
mod faults;
mod parts;
mod rows;
mod versions;
