//! Settings, words of a command line, lists, and scripts as the whole grammar parses them.

mod lines;
mod parts;
mod scripts;
