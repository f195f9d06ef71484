//! The version of the programs.

/// The version in the output of `--version`, after a program's name.
pub const VERSION: &str = "0.3.0";
