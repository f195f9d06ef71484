//! Tests of each line of a text that do not depend on its format.
ghost use Rattle.std.specs.Prelude.{◌≡◌};
ghost use Rattle.std.specs.List.{list_all, list_any};
ghost use Rattle.thp_script.specs.Prelude.{fault_after, fault_of_line, is_empty, is_printable, words_in_line};

use crate::fault::TextKind;

/// Returns whether all bytes of a line are printable ASCII characters.
pub fn is_printable(line: &[u8]) -> bool
    ensures { result ≡ list_all is_printable line.now }
{
    line.iter().all(|b| (b' '..=b'~').contains(b))
}

/// Returns whether a line has an empty word: a space at its start or end, two in a row, or no word at all.
pub fn has_empty_word(line: &[u8]) -> bool
    ensures { result ≡ list_any is_empty (words_in_line line.now) }
{
    line.split(|b| *b == b' ').any(|word| word.is_empty())
}

/// Returns the error of a line whose words can't be parsed for the given reason. A bad byte takes precedence, then an empty word.
pub fn fault_of_line(line: &[u8], reading: TextKind) -> TextKind
    ensures { result ≡ fault_of_line line.now reading }
{
    if !is_printable(line) {
        return TextKind::BadByte;
    }
    if has_empty_word(line) {
        return TextKind::BadWord;
    }
    reading
}

/// Returns the error of the text after the last line feed, if that is not empty.
#[tactic(auto, unfolding(crate::specs::Lines::fault_after))]
pub fn fault_after(line: &[u8]) -> Option<TextKind>
    ensures { result ≡ fault_after line.now }
{
    if line.is_empty() {
        return None;
    }
    if is_printable(line) {
        Some(TextKind::Cut)
    } else {
        Some(TextKind::BadByte)
    }
}
