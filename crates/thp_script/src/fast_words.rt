//! Fast parsing of words at the beginning of a text, in one pass over its bytes.
ghost use Rattle.std.specs.Prelude.{◌≡◌, ◌≤◌, ◌++◌, ◌∷◌, IfSome, SomeIff, true};
ghost use Rattle.std.specs.Char.{digit_value, is_ascii_digit};
ghost use Rattle.thp_script.specs.FastWords.{FastNumber};

/// The greatest number that can be followed by any digit: the result fits.
const MAX_BEGUN: u64 = (u64::MAX - 9) / 10;

/// Returns the value of a byte that is a digit.
#[inline(always)]
pub(crate) fn digit(byte: u8) -> Option<u64>
    ensures value { SomeIff result (is_ascii_digit byte ≡ true) (digit_value byte) }
    ensures small { IfSome result (λ digit. digit ≤ 9) }
{
    if !byte.is_ascii_digit() {
        return None;
    }
    Some(u64::from(byte - b'0'))
}

/// Parses the number that a text begins with, if the byte `end` follows it and it is at most `most`. Returns it and the text
/// after that byte. `None` implies nothing about the text.
#[inline(always)]
pub fn parse_number_fast(end: u8, most: u64, text: &[u8]) -> Option<(u64, &[u8])>
    ensures number { IfSome result (λ read. FastNumber end most text.now read.0 read.1.now) }
    ensures most { IfSome result (λ read. read.0 ≤ most) }
{
    let [first, after @ ..] = text else {
        return None;
    };
    let mut rest = after;
    // zero has no further digit
    if *first == b'0' {
        return match rest {
            [byte, after @ ..] if *byte == end => Some((0, after)),
            _ => None,
        };
    }
    let mut value = digit(*first)?;
    while let [byte, after @ ..] = rest {
        if *byte == end {
            return if value <= most {
                Some((value, after))
            } else {
                None
            };
        }
        let digit = digit(*byte)?;
        if value > MAX_BEGUN {
            return None;
        }
        value = value * 10 + digit;
        rest = after;
    }
    None
}

/// Returns the text after a name and a space, if the text begins with them.
#[inline(always)]
pub fn after_name<'t>(name: &[u8], text: &'t [u8]) -> Option<&'t [u8]>
    ensures { IfSome result (λ rest. text.now ≡ name.now ++ 32 ∷ rest.now) }
{
    if text.len() <= name.len() {
        return None;
    }
    for k in 0..name.len() {
        if text[k] != name[k] {
            return None;
        }
    }
    if text[name.len()] != b' ' {
        return None;
    }
    Some(&text[name.len() + 1..])
}
