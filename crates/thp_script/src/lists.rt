//! Lists of numbers as words of a command line.
ghost use Rattle.std.specs.Prelude.{◌≡◌, ◌<◌, ◌^◌, ℕ, List, All, MatchOption, IfSome, IfNone, None, Option, Some, map};
ghost use Rattle.std.specs.Fmt.{decimal};
ghost use Rattle.thp_script.specs.NumberLists.{list_in, order_of, orders_in, threshold_of, threshold_text, thresholds_in, IsListText, IsWritable};

use crate::limits::MAX_NODES;
use crate::words::{cut_at, number};
use arrayvec::ArrayVec;

/// An element of a list.
trait Item: Copy + Default {
    /// The element that a text represents, if any.
    ghost item_of: { List ℕ → Option Self };

    fn read(item: &[u8]) -> Option<Self>
        ensures { result ≡ item_of item.now };
}

impl Item for u32 {
    ghost item_of = { order_of };

    fn read(item: &[u8]) -> Option<u32> {
        let value = number(u64::from(u32::MAX), item)?;
        Some(value as u32)
    }
}

impl Item for Option<u32> {
    ghost item_of = { threshold_of };

    fn read(item: &[u8]) -> Option<Option<u32>> {
        if item == b"off".as_slice() {
            return Some(None);
        }
        let value = number(u64::from(u32::MAX), item)?;
        Some(Some(value as u32))
    }
}

fn read_list<T: Item>(text: &[u8]) -> Option<ArrayVec<T, MAX_NODES>>
    ensures { MatchOption result (list_in T.item_of text.now ≡ None) (λ read. list_in T.item_of text.now ≡ Some read.items) }
{
    let mut items = ArrayVec::new();
    let mut rest = Some(text);
    while let Some(left) = rest {
        let (item, after) = cut_at(b',', left);
        if items.is_full() {
            return None;
        }
        items.push(T::read(item)?);
        rest = after;
    }
    Some(items)
}

/// Parses a list of orders: 1 to 8 numbers below 2^32, written as in a script and separated by commas. `None` exactly if the text
/// is no such list. `Settings::with_orders` checks whether the numbers are orders of nodes.
pub fn read_orders(text: &str) -> Option<ArrayVec<u32, MAX_NODES>>
    ensures list { MatchOption result (orders_in text.now ≡ None) (λ orders. orders_in text.now ≡ Some orders.items) }
    ensures written { IfSome result (λ orders. IsListText (map decimal orders.items) text.now) }
    ensures refused { IfNone result ((orders : List ℕ) → All (λ n. n < 2 ^ 32) orders → ¬ IsListText (map decimal orders) text.now) }
{
    read_list(text.as_bytes())
}

/// Parses a list of thresholds: 1 to 8 elements, each `off` or a number below 2^32 as in a script, separated by commas. `None`
/// exactly if the text is no such list. `Settings::with_underused` checks whether they are valid for the nodes.
pub fn read_underused(text: &str) -> Option<ArrayVec<Option<u32>, MAX_NODES>>
    ensures list { MatchOption result (thresholds_in text.now ≡ None) (λ thresholds. thresholds_in text.now ≡ Some thresholds.items) }
    ensures written { IfSome result (λ thresholds. IsListText (map threshold_text thresholds.items) text.now) }
    ensures refused { IfNone result ((thresholds : List (Option ℕ)) → All IsWritable thresholds → ¬ IsListText (map threshold_text thresholds) text.now) }
{
    read_list(text.as_bytes())
}
