//! The page that an event frees.
ghost use Rattle.std.specs.Prelude.{◌≡◌, ℕ, true, Some, IfSome};
ghost use Rattle.thp_history.specs.Prelude.{frees};

use thp_history::{Outcome, PageId, What};

/// Returns the page that an event frees, if any.
pub fn freed_page(what: &What) -> Option<PageId>
    ensures frees { IfSome result (λ p. frees p what.now ≡ true) }
    ensures no_other { (p : ℕ) → frees p what.now ≡ true → result ≡ Some p }
{
    match *what {
        What::UnmapWhole { outcome, page, .. }
        | What::UnmapSub { outcome, page, .. }
        | What::Unpin { outcome, page, .. } => (outcome == Outcome::Freed).then_some(page),
        _ => None,
    }
}
