// Which key of a child list stands there a second time (`debugChildrenHaveDuplicateKeys`).
ghost use Rattle.std.specs.Prelude.{ℕ, ◌<◌, IfOk, IfSome, IfNone};
ghost use Rattle.std.specs.Ordering.{eq_by_cmp};
ghost use Rattle.widget_keys.specs.Key.{IsRepeat};

use crate::keys::Key;
use std::alloc::{AllocError, Global};
use std::collections::BTreeSet;

/// The least index whose key isn't `None` and equals an earlier key, where values are equal that their order ties; `None`
/// exactly where there is no such index. It takes n log n comparisons.
pub fn first_repeat<V: Ord>(alloc: Global, keys: &[Key<V>]) -> Result<Option<usize>, AllocError>
    ensures repeat { IfOk result (λ r. IfSome r (λ i. IsRepeat (eq_by_cmp V.cmp) keys.now i)) }
    ensures least { IfOk result (λ r. IfSome r (λ i. (k : ℕ) → k < i → ¬ (IsRepeat (eq_by_cmp V.cmp) keys.now k))) }
    ensures none { IfOk result (λ r. IfNone r ((k : ℕ) → ¬ (IsRepeat (eq_by_cmp V.cmp) keys.now k))) }
{
    let mut seen = BTreeSet::new(alloc);
    for (i, key) in keys.iter().enumerate() {
        if let Key::None = key {
            continue;
        }
        if !seen.insert(key)? {
            return Ok(Some(i));
        }
    }
    Ok(None)
}
