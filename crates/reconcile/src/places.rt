// The places of the keyed children of a list, by key.
ghost use Rattle.std.specs.Prelude.{◌≡◌, ◌<◌, ◌≤◌, length, IfOk, map};
ghost use Rattle.reconcile.specs.Places.{ArePlaces, place_in};
ghost use Rattle.widget_model.specs.View.{shared};

use fx_expr::Value;
use std::alloc::{AllocError, Global};
use std::collections::BTreeMap;
use std::rc::Rc;
use widget_keys::Key;
use widget_model::Widget;

// The places of the keyed children from one place up to another, by key.
pub(crate) fn places_by_key<'a>(
    alloc: Global,
    old: &'a [Rc<Widget>],
    from: usize,
    to: usize,
) -> Result<BTreeMap<&'a Key<Value>, usize>, AllocError>
    requires ordered { from ≤ to }
    requires within { to ≤ length old.now }
    ensures { IfOk result (ArePlaces (map shared old.now) from to) }
{
    let mut places = BTreeMap::new(alloc);
    for place in from..to {
        let key = &old[place].key;
        if let Key::None = key {
            continue;
        }
        places.insert(key, place)?;
    }
    Ok(places)
}

// The place that is kept for a key.
pub(crate) fn place_of<'a>(
    places: &BTreeMap<&'a Key<Value>, usize>,
    key: &'a Key<Value>,
) -> Option<usize>
    ensures { result ≡ place_in places.now key.now }
{
    places.get(&key).copied()
}
