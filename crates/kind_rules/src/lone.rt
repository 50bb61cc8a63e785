// Boxes with nobody below them.
ghost use Rattle.std.specs.Prelude.{◌≡◌};
ghost use Rattle.delegates.specs.Meaning.{Meaning};
ghost use Rattle.delegates.specs.Table.{meant_in};
ghost use Rattle.widget_model.specs.View.{look_in};
ghost use Rattle.layout_form.specs.Object.{setting_of};
ghost use Rattle.kind_rules.specs.Lone.{lone_size};

use crate::around::around_size;
use crate::single::is_single;
use delegates::{Delegate, DelegateTable};
use fx_geom::{Bounds, Scale, Size};
use widget_model::Kind;

/// The size of a box with nobody below it, where its kind has at most one child: its rule makes this size, and has nothing
/// to remark. Other kinds have rules for any number of children.
pub fn lone_size(kind: &Kind, b: Bounds, scale: Scale, table: &DelegateTable) -> Option<Size>
    ensures { result ≡ lone_size (setting_of scale (meant_in table.now ⟦<dyn Delegate as Delegate>⟧)) (look_in kind.now) b }
{
    if is_single(kind) {
        Some(around_size(kind, b, None, scale, table))
    } else {
        None
    }
}
