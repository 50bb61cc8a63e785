// The extents that boxes would like (`computeMaxIntrinsicWidth`, `computeMaxIntrinsicHeight`).
ghost use Rattle.std.specs.Prelude.{◌≡◌, List, IfOk};
ghost use Rattle.delegates.specs.Table.{Plug};
ghost use Rattle.layout_form.specs.Fits.{CanBeLaidOut};
ghost use Rattle.layout_form.specs.Object.{setting_of};
ghost use Rattle.layout_form.specs.Layout.{object};

use crate::place::RenderPlace;
use fx_geom::{Axis, Len, Scale};
use plain_tree::RenderNode;
use std::alloc::{AllocError, Global};

/// The extent that a node would like along an axis, where it may take so much across it, in u: the greatest at which it
/// still gains by it. Delegates have no part in it, whatever they are. It asks each node below it at most once, but what is
/// below a Wrap twice for the Wrap's height: each child is asked for its width first.
pub fn greatest(
    alloc: Global,
    node: &RenderNode,
    axis: Axis,
    across: Len,
    scale: Scale,
) -> Result<u64, AllocError>
    requires { CanBeLaidOut node.now }
    ensures { IfOk result (λ n. (ds : List Plug) → n ≡ (object (setting_of scale ds) node.now).greatest axis across) }
{
    kind_rules::greatest(alloc, RenderPlace { node }, axis, across, scale)
}
