// What boxes would like.
ghost use Rattle.std.specs.Prelude.{◌≡◌, List, IfOk};
ghost use Rattle.fx_geom.specs.declared.shapes.Axis.TheVariants.{Horizontal, Vertical};
ghost use Rattle.delegates.specs.Table.{Plug};
ghost use Rattle.node_tree.specs.Tree.{IsNode};
ghost use Rattle.layout_form.specs.Fits.{CanBeLaidOut};
ghost use Rattle.layout_form.specs.Object.{setting_of};
ghost use Rattle.layout_form.specs.Layout.{object};
ghost use Rattle.layout_rules.specs.Places.{render_at};

use crate::cursor::RenderCursor;
use fx_geom::{Axis, Len};
use fx_handles::Handle;
use kind_rules::greatest;
use render_tree::RenderTree;
use std::alloc::{AllocError, Global};

/// The greatest width at which a node still gains by it, where it may be so high, in u (`getMaxIntrinsicWidth`). The error is
/// want of memory.
pub fn max_w(alloc: Global, r: &RenderTree, h: Handle, height: Len) -> Result<u64, AllocError>
    requires live { IsNode r.now.tree h }
    requires fits { CanBeLaidOut (render_at r.now.tree h) }
    ensures { IfOk result (λ n. (ds : List Plug) → n ≡ (object (setting_of r.now.scale ds) (render_at r.now.tree h)).greatest Horizontal height) }
{
    greatest(
        alloc,
        RenderCursor::new(r, h),
        Axis::Horizontal,
        height,
        r.scale(),
    )
}

/// The greatest height at which a node still gains by it, where it may be so wide, in u (`getMaxIntrinsicHeight`). The error is
/// want of memory.
pub fn max_h(alloc: Global, r: &RenderTree, h: Handle, width: Len) -> Result<u64, AllocError>
    requires live { IsNode r.now.tree h }
    requires fits { CanBeLaidOut (render_at r.now.tree h) }
    ensures { IfOk result (λ n. (ds : List Plug) → n ≡ (object (setting_of r.now.scale ds) (render_at r.now.tree h)).greatest Vertical width) }
{
    greatest(
        alloc,
        RenderCursor::new(r, h),
        Axis::Vertical,
        width,
        r.scale(),
    )
}
