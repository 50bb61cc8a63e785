// What is stored at a node. Where the handle isn't live there is nothing.
ghost use Rattle.std.specs.Prelude.{◌≡◌, option_map, option_and_then, option_copied};
ghost use Rattle.widget_model.specs.View.{shared};
ghost use Rattle.render_tree.specs.Object.{bounds_in, size_in, sliver_in, geometry_in};
ghost use Rattle.render_tree.specs.Tree.{object_at, frame_at};
ghost use Rattle.render_tree.specs.Readings.{scroll_of, live_of, overflow_of, unbounded_of, plugged_of, shown_of, scrolled_of, needs_layout_of, layout_below_of, needs_paint_of, paint_below_of};

use crate::RenderTree;
use crate::object::{bounds_in, geometry_in, is_lazy, is_viewport, size_in, sliver_in};
use fx_geom::{Bounds, Offset, Size};
use fx_handles::Handle;
use plain_tree::{Frame, ParentData};
use sliver_layout::{Geometry, SliverBounds, Window};
use std::rc::Rc;
use widget_model::Widget;

impl RenderTree {
    /// The node's number, or `None` where the handle isn't live.
    pub fn number(&self, h: Handle) -> Option<u64>
        ensures { result ≡ option_map (λ o. o.number) (object_at self.now.tree h) }
    {
        let object = self.tree.value(h)?;
        Some(object.number)
    }

    /// The node's widget, or `None` where the handle isn't live.
    pub fn widget(&self, h: Handle) -> Option<&Rc<Widget>>
        ensures { option_map shared (option_copied result) ≡ option_map (λ o. o.widget) (object_at self.now.tree h) }
    {
        let object = self.tree.value(h)?;
        Some(&object.widget)
    }

    /// What the node's parent takes from the widgets between them, or `None` where the handle isn't live.
    pub fn parent_data(&self, h: Handle) -> Option<ParentData>
        ensures { result ≡ option_map (λ o. o.parent_data) (object_at self.now.tree h) }
    {
        let object = self.tree.value(h)?;
        Some(object.parent_data)
    }

    /// How far a Viewport is scrolled, in u; `None` exactly where the handle isn't that of a live Viewport.
    pub fn scroll(&self, h: Handle) -> Option<u64>
        ensures { result ≡ option_and_then scroll_of (object_at self.now.tree h) }
    {
        let object = self.tree.value(h)?;
        if is_viewport(&object.widget.kind) {
            Some(object.scroll)
        } else {
            None
        }
    }

    /// The live range of a SliverLazy; `None` exactly where the handle isn't that of a live SliverLazy, or no range is stored
    /// for it.
    pub fn live(&self, h: Handle) -> Option<Window>
        ensures { result ≡ option_and_then live_of (object_at self.now.tree h) }
    {
        let object = self.tree.value(h)?;
        if is_lazy(&object.widget.kind) {
            object.live
        } else {
            None
        }
    }

    // The frame of the node's last layout.
    pub fn frame(&self, h: Handle) -> Option<Frame>
        ensures { result ≡ frame_at self.now.tree h }
    {
        let object = self.tree.value(h)?;
        object.frame
    }

    /// The bounds of a box in its last layout; `None` exactly where the handle isn't live or that layout was none of a box.
    pub fn bounds(&self, h: Handle) -> Option<Bounds>
        ensures { result ≡ bounds_in (frame_at self.now.tree h) }
    {
        bounds_in(self.frame(h))
    }

    /// The size that a box took in its last layout; `None` exactly where the handle isn't live or that layout was none of a
    /// box.
    pub fn size(&self, h: Handle) -> Option<Size>
        ensures { result ≡ size_in (frame_at self.now.tree h) }
    {
        size_in(self.frame(h))
    }

    /// The bounds of a sliver in its last layout; `None` exactly where the handle isn't live or that layout was none of a
    /// sliver.
    pub fn sliver(&self, h: Handle) -> Option<SliverBounds>
        ensures { result ≡ sliver_in (frame_at self.now.tree h) }
    {
        sliver_in(self.frame(h))
    }

    /// The geometry of a sliver's last layout; `None` exactly where the handle isn't live or that layout was none of a sliver.
    pub fn geometry(&self, h: Handle) -> Option<Geometry>
        ensures { result ≡ geometry_in (frame_at self.now.tree h) }
    {
        geometry_in(self.frame(h))
    }

    /// Where the node's parent put it; `None` exactly where the handle isn't live or no offset was set.
    pub fn offset(&self, h: Handle) -> Option<Offset>
        ensures { result ≡ option_and_then (λ o. o.offset) (object_at self.now.tree h) }
    {
        let object = self.tree.value(h)?;
        object.offset
    }

    /// By how much the node's children exceed it, in u; 0 where the handle isn't live.
    pub fn overflow(&self, h: Handle) -> u64
        ensures { result ≡ overflow_of (object_at self.now.tree h) }
    {
        match self.tree.value(h) {
            Some(object) => object.notes.overflow,
            None => 0,
        }
    }

    /// Whether the node asked for all of a length that has no end; `false` where the handle isn't live.
    pub fn unbounded(&self, h: Handle) -> bool
        ensures { result ≡ unbounded_of (object_at self.now.tree h) }
    {
        match self.tree.value(h) {
            Some(object) => object.notes.unbounded,
            None => false,
        }
    }

    /// Whether a delegate of the node's name was plugged in its last layout; `false` where the handle isn't live.
    pub fn has_delegate(&self, h: Handle) -> bool
        ensures { result ≡ plugged_of (object_at self.now.tree h) }
    {
        match self.tree.value(h) {
            Some(object) => object.plugged,
            None => false,
        }
    }

    /// Where the node's last layout left it scrolled, in u; 0 where the handle isn't live.
    pub fn scrolled(&self, h: Handle) -> u64
        ensures { result ≡ scrolled_of (object_at self.now.tree h) }
    {
        match self.tree.value(h) {
            Some(object) => object.scrolled,
            None => 0,
        }
    }

    /// Whether the node is in the window of its parent; `false` where the handle isn't live.
    pub fn shown(&self, h: Handle) -> bool
        ensures { result ≡ shown_of (object_at self.now.tree h) }
    {
        match self.tree.value(h) {
            Some(object) => object.shown,
            None => false,
        }
    }

    /// Whether the node is to be laid out; `false` where the handle isn't live.
    pub fn needs_layout(&self, h: Handle) -> bool
        ensures { result ≡ needs_layout_of (object_at self.now.tree h) }
    {
        match self.tree.value(h) {
            Some(object) => object.needs_layout,
            None => false,
        }
    }

    /// Whether something below the node may have to be laid out; `false` where the handle isn't live.
    pub fn layout_below(&self, h: Handle) -> bool
        ensures { result ≡ layout_below_of (object_at self.now.tree h) }
    {
        match self.tree.value(h) {
            Some(object) => object.layout_below,
            None => false,
        }
    }

    /// Whether the node is to be painted anew; `false` where the handle isn't live.
    pub fn needs_paint(&self, h: Handle) -> bool
        ensures { result ≡ needs_paint_of (object_at self.now.tree h) }
    {
        match self.tree.value(h) {
            Some(object) => object.needs_paint,
            None => false,
        }
    }

    /// Whether something below the node may have to be painted anew; `false` where the handle isn't live.
    pub fn paint_below(&self, h: Handle) -> bool
        ensures { result ≡ paint_below_of (object_at self.now.tree h) }
    {
        match self.tree.value(h) {
            Some(object) => object.paint_below,
            None => false,
        }
    }
}
