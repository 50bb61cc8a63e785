// What is stored at a node, read off the node itself: its handle is looked up once.
ghost use Rattle.std.specs.Prelude.{◌≡◌, option_copied};
ghost use Rattle.widget_model.specs.View.{shared};
ghost use Rattle.render_tree.specs.Readings.{scroll_of, live_of};
ghost use Rattle.render_tree.specs.Tree.{object_at};

use crate::RenderTree;
use crate::object::{RenderObject, is_lazy, is_viewport};
use fx_geom::Offset;
use fx_handles::Handle;
use plain_tree::{Frame, Notes, ParentData};
use sliver_layout::Window;
use std::rc::Rc;
use widget_model::Widget;

impl RenderTree {
    /// What is stored at a node, or `None` where the handle isn't live.
    pub fn object(&self, h: Handle) -> Option<&RenderObject>
        ensures { option_copied result ≡ object_at self.now.tree h }
    {
        self.tree.value(h)
    }
}

impl RenderObject {
    /// The node's number.
    pub fn number(&self) -> u64
        ensures { result ≡ self.now.number }
    {
        self.number
    }

    /// The node's widget.
    pub fn widget(&self) -> &Rc<Widget>
        ensures { shared result.now ≡ self.now.widget }
    {
        &self.widget
    }

    /// What the node's parent takes from the widgets between them.
    pub fn parent_data(&self) -> ParentData
        ensures { result ≡ self.now.parent_data }
    {
        self.parent_data
    }

    /// How far a Viewport is scrolled, in u; `None` exactly where the node is none.
    pub fn scroll(&self) -> Option<u64>
        ensures { result ≡ scroll_of self.now }
    {
        if is_viewport(&self.widget.kind) {
            Some(self.scroll)
        } else {
            None
        }
    }

    /// The live range of a SliverLazy; `None` exactly where the node is none, or no range is stored for it.
    pub fn live(&self) -> Option<Window>
        ensures { result ≡ live_of self.now }
    {
        if is_lazy(&self.widget.kind) {
            self.live
        } else {
            None
        }
    }

    /// The frame of the node's last layout, if there was one.
    pub fn frame(&self) -> Option<Frame>
        ensures { result ≡ self.now.frame }
    {
        self.frame
    }

    /// What the node's last layout remarked.
    pub fn notes(&self) -> Notes
        ensures { result ≡ self.now.notes }
    {
        self.notes
    }

    /// Whether a delegate of the node's name was plugged in its last layout.
    pub fn has_delegate(&self) -> bool
        ensures { result ≡ self.now.plugged }
    {
        self.plugged
    }

    /// Where the node's last layout left it scrolled, in u.
    pub fn scrolled(&self) -> u64
        ensures { result ≡ self.now.scrolled }
    {
        self.scrolled
    }

    /// Where the node's parent put it, if it did.
    pub fn offset(&self) -> Option<Offset>
        ensures { result ≡ self.now.offset }
    {
        self.offset
    }

    /// Whether the node is in the window of its parent.
    pub fn shown(&self) -> bool
        ensures { result ≡ self.now.shown }
    {
        self.shown
    }

    /// Whether the node is to be laid out.
    pub fn needs_layout(&self) -> bool
        ensures { result ≡ self.now.needs_layout }
    {
        self.needs_layout
    }

    /// Whether something below the node may have to be laid out.
    pub fn layout_below(&self) -> bool
        ensures { result ≡ self.now.layout_below }
    {
        self.layout_below
    }

    /// Whether the node is to be painted anew.
    pub fn needs_paint(&self) -> bool
        ensures { result ≡ self.now.needs_paint }
    {
        self.needs_paint
    }

    /// Whether something below the node may have to be painted anew.
    pub fn paint_below(&self) -> bool
        ensures { result ≡ self.now.paint_below }
    {
        self.paint_below
    }
}
