// The frame of a node's last layout, which is set.
ghost use Rattle.std.specs.Prelude.{◌≡◌, ◌↔◌, Some, None, true, false, IsTrue};
ghost use Rattle.plain_tree.specs.declared.laid.Frame.TheVariants.{Boxed, Sliver};
ghost use Rattle.widget_model.specs.View.{look_in};
ghost use Rattle.render_tree.specs.Object.{RenderObject as RenderObjectOf, object_look, is_sliver};
ghost use Rattle.render_tree.specs.Tree.{object_at};
ghost use Rattle.render_tree.specs.Calls.{SetsFrame};

use crate::RenderTree;
use crate::writes::write_frame;
use fx_geom::{Bounds, Size};
use fx_handles::Handle;
use plain_tree::Frame;
use sliver_layout::{Geometry, SliverBounds};
use widget_model::Kind;

// Whether a kind is laid out as a sliver.
fn is_sliver(kind: &Kind) -> bool
    ensures { result ≡ is_sliver (look_in kind.now) }
{
    match kind {
        Kind::SliverToBox
        | Kind::SliverPadding { .. }
        | Kind::SliverFixed { .. }
        | Kind::SliverLazy { .. } => true,
        _ => false,
    }
}

// Whether two bounds are the same.
fn is_same_bounds(a: Bounds, b: Bounds) -> bool
    ensures { IsTrue result ↔ (a ≡ b) }
{
    let least_w = a.min_w == b.min_w;
    let most_w = a.max_w == b.max_w;
    let least_h = a.min_h == b.min_h;
    let most_h = a.max_h == b.max_h;
    least_w && (most_w && (least_h && most_h))
}

// Whether a box had this frame.
fn is_boxed(frame: Option<Frame>, b: Bounds, s: Size) -> bool
    ensures { IsTrue result ↔ (frame ≡ Some (Boxed b s)) }
{
    match frame {
        Some(Frame::Boxed { bounds, size }) => is_same_bounds(bounds, b) && size == s,
        _ => false,
    }
}

// Whether a sliver had this frame.
fn is_slid(frame: Option<Frame>, b: SliverBounds, g: Geometry) -> bool
    ensures { IsTrue result ↔ (frame ≡ Some (Sliver b g)) }
{
    match frame {
        Some(Frame::Sliver { bounds, geometry }) => bounds == b && geometry == g,
        _ => false,
    }
}

impl RenderTree {
    // Stores another frame, and marks the node for painting.
    fn put_frame(&mut self, h: Handle, frame: Frame)
        requires { (o : RenderObjectOf) → object_at self.old.tree h ≡ Some o → o.frame ≡ Some frame → ⊥ }
        ensures frame { (o : RenderObjectOf) → object_at self.old.tree h ≡ Some o → SetsFrame self.old.tree self.new.tree h o frame }
        ensures absent { object_at self.old.tree h ≡ None → self.new ≡ self.old }
        ensures scale { self.new.scale ≡ self.old.scale }
        ensures spent { self.new.spent ≡ self.old.spent }
    {
        write_frame(&mut self.tree, h, frame);
        self.mark_paint(h);
    }

    /// Sets the bounds and the size of a box's last layout. Where they were others before, or there were none, the node is marked
    /// for painting. A sliver stays as it is.
    pub fn set_laid(&mut self, h: Handle, b: Bounds, s: Size)
        ensures boxed { (o : RenderObjectOf) → object_at self.old.tree h ≡ Some o → is_sliver (object_look o) ≡ false
            → SetsFrame self.old.tree self.new.tree h o (Boxed b s) }
        ensures sliver { (o : RenderObjectOf) → object_at self.old.tree h ≡ Some o → is_sliver (object_look o) ≡ true → self.new ≡ self.old }
        ensures absent { object_at self.old.tree h ≡ None → self.new ≡ self.old }
        ensures scale { self.new.scale ≡ self.old.scale }
        ensures spent { self.new.spent ≡ self.old.spent }
    {
        let Some(object) = self.tree.value(h) else {
            return;
        };
        if is_sliver(&object.widget.kind) {
            return;
        }
        if is_boxed(object.frame, b, s) {
            return;
        }
        self.put_frame(h, Frame::Boxed { bounds: b, size: s });
    }

    /// Sets the bounds and the geometry of a sliver's last layout. Where they were others before, or there were none, the node is
    /// marked for painting. A box stays as it is.
    pub fn set_sliver(&mut self, h: Handle, b: SliverBounds, g: Geometry)
        ensures sliver { (o : RenderObjectOf) → object_at self.old.tree h ≡ Some o → is_sliver (object_look o) ≡ true
            → SetsFrame self.old.tree self.new.tree h o (Sliver b g) }
        ensures boxed { (o : RenderObjectOf) → object_at self.old.tree h ≡ Some o → is_sliver (object_look o) ≡ false → self.new ≡ self.old }
        ensures absent { object_at self.old.tree h ≡ None → self.new ≡ self.old }
        ensures scale { self.new.scale ≡ self.old.scale }
        ensures spent { self.new.spent ≡ self.old.spent }
    {
        let Some(object) = self.tree.value(h) else {
            return;
        };
        if !is_sliver(&object.widget.kind) {
            return;
        }
        if is_slid(object.frame, b, g) {
            return;
        }
        self.put_frame(
            h,
            Frame::Sliver {
                bounds: b,
                geometry: g,
            },
        );
    }
}
