// What is kept from one frame to the next.
ghost use Rattle.std.specs.Prelude.{◌≡◌, None, false, List, []};
ghost use Rattle.delegates.specs.Table.{Plug};
ghost use Rattle.fx_handles.specs.declared.Handle.{Handle as HandleOf};
ghost use Rattle.program_check.specs.Checked.{PlainChecked};
ghost use Rattle.render_tree.specs.Tree.{object_at};
ghost use Rattle.screen_owner.specs.Screen.{shown_in, layer_in};
ghost use Rattle.frame_owner.specs.Frame.{next_in};
ghost use Rattle.frame_owner.specs.Rooms.{HasRoomAfter};
ghost use Rattle.frame_owner.specs.Standing.{FrameStandsFor};

use build_owner::new_trees_stand;
use element_tree::ElementTree;
use fx_geom::{Scale, Size};
use fx_handles::Handle;
use global_keys::Registry;
use paint_owner::PaintOwner;
use render_tree::RenderTree;
use std::alloc::Global;
use std::marker::Model;
use std::rc::Rc;
use widget_model::Widget;

/// Elements, the registry of global keys, render nodes with their layouts, and the layers of the last frame. After want of memory, and
/// after a fault of a build, it is spent: it makes no frame any more.
#[derive(Drop)]
pub struct FrameOwner {
    pub(crate) elements: ElementTree,
    pub(crate) keys: Registry,
    pub(crate) nodes: RenderTree,
    pub(crate) layers: PaintOwner,
    // The root for which the tree is settled: its build would build nothing, but for the component that is marked.
    pub(crate) settled: Option<Rc<Widget>>,
    // Whether no widget of that tree has a global key.
    pub(crate) keyless: bool,
    // The element of the one component that was marked since.
    pub(crate) marked: Option<Handle>,
    // The view in which what is shown is what stands: a frame in it that builds nothing shows it again.
    pub(crate) still: Option<Size>,
    pub(crate) spent: bool,
    pub(crate) alloc: Global,
}

impl Model for FrameOwner {
    ghost use Rattle.std.specs.Prelude.{option_map};
    ghost use Rattle.widget_model.specs.View.{shared};
    ghost use Rattle.frame_owner.specs.Frame.{KeptFrame, kept_frame_code};

    ghost Value = { KeptFrame };

    ghost coded = { kept_frame_code };

    ghost view = { λ x. record {
      elements = x.elements.tree;
      keys = x.keys;
      screen = record { nodes = x.nodes.tree; scale = x.nodes.scale; layers = x.layers; spent = x.spent };
      settled = option_map shared x.settled;
      keyless = x.keyless;
      marked = x.marked;
      still = x.still;
    } };
}

impl FrameOwner {
    /// Before the first frame, over this allocator, where lengths have this scale.
    pub fn new(alloc: Global, scale: Scale) -> FrameOwner
        ensures stands { (c : PlainChecked) (delegates : List Plug) → FrameStandsFor c delegates [] None result }
        ensures next { next_in result ≡ 1 }
        ensures shown { shown_in result.screen ≡ None }
        ensures layer { layer_in result.screen ≡ None }
        // No handle reaches a render node.
        ensures nodes { (k : HandleOf) → object_at result.screen.nodes k ≡ None }
        ensures scale { result.screen.scale ≡ scale }
        ensures spent { result.screen.spent ≡ false }
        ensures room { HasRoomAfter 0 result }
    {
        new_trees_stand();
        FrameOwner {
            elements: ElementTree::new(alloc),
            keys: Registry::new(alloc),
            nodes: RenderTree::new(alloc, scale),
            layers: PaintOwner::new(alloc),
            settled: None,
            keyless: false,
            marked: None,
            still: None,
            spent: false,
            alloc,
        }
    }
}
