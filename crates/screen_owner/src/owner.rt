// What a screen keeps from one frame to the next.
ghost use Rattle.std.specs.Prelude.{◌≡◌, None, false, List};
ghost use Rattle.std.specs.BTreeMap.{get};
ghost use Rattle.std.specs.Ordering.{nat_cmp};
ghost use Rattle.fx_handles.specs.declared.Handle.{Handle};
ghost use Rattle.fx_handles.specs.Arena.{used_count, retired_count, inserted_count};
ghost use Rattle.delegates.specs.Table.{Plug};
ghost use Rattle.plain_tree.specs.Render.{no_renders};
ghost use Rattle.render_tree.specs.Plain.{renders_of, root_tree};
ghost use Rattle.render_tree.specs.Tree.{object_at};
ghost use Rattle.screen_owner.specs.Screen.{shown_in, layer_in, IsRight};

use fx_geom::Scale;
use fx_handles::Handle;
use paint_owner::PaintOwner;
use render_tree::RenderTree;
use std::alloc::Global;
use std::collections::BTreeMap;
use std::marker::Model;

/// Render nodes with their layouts, and the layers of the last frame. After want of memory it is spent: it shows nothing any more.
#[derive(Drop)]
pub struct ScreenOwner {
    pub(crate) tree: RenderTree,
    // The nodes by their numbers.
    pub(crate) numbers: BTreeMap<u64, Handle>,
    pub(crate) layers: PaintOwner,
    pub(crate) spent: bool,
    pub(crate) alloc: Global,
}

// The handle of the node with a number.
pub(crate) fn find(numbers: &BTreeMap<u64, Handle>, number: u64) -> Option<Handle>
    ensures { result ≡ get nat_cmp numbers.now number }
{
    numbers.get(&number).copied()
}

impl Model for ScreenOwner {
    ghost use Rattle.screen_owner.specs.Screen.{KeptScreen, kept_screen_code};

    ghost Value = { KeptScreen };

    ghost coded = { kept_screen_code };

    ghost view = { λ x. record { nodes = x.tree.tree; scale = x.tree.scale; layers = x.layers; spent = x.spent } };

    ghost use Rattle.screen_owner.specs.Standing.{StandsUnless};

    ghost invariant = { λ x. StandsUnless x.spent x.numbers x.tree.tree };
}

impl ScreenOwner {
    /// A screen before its first frame, over this allocator, whose lengths have this scale.
    pub fn new(alloc: Global, scale: Scale) -> ScreenOwner
        ensures right { (delegates : List Plug) → IsRight delegates result }
        ensures shown { shown_in result ≡ None }
        ensures layer { layer_in result ≡ None }
        ensures nodes { (k : Handle) → object_at result.nodes k ≡ None }
        ensures renders { renders_of (root_tree result.nodes) ≡ no_renders }
        ensures used { used_count result.nodes.nodes ≡ 0 }
        ensures retired { retired_count result.nodes.nodes ≡ 0 }
        ensures made { inserted_count result.nodes.nodes ≡ 0 }
        ensures scale { result.scale ≡ scale }
        ensures spent { result.spent ≡ false }
    {
        ScreenOwner {
            tree: RenderTree::new(alloc, scale),
            numbers: BTreeMap::new(alloc),
            layers: PaintOwner::new(alloc),
            spent: false,
            alloc,
        }
    }
}
