// Flags and marks that are taken away.
ghost use Rattle.std.specs.Prelude.{◌≡◌, false, true};
ghost use Rattle.node_tree.specs.Forest.{below};
ghost use Rattle.node_tree.specs.Tree.{Holds, subtree_at};
ghost use Rattle.node_tree.specs.Children.{MapsValues};
ghost use Rattle.node_tree.specs.Edits.{KeepsHandles};
ghost use Rattle.tree_marks.specs.Closed.{any_flag};
ghost use Rattle.render_tree.specs.Marks.{paint_marks};
ghost use Rattle.kept_layers.specs.Steps.{is_listed, calm_listed};
ghost use Rattle.paint_owner.specs.Finding.{unmarked_listed};

use fx_handles::Handle;
use render_tree::RenderTree;

// Takes the flags away of these nodes.
pub(crate) fn clear_flags(tree: &mut RenderTree, hs: &[Handle])
    ensures values { MapsValues (calm_listed hs.now) tree.old.tree tree.new.tree }
    ensures root { tree.new.tree.root ≡ tree.old.tree.root }
    ensures inactive { tree.new.tree.inactive ≡ tree.old.tree.inactive }
    ensures handles { KeepsHandles tree.old.tree.nodes tree.new.tree.nodes }
    ensures scale { tree.new.scale ≡ tree.old.scale }
    ensures spent { tree.new.spent ≡ tree.old.spent }
{
    for h in hs {
        tree.clear_paint(*h);
    }
}

// Takes the marks away of these nodes.
pub(crate) fn clear_marks(tree: &mut RenderTree, hs: &[Handle])
    requires holds { (k : Handle) → is_listed k hs.now ≡ true → Holds tree.old.tree k }
    requires calm { (k : Handle) → is_listed k hs.now ≡ true → any_flag paint_marks (below (subtree_at tree.old.tree k)) ≡ false }
    ensures values { MapsValues (unmarked_listed hs.now) tree.old.tree tree.new.tree }
    ensures root { tree.new.tree.root ≡ tree.old.tree.root }
    ensures inactive { tree.new.tree.inactive ≡ tree.old.tree.inactive }
    ensures handles { KeepsHandles tree.old.tree.nodes tree.new.tree.nodes }
    ensures scale { tree.new.scale ≡ tree.old.scale }
    ensures spent { tree.new.spent ≡ tree.old.spent }
{
    for h in hs {
        tree.clear_paint_below(*h);
    }
}
