// Laws of flags. None of these calls does anything.
ghost use Rattle.std.specs.Prelude.{◌≡◌, ℕ, Bool};
ghost use Rattle.fx_handles.specs.declared.Handle.{Handle};
ghost use Rattle.node_tree.specs.Forest.{Forest};
ghost use Rattle.node_tree.specs.Tree.{Tree, Is, subtree_at};
ghost use Rattle.element_tree.specs.Element.{Element};
ghost use Rattle.element_tree.specs.Nodes.{nodes_of};
ghost use Rattle.inherited.specs.Readers.{flagged, Flags};

/// Where flags alone are set, a tree is its plain forest with these flags, and so is each subtree.
pub fn flags_keep_forests()
    ensures forest { (old new : Tree Element) (p : Handle → Bool) (f : Forest Element) → Flags old new p → Is old f → Is new (flagged p f) }
    ensures subtree { (old new : Tree Element) (p : Handle → Bool) (h : Handle) → Flags old new p
        → subtree_at new h ≡ flagged p (subtree_at old h) }
{}

/// The plain nodes that elements stand for don't depend on flags.
pub fn flags_keep_nodes()
    ensures { (scrolled : ℕ → ℕ) (p : Handle → Bool) (f : Forest Element) → nodes_of scrolled (flagged p f) ≡ nodes_of scrolled f }
{}
