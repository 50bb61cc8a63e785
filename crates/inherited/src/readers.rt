// Which components read an inherited name (`InheritedElement.notifyClients`).
ghost use Rattle.std.specs.Prelude.{◌≡◌, ◌&&◌, ◌==◌};
ghost use Rattle.std.specs.List.{list_any};
ghost use Rattle.fx_handles.specs.declared.Handle.{Handle};
ghost use Rattle.fx_handles.specs.Handle.{same};
ghost use Rattle.node_tree.specs.Tree.{IsNode, subtree_at};
ghost use Rattle.widget_model.specs.View.{look_in};
ghost use Rattle.inherited.specs.Readers.{reads, provides, is_reader, is_reader_below, Flags};

use element_tree::{Element, ElementTree};
use fx_handles::Handle;
use node_tree::Tree;
use widget_model::Kind;

// Whether a name is one of those that are listed.
fn lists(names: &[u32], name: u32) -> bool
    ensures { result ≡ list_any (λ n. n == name) names.now }
{
    for listed in names {
        if *listed == name {
            return true;
        }
    }
    false
}

// Whether an inherited name stands in the body of a component.
fn reads(kind: &Kind, name: u32) -> bool
    ensures { result ≡ reads name (look_in kind.now) }
{
    match kind {
        Kind::Use { decl, .. } => lists(decl.inherited.get(), name),
        _ => false,
    }
}

// Whether a kind provides an inherited name.
fn provides(kind: &Kind, name: u32) -> bool
    ensures { result ≡ provides name (look_in kind.now) }
{
    match kind {
        Kind::Inherit { name: other, .. } => *other == name,
        _ => false,
    }
}

// Sets an element's build flag, where `on` is true.
fn mark_if(t: &mut ElementTree, h: Handle, on: bool)
    ensures flags { Flags t.old.tree t.new.tree (λ k. same h k && on) }
    ensures spent { t.new.spent ≡ t.old.spent }
{
    if !on {
        return;
    }
    t.mark_dirty(h);
}

// Sets the build flags of the readers of a name at and below a live element, as far as no provider of the name hides them.
#[cycle(marking)]
fn mark_at(t: &mut ElementTree, h: Handle, name: u32)
    requires { IsNode t.old.tree h }
    ensures flags { Flags t.old.tree t.new.tree (λ k. is_reader name k (subtree_at t.old.tree h)) }
    ensures spent { t.new.spent ≡ t.old.spent }
{
    Tree::<Element>::walk_laws();
    // Tells the proof that this is a tree.
    let _ = t.root();
    let Some(widget) = t.widget(h) else {
        unreachable!()
    };
    let hides = provides(&widget.kind, name);
    let reads = reads(&widget.kind, name);
    mark_if(t, h, reads);
    if hides {
        return;
    }
    mark_readers(t, h, name);
}

/// Sets the build flags of the components below an element that read an inherited name, but for those that stand below a nearer
/// provider of the name, and changes nothing else. Where the handle isn't live nothing changes. It takes no memory, and looks at
/// each element below once.
#[cycle(marking)]
pub fn mark_readers(t: &mut ElementTree, under: Handle, name: u32)
    ensures flags { Flags t.old.tree t.new.tree (is_reader_below t.old.tree under name) }
    ensures spent { t.new.spent ≡ t.old.spent }
{
    Tree::<Element>::walk_laws();
    // Tells the proof that this is a tree.
    let _ = t.root();
    for i in 0..t.children(under).len() {
        let child = t.children(under)[i];
        mark_at(t, child, name);
    }
}
