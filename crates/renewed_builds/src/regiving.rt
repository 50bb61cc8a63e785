// An Inherit that takes another value in its place, and the components below it that read its name (`InheritedElement.notifyClients`).
ghost use Rattle.std.specs.Prelude.{◌≡◌, ◌∷◌, [], ◌++◌, if◌then◌else◌, true, is_some, None, Ok, map, IfOk, IfSome, OnOk, OnErr};
ghost use Rattle.fx_handles.specs.declared.Handle.{Handle as AnyHandle};
ghost use Rattle.node_tree.specs.Edits.{KeepsHandles};
ghost use Rattle.node_tree.specs.Tree.{Holds, subtree_at};
ghost use Rattle.widget_model.specs.Update.{CanUpdate};
ghost use Rattle.widget_model.specs.View.{look_in, plain_of, shared};
ghost use Rattle.program_check.specs.CheckedView.{plain_checked};
ghost use Rattle.build_form.specs.BuildRole.{build_role_of};
ghost use Rattle.element_tree.specs.Element.{number_at};
ghost use Rattle.global_keys.specs.Holders.{Registry as RegistryOf};
ghost use Rattle.global_keys.specs.Named.{NamesExactly};
ghost use Rattle.renewed_builds.specs.Several.{KeepsElements, flagged_in};
ghost use Rattle.renewed_builds.specs.Regiving.{IsRegiven, IsToRegive, are_one, name_between, name_given, name_regiven};

use build_owner::is_same;
use build_walk::{
    elements_tell_the_last_frame, outputs_read_their_names, standing_elements_are_known,
};
use element_tree::{Element, ElementTree, edits_keep_numbers};
use fx_expr::same_value;
use fx_handles::Handle;
use global_keys::edits_keep_names;
use inherited::{flags_keep_forests, flags_keep_nodes, mark_readers};
use node_tree::Tree;
use program_check::Checked;
use settled_builds::{first_components_stand, regiven_values_mark_readers};
use std::alloc::{AllocError, Global};
use std::rc::Rc;
use widget_model::{Kind, Widget, can_update};
use work_sets::same_means_equal;

// Whether both lists are one widget, and that is the same.
fn are_one(was: &[Rc<Widget>], now: &[Rc<Widget>]) -> bool
    ensures { result ≡ are_one (map shared was.now) (map shared now.now) }
{
    was.len() == 1 && now.len() == 1 && is_same(&was[0], &now[0])
}

// The name to which the one kind gives a value, where the other one gives it another value.
fn name_between(was: &Kind, now: &Kind) -> Option<u32>
    ensures { result ≡ name_between (build_role_of (look_in was.now)) (build_role_of (look_in now.now)) }
{
    let Kind::Inherit { name, value } = was else {
        return None;
    };
    let Kind::Inherit {
        name: given,
        value: other,
    } = now
    else {
        return None;
    };
    if *given != *name || same_value(value, other) {
        return None;
    }
    Some(*name)
}

// The name of an Inherit that can be updated to another one, which has the same child and gives another value.
fn name_regiven(was: &Widget, now: &Widget) -> Option<u32>
    ensures name { result ≡ name_regiven (plain_of was.now) (plain_of now.now) }
    ensures follows { is_some result ≡ true → CanUpdate (plain_of was.now) (plain_of now.now) }
{
    if !can_update(was, now) || !are_one(was.children.get(), now.children.get()) {
        return None;
    }
    name_between(&was.kind, &now.kind)
}

// Adds an element, if it is asked for.
fn add_if(hs: &mut Vec<Handle>, h: Handle, on: bool) -> Result<(), AllocError>
    ensures { OnOk result (hs.new.items ≡ hs.old.items ++ (if on then h ∷ [] else [])) }
{
    if on {
        hs.push(h)?;
    }
    Ok(())
}

// Adds those elements that are flagged: the one at a handle, and those below it, in preorder.
#[cycle(listing)]
fn add_flagged(t: &ElementTree, h: Handle, flagged: &mut Vec<Handle>) -> Result<(), AllocError>
    requires { Holds t.now.tree h }
    ensures { OnOk result (flagged.new.items ≡ flagged.old.items ++ flagged_in (subtree_at t.now.tree h)) }
{
    Tree::<Element>::child_laws();
    add_if(flagged, h, t.is_dirty(h))?;
    let children = t.children(h);
    for child in children {
        add_flagged(t, *child, flagged)?;
    }
    Ok(())
}

/// An Inherit right below a component, which alone was built of a tree, takes the widget that the component's body gave and that is stored there,
/// if that gives another value to the same name, for the same child. Then the components below it are flagged that read the name from it, and
/// these are their handles, in preorder. Else nothing has changed. No render node changes: an Inherit has none.
///
/// It looks at the elements below the Inherit alone. After want of memory the elements are spent: they serve nothing any more.
pub fn regive(
    alloc: Global,
    checked: &Checked,
    h: Handle,
    t: &mut ElementTree,
) -> Result<Option<Vec<Handle>>, AllocError>
    requires { IsToRegive (plain_checked checked.now) t.old.tree h }
    ensures regiven { IfOk result (λ o. IfSome o (λ hs. (x : IsToRegive (plain_checked checked.now) t.old.tree h)
        → IsRegiven (plain_checked checked.now) t.old.tree t.new.tree h x hs.items)) }
    ensures refused { result ≡ Ok None → (t.new ≡ t.old) × (name_given (subtree_at t.old.tree h) ≡ None) }
    ensures keeps { OnOk result (KeepsElements t.old.tree t.new.tree) }
    ensures names { OnOk result ((g : RegistryOf) → NamesExactly g t.old.tree → NamesExactly g t.new.tree) }
    ensures numbers { OnOk result ((k : AnyHandle) → number_at t.new.tree k ≡ number_at t.old.tree k) }
    ensures handles { OnOk result (KeepsHandles t.old.tree.nodes t.new.tree.nodes) }
    ensures root { OnOk result (t.new.tree.root ≡ t.old.tree.root) }
    ensures spent { OnErr result (t.new.spent ≡ true) }
{
    Tree::<Element>::walk_laws();
    Tree::<Element>::child_laws();
    edits_keep_names();
    edits_keep_numbers();
    flags_keep_forests();
    flags_keep_nodes();
    standing_elements_are_known();
    elements_tell_the_last_frame();
    outputs_read_their_names();
    same_means_equal();
    first_components_stand();
    regiven_values_mark_readers();
    t.number_laws();
    // Tells the proof that the program is typed.
    let _ = checked.parts();
    let children = t.children(h);
    if children.len() != 1 {
        return Ok(None);
    }
    let child = children[0];
    let Some(was) = t.widget(child) else {
        return Ok(None);
    };
    let Some(given) = t.output(h) else {
        return Ok(None);
    };
    let Some(name) = name_regiven(was, given) else {
        return Ok(None);
    };
    let Ok(given) = Rc::clone(given) else {
        t.spend();
        return Err(AllocError);
    };
    t.update(child, given);
    mark_readers(t, child, name);
    let mut readers = Vec::new(alloc);
    let Ok(()) = add_flagged(t, child, &mut readers) else {
        t.spend();
        return Err(AllocError);
    };
    Ok(Some(readers))
}
