// Which components keep what their body gave (`Element.updateChild`, `ComponentElement.performRebuild`).
ghost use Rattle.std.specs.Prelude.{◌≡◌, ◌≤◌, Some, None, IfOk, IfSome, option_map, option_copied, length, map};
ghost use Rattle.std.specs.Option.{option_to_list};
ghost use Rattle.node_tree.specs.Children.{Keeps};
ghost use Rattle.node_tree.specs.Tree.{IsNode};
ghost use Rattle.widget_model.specs.Plain.{PlainWidget, widgets_of};
ghost use Rattle.widget_model.specs.Typed.{Declarations, AreTypedWidgets};
ghost use Rattle.widget_model.specs.View.{shared, plain_of, look_in};
ghost use Rattle.element_tree.specs.Element.{element_at};
ghost use Rattle.work_sets.specs.Due.{names_read};
ghost use Rattle.work_sets.specs.Members.{is_same_widget};
ghost use Rattle.build_walk.specs.Keeping.{reads_alike, is_unchanged, kept_output};
ghost use Rattle.build_walk.specs.Kept.{plain_at_any};
ghost use Rattle.build_walk.specs.Telling.{element_past};
ghost use Rattle.build_owner.specs.Given.{given_to};
ghost use Rattle.build_owner.specs.LastFrame.{LastFrame, IsOld};
ghost use Rattle.build_owner.specs.Ready.{AreTypedOutputs};

use crate::giving::GivenWidgets;
use build_walk::kept_elements_are_known;
use element_tree::{Element, ElementTree};
use fx_expr::Value;
use fx_handles::Handle;
use node_tree::Tree;
use std::alloc::{AllocError, Global};
use std::rc::Rc;
use widget_model::{Kind, Widget, same};
use work_sets::same_means_equal;

// The inherited names that a component reads; no other kind reads any.
fn names_read(kind: &Kind) -> Option<&[u32]>
    ensures { option_copied result ≡ names_read (look_in kind.now) }
{
    match kind {
        Kind::Use { decl, .. } => Some(decl.inherited.get()),
        _ => None,
    }
}

// Whether names have the values that they had.
fn reads_alike(names: &[u32], was: &[Value], now: &[Value]) -> bool
    requires { length was.now ≡ length now.now }
    ensures { result ≡ reads_alike names.now was.now now.now }
{
    for name in names {
        let place = *name as usize;
        if place < was.len() && was[place] != now[place] {
            return false;
        }
    }
    true
}

/// Whether two widgets are the same.
pub fn is_same(a: &Widget, b: &Widget) -> bool
    ensures { result ≡ is_same_widget (plain_of a.now) (plain_of b.now) }
{
    same_means_equal();
    same(a, b)
}

// Whether an old component isn't to be built anew, has this widget, and reads what it read.
fn is_unchanged(
    t: &ElementTree,
    h: Handle,
    widget: &Widget,
    names: &[u32],
    was: &[Value],
    now: &[Value],
) -> bool
    requires { length was.now ≡ length now.now }
    ensures { (e : _) → element_at t.now.tree h ≡ Some e → result ≡ is_unchanged names.now (element_past was.now e) (plain_of widget.now) now.now }
{
    if t.is_dirty(h) {
        return false;
    }
    if !reads_alike(names, was, now) {
        return false;
    }
    let Some(old) = t.widget(h) else {
        return false;
    };
    if !is_same(old, widget) {
        return false;
    }
    true
}

// What an element stores as the output of a component.
fn stored_output(alloc: Global, t: &ElementTree, h: Handle) -> Result<GivenWidgets, AllocError>
    ensures stored { IfOk result (λ o. (w : PlainWidget) (e : _) → element_at t.now.tree h ≡ Some e → given_to w o ≡ option_to_list e.output) }
    ensures few { IfOk result (λ o. (w : PlainWidget) → length (given_to w o) ≤ 1) }
{
    let Some(output) = t.output(h) else {
        return Ok(GivenWidgets::Others(Vec::new(alloc)));
    };
    Ok(GivenWidgets::One(Rc::clone(output)?))
}

/// What a component keeps of what its body gave, where it goes on from an old element and the inherited names had and have these values.
pub(crate) fn kept_output(
    alloc: Global,
    t: &ElementTree,
    partner: Option<Handle>,
    widget: &Widget,
    was: &[Value],
    now: &[Value],
) -> Result<Option<GivenWidgets>, AllocError>
    requires long { length was.now ≡ length now.now }
    requires live { IfSome partner (IsNode t.now.tree) }
    ensures kept { IfOk result (λ o. (f : LastFrame) → Keeps f.elements t.now.tree → IfSome partner (IsOld f was.now)
        → option_map (given_to (plain_of widget.now)) o ≡ kept_output f.pasts (plain_at_any f.scrolled f.elements partner) (plain_of widget.now) now.now) }
    ensures few { IfOk result (λ o. IfSome o (λ ws. length (given_to (plain_of widget.now) ws) ≤ 1)) }
    ensures typed { IfOk result (λ o. IfSome o (λ ws. (d : Declarations) → AreTypedOutputs d t.now.tree → AreTypedWidgets d (widgets_of (given_to (plain_of widget.now) ws)))) }
{
    Tree::<Element>::keep_laws();
    kept_elements_are_known();
    same_means_equal();
    let Some(names) = names_read(&widget.kind) else {
        return Ok(None);
    };
    let Some(h) = partner else {
        return Ok(None);
    };
    if !is_unchanged(t, h, widget, names, was, now) {
        return Ok(None);
    }
    Ok(Some(stored_output(alloc, t, h)?))
}
