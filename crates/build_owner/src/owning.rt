// The element of a widget: the old one from which it goes on, or a new one (`Element.inflateWidget`).
ghost use Rattle.std.specs.Prelude.{◌≡◌, ◌+◌, ◌∷◌, ◌<◌, ◌≤◌, None, List, map, option_copied, IfOk, OnOk, IfErr, IfSome};
ghost use Rattle.fx_expr.specs.Value.{type_of};
ghost use Rattle.fx_handles.specs.declared.TheConstants.{SLOTS_MAX};
ghost use Rattle.fx_handles.specs.Arena.{used_count, retired_count};
ghost use Rattle.node_tree.specs.Children.{Keeps};
ghost use Rattle.node_tree.specs.Edits.{Adds};
ghost use Rattle.node_tree.specs.Tree.{Tree as TreeOf, IsNode};
ghost use Rattle.widget_model.specs.Plain.{look_of, key_of};
ghost use Rattle.widget_model.specs.Typed.{IsTypedWidget};
ghost use Rattle.widget_model.specs.View.{shared};
ghost use Rattle.build_form.specs.BuildRole.{build_role_of};
ghost use Rattle.build_form.specs.Entering.{met_once, first_fields};
ghost use Rattle.build_form.specs.FaultView.{fault_of};
ghost use Rattle.build_form.specs.Step.{Progress, stops};
ghost use Rattle.build_form.specs.WellBuilt.{FitFields};
ghost use Rattle.element_tree.specs.Edits.{new_element};
ghost use Rattle.element_tree.specs.Element.{made_count};
ghost use Rattle.global_keys.specs.Holders.{is_met};
ghost use Rattle.global_keys.specs.Named.{global_in};
ghost use Rattle.render_tree.specs.Object.{RenderObject as ObjectOf};
ghost use Rattle.build_owner.specs.Climbing.{AreAllFitting, IsStillThere};
ghost use Rattle.build_owner.specs.LastFrame.{LastFrame, IsOld, IsSince};
ghost use Rattle.build_owner.specs.Making.{MakesElement};
ghost use Rattle.build_owner.specs.Naming.{AreHeld};
ghost use Rattle.build_owner.specs.NamesView.{was_around};
ghost use Rattle.build_owner.specs.Owned.{IsElementOf, OwnsElement};
ghost use Rattle.build_owner.specs.Ready.{IsMatched, AreReady};
ghost use Rattle.build_owner.specs.WalkView.{basis_of, declared_by, program_of, plain_arrival};

use crate::arriving::Arrival;
use crate::climbing::provide_above;
use crate::names::NameValues;
use crate::program::first_fields;
use crate::source::WalkSource;
use build_form::FrameFault;
use build_walk::{kept_elements_are_known, kept_elements_stay};
use element_tree::{Element, ElementTree, TreeFault};
use fx_expr::Value;
use fx_handles::Handle;
use global_keys::{Claim, Registry};
use node_tree::Tree;
use plain_build::default_values;
use std::alloc::AllocError;
use std::mem::replace;
use std::rc::Rc;
use widget_keys::Key;
use widget_model::Widget;

/// The element of a widget, the old element that it goes on from, which it is then, and the values that the inherited names had around it
/// in the last frame where it was taken from elsewhere.
#[derive(Drop)]
pub(crate) struct Owned {
    pub(crate) at: Handle,
    pub(crate) partner: Option<Handle>,
    pub(crate) around: Option<Vec<Value>>,
}

// A new element for a widget.
fn make(
    from: &WalkSource<'_>,
    widget: &Rc<Widget>,
    t: &mut ElementTree,
) -> Result<Handle, AllocError>
    requires typed { IsTypedWidget (declared_by from.now) (shared widget.now) }
    requires room { used_count t.old.tree.nodes + retired_count t.old.tree.nodes < SLOTS_MAX }
    ensures made { IfOk result (λ h. Adds t.old.tree.nodes t.new.tree.nodes None 0 h
        (new_element (made_count t.old.tree + 1) (shared widget.now) (first_fields (program_of from.now) (build_role_of (look_of (shared widget.now)))))) }
    ensures fit { OnOk result (FitFields (declared_by from.now) (build_role_of (look_of (shared widget.now))) (first_fields (program_of from.now) (build_role_of (look_of (shared widget.now))))) }
{
    let fields = first_fields(from.alloc, from.checked, widget)?;
    match t.insert_loose(Rc::clone(widget)?, fields) {
        Ok(h) => Ok(h),
        Err(TreeFault::Full) => unreachable!(),
        Err(TreeFault::OutOfMemory) => Err(AllocError),
    }
}

// The names get the values that they had in the last frame around an old element; those that they have are answered.
fn climb(
    from: &WalkSource<'_>,
    names: &mut NameValues,
    t: &ElementTree,
    h: Handle,
) -> Result<Vec<Value>, AllocError>
    requires live { IsNode t.now.tree h }
    requires fits { AreAllFitting (declared_by from.now).inherited t.now.tree }
    ensures around { IfOk result (λ vs. vs.items ≡ names.old.was.items) }
    ensures now { OnOk result (names.new.now.items ≡ names.old.now.items) }
    ensures typed { OnOk result (map type_of names.new.was.items ≡ (declared_by from.now).inherited) }
    ensures old { OnOk result ((f : LastFrame) → IsStillThere (program_of from.now).defaults f t.now.tree → IsNode f.elements h → IsOld f names.new.was.items h) }
{
    let mut was = default_values(from.alloc, from.checked)?;
    provide_above(t, h, was.as_mut_slice())?;
    Ok(replace(&mut names.was, was))
}

// The value of a key that is global.
fn global_key(key: &Key<Value>) -> Option<&Value>
    ensures { option_copied result ≡ global_in key.now }
{
    match key {
        Key::Global(value) => Some(value),
        Key::None | Key::Local(_) => None,
    }
}

/// The element of a widget, whose global key, if it has one, wasn't met before: the old element that has the key, wherever it stood, or
/// the one to which the widget is matched, where there is one of its type; else a new one. Where it was taken from elsewhere, the names
/// get the values that they had there.
pub(crate) fn own(
    from: &WalkSource<'_>,
    names: &mut NameValues,
    arrival: &Arrival,
    t: &mut ElementTree,
    g: &mut Registry,
) -> Result<Owned, FrameFault>
    requires ready { AreReady (declared_by from.now) t.old.tree g.old }
    requires was { map type_of names.old.was.items ≡ (declared_by from.now).inherited }
    requires widget { IsTypedWidget (declared_by from.now) (shared arrival.now.widget) }
    requires beside { IfSome arrival.now.beside (IsMatched (declared_by from.now) t.old.tree (shared arrival.now.widget)) }
    requires room { used_count t.old.tree.nodes + retired_count t.old.tree.nodes < SLOTS_MAX }
    ensures owned { IfOk result (λ o. (f : LastFrame) (r : TreeOf ObjectOf) (s : Progress) → IsSince (program_of from.now).defaults f t.old.tree r g.old → IfSome arrival.now.beside (IsOld f names.old.was.items)
        → s.met ≡ (λ k. is_met g.old k) → s.next ≡ made_count t.old.tree + 1
        → OwnsElement f (basis_of from.now f) names.new.was.items (plain_arrival f arrival.now) s t.new.tree g.new o) }
    ensures fault { IfErr result (λ e. IfSome (fault_of e) (λ x. (s : Progress) → s.met ≡ (λ k. is_met g.old k) → met_once (key_of (shared arrival.now.widget)) s ≡ stops x)) }
    ensures element { IfOk result (λ o. IsElementOf (declared_by from.now) t.new.tree (shared arrival.now.widget) o) }
    ensures made { IfOk result (λ o. MakesElement (made_count t.old.tree) t.new.tree o.at o.partner) }
    ensures since { OnOk result ((f : LastFrame) (r : TreeOf ObjectOf) → IsSince (program_of from.now).defaults f t.old.tree r g.old → IsSince (program_of from.now).defaults f t.new.tree r g.new) }
    ensures held { IfOk result (λ o. (hs : List Handle) → AreHeld g.old t.old.tree hs → AreHeld g.new t.new.tree (o.at ∷ hs)) }
    ensures keeps { OnOk result (Keeps t.old.tree t.new.tree) }
    ensures ready { OnOk result (AreReady (declared_by from.now) t.new.tree g.new) }
    ensures room { OnOk result (used_count t.new.tree.nodes + retired_count t.new.tree.nodes ≤ used_count t.old.tree.nodes + retired_count t.old.tree.nodes + 1) }
    ensures now { OnOk result (names.new.now.items ≡ names.old.now.items) }
    ensures around { IfOk result (λ o. was_around o.around names.new.was.items ≡ names.old.was.items) }
    ensures was { OnOk result (map type_of names.new.was.items ≡ (declared_by from.now).inherited) }
{
    Tree::<Element>::edit_laws();
    Tree::<Element>::keep_laws();
    Tree::<Element>::walk_laws();
    kept_elements_are_known();
    kept_elements_stay();
    // Tells the proof that this is a tree.
    let _ = t.root();
    let Some(key) = global_key(&arrival.widget.key) else {
        if let Some(h) = arrival.beside {
            return Ok(Owned {
                at: h,
                partner: Some(h),
                around: None,
            });
        }
        let at = make(from, &arrival.widget, t)?;
        return Ok(Owned {
            at,
            partner: None,
            around: None,
        });
    };
    match g.claim(t, key, &arrival.widget) {
        Claim::Repeated => Err(FrameFault::RepeatedGlobalKey(key.clone()?)),
        Claim::Taken(h) => {
            let around = climb(from, names, t, h)?;
            Ok(Owned {
                at: h,
                partner: Some(h),
                around: Some(around),
            })
        }
        Claim::Fresh => {
            let at = make(from, &arrival.widget, t)?;
            g.note(key.clone()?, at)?;
            Ok(Owned {
                at,
                partner: None,
                around: None,
            })
        }
    }
}
