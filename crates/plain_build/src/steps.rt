// What happens where a widget is entered, step by step.
ghost use Rattle.std.specs.Prelude.{◌≡◌, ◌<◌, ◌++◌, ◌∷◌, [], map, IfOk, OnOk, IfErr, IfSome};
ghost use Rattle.reconcile.specs.Keys.{NoKeyRepeats};
ghost use Rattle.widget_model.specs.Plain.{key_of};
ghost use Rattle.widget_model.specs.View.{shared};
ghost use Rattle.build_form.specs.Step.{stops, gives};
ghost use Rattle.build_form.specs.Entering.{met_once, number_for, counted, apart, put_off};
ghost use Rattle.build_form.specs.FullBuild.{next_waiting, one_served};
ghost use Rattle.build_form.specs.FaultView.{fault_of};
ghost use Rattle.build_form.specs.Lent.{lent};
ghost use Rattle.plain_build.specs.WalkView.{progress_of};

use crate::walk::BuildWalk;
use build_form::FrameFault;
use fx_expr::Value;
use plain_tree::Node;
use std::alloc::{AllocError, Global};
use std::rc::Rc;
use widget_keys::{Key, first_repeat};
use widget_model::Widget;

/// A global key is met once in a build.
pub(crate) fn meet(key: &Key<Value>, walk: &mut BuildWalk<'_>) -> Result<(), FrameFault>
    ensures ok { OnOk result (met_once key.now (progress_of walk.old) ≡ gives tt (progress_of walk.new)) }
    ensures fault { IfErr result (λ f. IfSome (fault_of f) (λ g. met_once key.now (progress_of walk.old) ≡ stops g)) }
    ensures waiting { walk.new.waiting ≡ walk.old.waiting }
{
    match key {
        Key::None | Key::Local(_) => Ok(()),
        Key::Global(global) => {
            if walk.met.contains(global) {
                return Err(FrameFault::RepeatedGlobalKey(global.clone()?));
            }
            walk.met.insert(global.clone()?)?;
            Ok(())
        }
    }
}

/// One more widget is entered, whose node gets the answered number: that of the node that it goes on from, or the next one.
pub(crate) fn count(walk: &mut BuildWalk<'_>, partner: Option<&Node>) -> u64
    requires { walk.old.entered < 1048576 }
    ensures number { result ≡ number_for (lent partner.entry) (progress_of walk.old) }
    ensures counted { progress_of walk.new ≡ counted (lent partner.entry) (progress_of walk.old) }
    ensures waiting { walk.new.waiting ≡ walk.old.waiting }
{
    walk.entered += 1;
    match partner {
        Some(node) => node.number,
        None => {
            let number = walk.next;
            walk.next += 1;
            number
        }
    }
}

/// A lazy list waits for its items.
pub(crate) fn wait<'a>(
    alloc: Global,
    walk: &mut BuildWalk<'a>,
    partner: Option<&'a Node>,
) -> Result<Vec<Node>, AllocError>
    ensures put_off { IfOk result (λ ns. put_off (lent partner.entry) (progress_of walk.old) ≡ gives ns.items (progress_of walk.new)) }
    ensures waiting { OnOk result (map lent walk.new.waiting.items ≡ map lent walk.old.waiting.items ++ lent partner.entry ∷ []) }
{
    walk.waiting.push_back(partner)?;
    Ok(Vec::new(alloc))
}

/// What the next lazy list goes on from, which waits no longer.
pub(crate) fn next_waiting<'a>(walk: &mut BuildWalk<'a>) -> Option<&'a Node>
    ensures partner { lent result ≡ next_waiting (map lent walk.old.waiting.items) }
    ensures served { progress_of walk.new ≡ one_served (progress_of walk.old) }
{
    walk.waiting.pop_front()?
}

/// The keys of siblings differ.
pub(crate) fn keep_apart(
    alloc: Global,
    widgets: &[Rc<Widget>],
    walk: &BuildWalk<'_>,
) -> Result<(), FrameFault>
    ensures ok { OnOk result (apart (map shared widgets.now) (progress_of walk.now) ≡ gives (map shared widgets.now) (progress_of walk.now)) }
    ensures fault { IfErr result (λ f. IfSome (fault_of f) (λ g. apart (map shared widgets.now) (progress_of walk.now) ≡ stops g)) }
    ensures keys { OnOk result (NoKeyRepeats (map shared widgets.now)) }
{
    let keys = keys_of(alloc, widgets)?;
    match first_repeat(alloc, keys.as_slice())? {
        None => Ok(()),
        Some(i) => Err(FrameFault::RepeatedSiblingKey(keys[i].clone()?)),
    }
}

/// The keys of widgets, in their order.
pub fn keys_of(alloc: Global, widgets: &[Rc<Widget>]) -> Result<Vec<Key<Value>>, AllocError>
    ensures { IfOk result (λ ks. ks.items ≡ map key_of (map shared widgets.now)) }
{
    let mut keys = Vec::with_capacity(alloc, widgets.len())?;
    for widget in widgets {
        keys.push(widget.key.clone()?)?;
    }
    Ok(keys)
}
