// The build of a tree, both phases of it.
ghost use Rattle.std.specs.Prelude.{◌≡◌, ◌∷◌, [], ◌+◌, ◌<◌, ◌^◌, Err, IfOk, IfErr, IfSome};
ghost use Rattle.delegates.specs.Meaning.{Meaning};
ghost use Rattle.widget_model.specs.Size.{count_of};
ghost use Rattle.widget_model.specs.Sized.{IsSized};
ghost use Rattle.widget_model.specs.Typed.{IsTypedWidget};
ghost use Rattle.widget_model.specs.View.{shared};
ghost use Rattle.program_check.specs.CheckedView.{plain_checked};
ghost use Rattle.program_check.specs.WellChecked.{scale_of};
ghost use Rattle.template_build.specs.HandlersIn.{HandlersMeet, SetsNothing};
ghost use Rattle.template_build.specs.Program.{declarations_of};
ghost use Rattle.build_form.specs.Entering.{output_limit};
ghost use Rattle.build_form.specs.FullBuild.{failed, built, full_build};
ghost use Rattle.build_form.specs.FaultView.{fault_of};
ghost use Rattle.build_form.specs.Lent.{lent};
ghost use Rattle.build_form.specs.Program.{blueprint_of};
ghost use Rattle.build_form.specs.ScreenView.{screen_on};
ghost use Rattle.build_form.specs.WellBuilt.{IsWellBuilt};
ghost use Rattle.build_form.specs.Owned.{AreOwned};
ghost use Rattle.delegates.specs.Table.{meant_in};

use crate::basis::{Basis, DEPTH_LIMIT, Phase};
use crate::entering::enter;
use crate::holders::holders_in;
use crate::partners::root_arrival;
use crate::program::default_values;
use crate::second::second_phase;
use crate::walk::BuildWalk;
use build_form::FrameFault;
use delegates::{Delegate, DelegateTable};
use fx_geom::Size;
use fx_outside::Steps;
use plain_tree::Node;
use program_check::Checked;
use std::alloc::Global;
use std::collections::{BTreeSet, VecDeque};
use std::rc::Rc;
use std::sync::ledger::Ledger;
use widget_model::Widget;

// How many widgets a template may give.
const OUTPUT_LIMIT: u32 = 65_536;

/// What a build gives: the new tree, and the next free number.
#[derive(Drop)]
pub struct Built {
    pub root: Node,
    pub next: u64,
}

/// Builds the tree of a root widget, after the tree of the last frame or none, where the next new node gets the number
/// `next`. Beside what components give, and the layout by which the items of lazy lists are found, it takes n log n steps
/// for n widgets.
///
/// The old tree is one that a build gave over the same program. The first fault of the build is answered, and want of
/// memory.
pub fn build<L: Ledger>(
    alloc: Global,
    checked: &Checked,
    old: Option<&Node>,
    next: u64,
    root: &Rc<Widget>,
    view: Size,
    delegates: &DelegateTable,
    builds: &mut Steps<L>,
) -> Result<Built, FrameFault>
    requires old { IfSome (lent old) (IsWellBuilt (declarations_of (plain_checked checked.now))) }
    requires root { IsTypedWidget (declarations_of (plain_checked checked.now)) (shared root.now) }
    requires size { IsSized root.now.value }
    requires room { next + 1048576 < 2 ^ 64 }
    ensures ok { IfOk result (λ b. full_build (blueprint_of (plain_checked checked.now)) (screen_on (scale_of (plain_checked checked.now).version) (meant_in delegates.now ⟦<dyn Delegate as Delegate>⟧) view) (lent old.entry) next (shared root.now) ≡ built b.root b.next) }
    ensures fault { IfErr result (λ f. IfSome (fault_of f) (λ g. full_build (blueprint_of (plain_checked checked.now)) (screen_on (scale_of (plain_checked checked.now).version) (meant_in delegates.now ⟦<dyn Delegate as Delegate>⟧) view) (lent old.entry) next (shared root.now) ≡ failed g)) }
    // A root that is too large is told before anything takes memory.
    ensures too_large { output_limit < count_of (shared root.now) → result ≡ Err FrameFault.OutputTooLarge }
    ensures built { IfOk result (λ b. IsWellBuilt (declarations_of (plain_checked checked.now)) b.root) }
    ensures owned { HandlersMeet SetsNothing (shared root.now) → IfOk result (λ b. AreOwned ((0, []) ∷ []) b.root) }
{
    if root.size > OUTPUT_LIMIT {
        return Err(FrameFault::OutputTooLarge);
    }
    let from = Basis {
        alloc,
        checked,
        holders: holders_in(alloc, old)?,
    };
    let mut values = default_values(alloc, checked)?;
    let arrival = root_arrival(old, root)?;
    let mut walk = BuildWalk {
        entered: 0,
        met: BTreeSet::new(alloc),
        next,
        waiting: VecDeque::new(alloc),
    };
    let mut tree = enter(
        &from,
        Phase::First,
        DEPTH_LIMIT,
        values.as_mut_slice(),
        &arrival,
        &mut walk,
        builds,
    )?;
    second_phase(
        &from,
        delegates,
        view,
        values.as_mut_slice(),
        &mut tree,
        &mut walk,
        builds,
    )?;
    Ok(Built {
        root: tree,
        next: walk.next,
    })
}
