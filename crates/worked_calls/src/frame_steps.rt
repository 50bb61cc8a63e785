// Frames one after another, as a table has them, and the plain build of each beside it: both come to one tree, with the same numbers, or
// to one fault, and no more components are built than was worked out by hand.
ghost use Rattle.std.specs.Prelude.{◌≡◌, ◌+◌, ◌<◌, ◌^◌, List, IfOk, IfSome, OnOk};
ghost use Rattle.delegates.specs.Table.{Plug, meant_in};
ghost use Rattle.program_check.specs.CheckedView.{plain_checked};
ghost use Rattle.template_build.specs.Program.{declarations_of};
ghost use Rattle.build_form.specs.WellBuilt.{IsWellBuilt};
ghost use Rattle.worked_calls.specs.Framing.{CanGoOn};

use crate::build_lines::{Line, line_of, next_number, numbers_of};
use crate::build_steps::{check_told, first_root, is_one_number, one_number, other_root, read};
use crate::built_trees::{Outputs, check_renders, is_among, told_fault};
use crate::compare::expect_at;
use build_form::{BuildRole, FrameFault, build_role_of};
use delegates::{Delegate, DelegateTable};
use frame_owner::FrameOwner;
use fx_expr::ValueList;
use fx_geom::Size;
use fx_outside::Steps;
use plain_build::{Built, build};
use plain_tree::Node;
use program_check::Checked;
use std::alloc::Global;
use std::process::Abort;
use std::rc::Rc;
use std::sync::ledger::Ledger;
use std::test::Fail;
use widget_model::{Widget, same};

// ---- what is compared

// The widgets of nodes, each with its number.
fn widgets_of(alloc: Global, owner: &FrameOwner, nodes: &[&Node]) -> Result<Outputs, Fail> {
    let mut widgets = Vec::new(alloc);
    for node in nodes {
        if let Some(widget) = owner.widget(node.number) {
            widgets.push((node.number, Rc::clone(widget)?))?;
        }
    }
    Ok(widgets)
}

fn is_component(widget: &Widget) -> bool {
    match build_role_of(&widget.kind) {
        BuildRole::Composes { .. } => true,
        _ => false,
    }
}

// Whether a component was built: what is below it has another widget than before.
fn was_built(owner: &FrameOwner, node: &Node, old: &[(u64, Rc<Widget>)]) -> bool {
    if !is_component(&node.widget) {
        return false;
    }
    for child in &node.children {
        if let Some(widget) = owner.widget(child.number) {
            return !is_among(old, child.number, widget);
        }
    }
    false
}

// Whether the owner has this node.
fn is_kept(owner: &FrameOwner, node: &Node) -> bool {
    match owner.widget(node.number) {
        Some(widget) => {
            same(widget, &node.widget) && owner.fields(node.number) == node.fields.get()
        }
        None => false,
    }
}

// The owner has these nodes, with these numbers; how many components were built.
fn check_nodes(
    rt: &impl Abort,
    owner: &FrameOwner,
    nodes: &[&Node],
    old: &[(u64, Rc<Widget>)],
    numbers: &str,
    row: usize,
) -> u64 {
    let mut numbers = numbers_of(numbers);
    let mut built = 0u64;
    for node in nodes {
        let want = (next_number(&mut numbers), true);
        expect_at(rt, (node.number, is_kept(owner, node)), want, &row);
        if was_built(owner, node, old) {
            built = built.wrapping_add(1);
        }
    }
    built
}

// How many of the numbers below this one are numbers of nodes.
fn count_kept(owner: &FrameOwner, next: u64) -> usize {
    let mut count = 0usize;
    for number in 0..next {
        if owner.widget(number).is_some() {
            count = count.wrapping_add(1);
        }
    }
    count
}

// ---- frames

// The counters of steps. No one reads them.
#[derive(Drop)]
pub(crate) struct Counters<B: Ledger, L: Ledger, P: Ledger> {
    pub(crate) builds: Steps<B>,
    pub(crate) layouts: Steps<L>,
    pub(crate) paints: Steps<P>,
}

// The one field of a node, a number, is given a value.
fn set_plain(
    alloc: Global,
    checked: &Checked,
    plain: &mut Node,
    number: u64,
    value: i64,
) -> Result<(), Fail>
    requires { IsWellBuilt (declarations_of (plain_checked checked.now)) plain.old }
    ensures { OnOk result (IsWellBuilt (declarations_of (plain_checked checked.now)) plain.new) }
{
    let Some(node) = plain.find(number) else {
        return Err("no node has the number".into());
    };
    if !is_one_number(node.fields.get()) {
        return Err("it has other fields than a number".into());
    }
    let fields = one_number(alloc, value)?;
    let values = ValueList::of(fields);
    if plain.set_fields(number, values).is_some() {
        return Err("no node has the number".into());
    }
    Ok(())
}

// How many frames were made, with one more.
fn count_frame(rt: &impl Abort, made: u64) -> u64
    ensures few { made < 2 ^ 32 }
    ensures next { result ≡ made + 1 }
{
    assert!(rt; made < 1 << 32);
    made + 1
}

// What the last frames left, and the root and the view of the next ones.
#[derive(Drop)]
struct Frames {
    root: Rc<Widget>,
    view: Size,
    plain: Option<Node>,
    next: u64,
    made: u64,
    owner: FrameOwner,
}

impl Frames {
    fn new(alloc: Global, checked: &Checked) -> Result<Frames, Fail>
        ensures { IfOk result (λ s. (delegates : List Plug) → CanGoOn (plain_checked checked.now) delegates s.root s.plain s.made s.owner) }
    {
        let root = first_root(alloc, checked)?;
        Ok(Frames {
            root,
            view: checked.parts().view,
            plain: None,
            next: 1,
            made: 0,
            owner: FrameOwner::new(alloc, checked.scale()),
        })
    }

    fn restart(&mut self, alloc: Global, checked: &Checked) -> Result<(), Fail>
        ensures { OnOk result ((delegates : List Plug) → CanGoOn (plain_checked checked.now) delegates self.new.root self.new.plain self.new.made self.new.owner) }
    {
        let frames = Frames::new(alloc, checked)?;
        *self = frames;
        Ok(())
    }

    fn set(&mut self, alloc: Global, checked: &Checked, number: u64, value: i64) -> Result<(), Fail>
        requires { IfSome self.old.plain (IsWellBuilt (declarations_of (plain_checked checked.now))) }
        ensures { OnOk result ((delegates : List Plug) → CanGoOn (plain_checked checked.now) delegates self.old.root self.old.plain self.old.made self.old.owner
            → CanGoOn (plain_checked checked.now) delegates self.new.root self.new.plain self.new.made self.new.owner) }
    {
        if !is_one_number(self.owner.fields(number)) {
            return Err("no element has the number and one field, a number".into());
        }
        let fields = one_number(alloc, value)?;
        let Some(plain) = &mut self.plain else {
            return Err("there is no tree".into());
        };
        set_plain(alloc, checked, plain, number, value)?;
        self.owner.set_fields(number, fields);
        Ok(())
    }

    fn set_root(&mut self, alloc: Global, checked: &Checked, text: &str) -> Result<(), Fail>
        ensures { OnOk result ((delegates : List Plug) → CanGoOn (plain_checked checked.now) delegates self.old.root self.old.plain self.old.made self.old.owner
            → CanGoOn (plain_checked checked.now) delegates self.new.root self.new.plain self.new.made self.new.owner) }
    {
        let root = other_root(alloc, checked, text)?;
        self.root = root;
        Ok(())
    }

    // The build of the root after the plain tree.
    fn build<B: Ledger, L: Ledger, P: Ledger>(
        &self,
        rt: &impl Abort,
        alloc: Global,
        checked: &Checked,
        table: &DelegateTable,
        counters: &mut Counters<B, L, P>,
    ) -> Result<Built, FrameFault>
        requires { CanGoOn (plain_checked checked.now) (meant_in table.now ⟦<dyn Delegate as Delegate>⟧) self.now.root self.now.plain self.now.made self.now.owner }
        ensures { IfOk result (λ b. IsWellBuilt (declarations_of (plain_checked checked.now)) b.root) }
    {
        assert!(rt; self.next < 1 << 40);
        let built = build(
            alloc,
            checked,
            self.plain.as_ref(),
            self.next,
            &self.root,
            self.view,
            table,
            &mut counters.builds,
        )?;
        Ok(built)
    }

    // A frame of the root.
    fn frame<B: Ledger, L: Ledger, P: Ledger>(
        &mut self,
        rt: &impl Abort,
        checked: &Checked,
        table: &DelegateTable,
        counters: &mut Counters<B, L, P>,
    ) -> Result<(), FrameFault>
        requires { CanGoOn (plain_checked checked.now) (meant_in table.now ⟦<dyn Delegate as Delegate>⟧) self.old.root self.old.plain self.old.made self.old.owner }
        ensures { OnOk result (CanGoOn (plain_checked checked.now) (meant_in table.now ⟦<dyn Delegate as Delegate>⟧) self.new.root self.new.plain self.new.made self.new.owner) }
    {
        let made = count_frame(rt, self.made);
        self.owner.frame(
            checked,
            &self.root,
            false,
            self.view,
            table,
            &mut counters.builds,
            &mut counters.layouts,
            &mut counters.paints,
        )?;
        self.made = made;
        Ok(())
    }

    // What both have is one tree, for which so many components were built.
    fn compare(
        &self,
        rt: &impl Abort,
        alloc: Global,
        old: &Outputs,
        want: (u64, u64, &str),
        row: usize,
    ) -> Result<(), Fail> {
        let Some(plain) = &self.plain else {
            return Err("there is no tree".into());
        };
        let nodes = plain.preorder(alloc)?;
        let built = check_nodes(
            rt,
            &self.owner,
            nodes.as_slice(),
            old.as_slice(),
            want.2,
            row,
        );
        expect_at(rt, (self.next, built), (want.0, want.1), &row);
        expect_at(rt, count_kept(&self.owner, self.next), nodes.len(), &row);
        check_renders(rt, alloc, self.owner.render(), plain, row)
    }

    // The widgets of the last frame.
    fn widgets(&self, alloc: Global) -> Result<Outputs, Fail> {
        match &self.plain {
            Some(plain) => widgets_of(alloc, &self.owner, plain.preorder(alloc)?.as_slice()),
            None => Ok(Vec::new(alloc)),
        }
    }

    // Makes one more frame.
    fn step<B: Ledger, L: Ledger, P: Ledger>(
        &mut self,
        rt: &impl Abort,
        alloc: Global,
        checked: &Checked,
        table: &DelegateTable,
        counters: &mut Counters<B, L, P>,
        want: (u64, u64, &str),
        row: usize,
    ) -> Result<(), Fail>
        requires { CanGoOn (plain_checked checked.now) (meant_in table.now ⟦<dyn Delegate as Delegate>⟧) self.old.root self.old.plain self.old.made self.old.owner }
        ensures { OnOk result (CanGoOn (plain_checked checked.now) (meant_in table.now ⟦<dyn Delegate as Delegate>⟧) self.new.root self.new.plain self.new.made self.new.owner) }
    {
        let old = self.widgets(alloc)?;
        let built = self.build(rt, alloc, checked, table, counters)?;
        self.frame(rt, checked, table, counters)?;
        self.plain = Some(built.root);
        self.next = built.next;
        self.compare(rt, alloc, &old, want, row)?;
        Ok(())
    }

    // The fault of the plain build.
    fn plain_fault<B: Ledger, L: Ledger, P: Ledger>(
        &self,
        rt: &impl Abort,
        alloc: Global,
        checked: &Checked,
        table: &DelegateTable,
        counters: &mut Counters<B, L, P>,
    ) -> Result<String, Fail>
        requires { CanGoOn (plain_checked checked.now) (meant_in table.now ⟦<dyn Delegate as Delegate>⟧) self.now.root self.now.plain self.now.made self.now.owner }
    {
        match self.build(rt, alloc, checked, table, counters) {
            Ok(_) => Err("there is no fault".into()),
            Err(fault) => Ok(told_fault(alloc, &fault)?),
        }
    }

    // The fault of the frame.
    fn fault<B: Ledger, L: Ledger, P: Ledger>(
        &mut self,
        rt: &impl Abort,
        alloc: Global,
        checked: &Checked,
        table: &DelegateTable,
        counters: &mut Counters<B, L, P>,
    ) -> Result<String, Fail>
        requires { CanGoOn (plain_checked checked.now) (meant_in table.now ⟦<dyn Delegate as Delegate>⟧) self.old.root self.old.plain self.old.made self.old.owner }
    {
        match self.frame(rt, checked, table, counters) {
            Ok(()) => Err("there is no fault".into()),
            Err(fault) => Ok(told_fault(alloc, &fault)?),
        }
    }

    // The plain build has this fault, and so has the frame. Then all begins anew.
    fn fail<B: Ledger, L: Ledger, P: Ledger>(
        &mut self,
        rt: &impl Abort,
        alloc: Global,
        checked: &Checked,
        table: &DelegateTable,
        counters: &mut Counters<B, L, P>,
        told: &str,
        row: usize,
    ) -> Result<(), Fail>
        requires { CanGoOn (plain_checked checked.now) (meant_in table.now ⟦<dyn Delegate as Delegate>⟧) self.old.root self.old.plain self.old.made self.old.owner }
        ensures { OnOk result (CanGoOn (plain_checked checked.now) (meant_in table.now ⟦<dyn Delegate as Delegate>⟧) self.new.root self.new.plain self.new.made self.new.owner) }
    {
        let plain = self.plain_fault(rt, alloc, checked, table, counters)?;
        check_told(rt, plain, told, row);
        let fault = self.fault(rt, alloc, checked, table, counters)?;
        check_told(rt, fault, told, row);
        self.restart(alloc, checked)
    }

    fn take<B: Ledger, L: Ledger, P: Ledger>(
        &mut self,
        rt: &impl Abort,
        alloc: Global,
        checked: &Checked,
        table: &DelegateTable,
        counters: &mut Counters<B, L, P>,
        line: Line<'_>,
        row: usize,
    ) -> Result<(), Fail>
        requires { CanGoOn (plain_checked checked.now) (meant_in table.now ⟦<dyn Delegate as Delegate>⟧) self.old.root self.old.plain self.old.made self.old.owner }
        ensures { OnOk result (CanGoOn (plain_checked checked.now) (meant_in table.now ⟦<dyn Delegate as Delegate>⟧) self.new.root self.new.plain self.new.made self.new.owner) }
    {
        match line {
            Line::Name => self.restart(alloc, checked),
            Line::Root(text) => self.set_root(alloc, checked, text),
            Line::Set(number, value) => self.set(alloc, checked, number, value),
            Line::High(height) => {
                self.view.h = height;
                Ok(())
            }
            Line::Built(next, built, numbers) => {
                let want = (next, built, numbers);
                self.step(rt, alloc, checked, table, counters, want, row)
            }
            Line::Fault(told) => self.fail(rt, alloc, checked, table, counters, told, row),
            Line::Mark(_) | Line::Unknown => Err("an unknown line".into()),
        }
    }

    fn take_all<B: Ledger, L: Ledger, P: Ledger>(
        &mut self,
        rt: &impl Abort,
        alloc: Global,
        checked: &Checked,
        table: &DelegateTable,
        counters: &mut Counters<B, L, P>,
        lines: &str,
    ) -> Result<(), Fail>
        requires { CanGoOn (plain_checked checked.now) (meant_in table.now ⟦<dyn Delegate as Delegate>⟧) self.old.root self.old.plain self.old.made self.old.owner }
    {
        let mut row = 0usize;
        for line in lines.lines() {
            row = row.wrapping_add(1);
            self.take(rt, alloc, checked, table, counters, line_of(line), row)?;
        }
        Ok(())
    }
}

fn run_over<B: Ledger, L: Ledger, P: Ledger>(
    rt: &impl Abort,
    alloc: Global,
    checked: &Checked,
    lines: &str,
    table: &DelegateTable,
    counters: &mut Counters<B, L, P>,
) -> Result<(), Fail> {
    let mut frames = Frames::new(alloc, checked)?;
    frames.take_all(rt, alloc, checked, table, counters, lines)
}

// Makes the frames that the lines of a table tell, of a program's components. Where one fails, the row is its line's number.
pub(crate) fn run<B: Ledger, L: Ledger, P: Ledger>(
    rt: &impl Abort,
    alloc: Global,
    program: &str,
    lines: &str,
    table: &DelegateTable,
    counters: &mut Counters<B, L, P>,
) -> Result<(), Fail> {
    let checked = read(alloc, program)?;
    run_over(rt, alloc, &checked, lines, table, counters)
}
