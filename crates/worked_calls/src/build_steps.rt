// Builds over elements and render nodes, one after another, as a table has them, and the plain build of each beside it: both come to one
// tree, with one next number, or to one fault, and no more components are built than was worked out by hand.
ghost use Rattle.std.specs.Prelude.{◌≡◌, ◌+◌, ◌<◌, ◌≤◌, ◌^◌, ◌∷◌, [], true, IfOk, OnOk, map};
ghost use Rattle.fx_expr.specs.Value.{type_of};
ghost use Rattle.fx_expr.specs.declared.values.Ty.TheVariants as ty;
ghost use Rattle.fx_expr.specs.declared.values.Value.TheVariants as value;
ghost use Rattle.fx_handles.specs.Arena.{used_count, retired_count};
ghost use Rattle.widget_model.specs.Sized.{IsSized};
ghost use Rattle.widget_model.specs.Typed.{IsTypedWidget};
ghost use Rattle.widget_model.specs.View.{shared};
ghost use Rattle.program_check.specs.CheckedView.{plain_checked};
ghost use Rattle.template_build.specs.Program.{declarations_of};
ghost use Rattle.build_form.specs.FullBuild.{Screen, full_build, built as is_built};
ghost use Rattle.build_form.specs.Program.{blueprint_of};
ghost use Rattle.build_owner.specs.Ready.{HasRoom};
ghost use Rattle.worked_calls.specs.BothBuilds.{AreOfOneTree};

use crate::build_lines::{Line, line_of, numbers_of};
use crate::built_trees::{Outputs, Seen, check_elements, check_renders, outputs_of, told_fault};
use crate::compare::expect_at;
use build_form::FrameFault;
use build_owner::{flush, flush_items, new_trees_stand};
use delegates::DelegateTable;
use element_tree::ElementTree;
use fx_expr::{Value, ValueList};
use fx_handles::SLOTS_MAX;
use fx_outside::Steps;
use global_keys::Registry;
use kept_builds::lines_leave_standing_trees;
use plain_build::{Built, build};
use plain_tree::Node;
use program_check::{Checked, check, check_widget};
use program_read::{read_program, read_widget};
use render_tree::RenderTree;
use std::alloc::{AllocError, Global};
use std::process::Abort;
use std::rc::Rc;
use std::sync::ledger::Ledger;
use std::test::Fail;
use template_build::build_root;
use widget_model::Widget;

// ---- what a build is of

pub(crate) fn read(alloc: Global, text: &str) -> Result<Checked, Fail> {
    let program = read_program(alloc, text.as_bytes())?;
    Ok(check(alloc, program)?)
}

pub(crate) fn first_root(alloc: Global, checked: &Checked) -> Result<Rc<Widget>, Fail>
    ensures typed { IfOk result (λ w. IsTypedWidget (declarations_of (plain_checked checked.now)) (shared w)) }
    ensures sized { IfOk result (λ w. IsSized w.value) }
{
    let parts = checked.parts();
    Ok(build_root(alloc, checked, &parts.root)?)
}

pub(crate) fn other_root(alloc: Global, checked: &Checked, text: &str) -> Result<Rc<Widget>, Fail>
    ensures typed { IfOk result (λ w. IsTypedWidget (declarations_of (plain_checked checked.now)) (shared w)) }
    ensures sized { IfOk result (λ w. IsSized w.value) }
{
    let template = read_widget(alloc, text.as_bytes(), checked.version())?;
    let body = check_widget(alloc, checked, template)?;
    Ok(build_root(alloc, checked, &body)?)
}

// ---- what a build asks for

// Whether so many slots, some of them retired, leave room for so many more.
fn leave_room(used: usize, retired: usize, more: u32) -> bool
    ensures { result ≡ true → used + retired + more ≤ SLOTS_MAX }
{
    used.saturating_add(retired).saturating_add(more as usize) <= SLOTS_MAX
}

fn elements_have_room(t: &ElementTree, more: u32) -> bool
    ensures { result ≡ true → used_count t.now.tree.nodes + retired_count t.now.tree.nodes + more ≤ SLOTS_MAX }
{
    leave_room(t.tree().len(), t.tree().retired(), more)
}

fn renders_have_room(r: &RenderTree, more: u32) -> bool
    ensures { result ≡ true → used_count r.now.tree.nodes + retired_count r.now.tree.nodes + more ≤ SLOTS_MAX }
{
    leave_room(r.tree().len(), r.tree().retired(), more)
}

// Whether these are the values of one field, a number.
pub(crate) fn is_one_number(fields: &[Value]) -> bool
    ensures { result ≡ true → map type_of fields.now ≡ ty.Int ∷ [] }
{
    match fields {
        [Value::Int(_)] => true,
        _ => false,
    }
}

// A list of one number.
pub(crate) fn one_number(alloc: Global, n: i64) -> Result<Vec<Value>, AllocError>
    ensures { IfOk result (λ vs. vs.items ≡ value.Int n ∷ []) }
{
    let mut values = Vec::new(alloc);
    values.push(Value::Int(n))?;
    Ok(values)
}

pub(crate) fn check_told(rt: &impl Abort, given: String, told: &str, row: usize) {
    expect_at(rt, given.as_str(), told, &row);
}

// ---- both builds

// What the last builds left, and the root of the next ones.
#[derive(Drop)]
struct Both {
    root: Rc<Widget>,
    plain: Option<Node>,
    next: u64,
    t: ElementTree,
    r: RenderTree,
    g: Registry,
}

impl Both {
    fn new(alloc: Global, checked: &Checked) -> Result<Both, Fail>
        ensures { IfOk result (λ b. AreOfOneTree (plain_checked checked.now) b.root b.plain b.next b.t.tree b.r.tree b.g) }
    {
        new_trees_stand();
        let root = first_root(alloc, checked)?;
        let r = RenderTree::new(alloc, checked.scale());
        Ok(Both {
            root,
            plain: None,
            next: 1,
            t: ElementTree::new(alloc),
            r,
            g: Registry::new(alloc),
        })
    }

    fn restart(&mut self, alloc: Global, checked: &Checked) -> Result<(), Fail>
        ensures { OnOk result (AreOfOneTree (plain_checked checked.now) self.new.root self.new.plain self.new.next self.new.t.tree self.new.r.tree self.new.g) }
    {
        let both = Both::new(alloc, checked)?;
        *self = both;
        Ok(())
    }

    fn set(&mut self, alloc: Global, checked: &Checked, number: u64, value: i64) -> Result<(), Fail>
        requires { AreOfOneTree (plain_checked checked.now) self.old.root self.old.plain self.old.next self.old.t.tree self.old.r.tree self.old.g }
        ensures { OnOk result (AreOfOneTree (plain_checked checked.now) self.new.root self.new.plain self.new.next self.new.t.tree self.new.r.tree self.new.g) }
    {
        lines_leave_standing_trees();
        self.t.number_laws();
        let Some(h) = self.t.find(number) else {
            return Err("no element has the number".into());
        };
        if !is_one_number(self.t.fields(h)) {
            return Err("it has other fields than a number".into());
        }
        let fields = one_number(alloc, value)?;
        let values = ValueList::of(one_number(alloc, value)?);
        if !self.t.set_fields(h, fields) {
            return Err("the element doesn't take the field".into());
        }
        let Some(plain) = &mut self.plain else {
            return Err("there is no tree".into());
        };
        if plain.set_fields(number, values).is_some() {
            return Err("no node has the number".into());
        }
        Ok(())
    }

    fn mark(&mut self, checked: &Checked, number: u64) -> Result<(), Fail>
        requires { AreOfOneTree (plain_checked checked.now) self.old.root self.old.plain self.old.next self.old.t.tree self.old.r.tree self.old.g }
        ensures { OnOk result (AreOfOneTree (plain_checked checked.now) self.new.root self.new.plain self.new.next self.new.t.tree self.new.r.tree self.new.g) }
    {
        lines_leave_standing_trees();
        self.t.number_laws();
        let Some(h) = self.t.find(number) else {
            return Err("no element has the number".into());
        };
        self.t.mark_dirty(h);
        Ok(())
    }

    fn set_root(&mut self, alloc: Global, checked: &Checked, text: &str) -> Result<(), Fail>
        requires { AreOfOneTree (plain_checked checked.now) self.old.root self.old.plain self.old.next self.old.t.tree self.old.r.tree self.old.g }
        ensures { OnOk result (AreOfOneTree (plain_checked checked.now) self.new.root self.new.plain self.new.next self.new.t.tree self.new.r.tree self.new.g) }
    {
        let root = other_root(alloc, checked, text)?;
        self.root = root;
        Ok(())
    }

    fn has_room(&self, checked: &Checked) -> bool
        ensures { result ≡ true → HasRoom (blueprint_of (plain_checked checked.now)).nodes 0 self.now.t.tree self.now.r.tree }
    {
        let nodes = checked.scale().nodes;
        elements_have_room(&self.t, nodes) && renders_have_room(&self.r, nodes)
    }

    // What the plain build gives.
    fn build_plain<L: Ledger>(
        &self,
        rt: &impl Abort,
        alloc: Global,
        checked: &Checked,
        table: &DelegateTable,
        steps: &mut Steps<L>,
    ) -> Result<Built, FrameFault>
        requires { AreOfOneTree (plain_checked checked.now) self.now.root self.now.plain self.now.next self.now.t.tree self.now.r.tree self.now.g }
        ensures { IfOk result (λ b. (screen : Screen) × (full_build (blueprint_of (plain_checked checked.now)) screen self.now.plain self.now.next (shared self.now.root) ≡ is_built b.root b.next)) }
    {
        assert!(rt; self.next < 1 << 40);
        let view = checked.parts().view;
        let plain = self.plain.as_ref();
        let built = build(
            alloc, checked, plain, self.next, &self.root, view, table, steps,
        )?;
        Ok(built)
    }

    // It is built over elements too.
    fn follow<L: Ledger>(
        &mut self,
        rt: &impl Abort,
        alloc: Global,
        checked: &Checked,
        built: Built,
        steps: &mut Steps<L>,
    ) -> Result<(), Fail>
        requires both { AreOfOneTree (plain_checked checked.now) self.old.root self.old.plain self.old.next self.old.t.tree self.old.r.tree self.old.g }
        requires built { (screen : Screen) × (full_build (blueprint_of (plain_checked checked.now)) screen self.old.plain self.old.next (shared self.old.root) ≡ is_built built.root built.next) }
        ensures { OnOk result (AreOfOneTree (plain_checked checked.now) self.new.root self.new.plain self.new.next self.new.t.tree self.new.r.tree self.new.g) }
    {
        assert!(rt; self.has_room(checked));
        let lazy = flush(
            alloc,
            checked,
            &self.root,
            &mut self.t,
            &mut self.r,
            &mut self.g,
            steps,
        )?;
        if lazy.waits() {
            return Err("a list waits".into());
        }
        flush_items(
            alloc,
            checked,
            lazy,
            &mut self.t,
            &mut self.r,
            &mut self.g,
            steps,
        )?;
        self.plain = Some(built.root);
        self.next = built.next;
        Ok(())
    }

    // What both have is one tree, for which so many outputs were made.
    fn compare(
        &self,
        rt: &impl Abort,
        alloc: Global,
        old: &Outputs,
        want: (u64, u64, &str),
        row: usize,
    ) -> Result<(), Fail> {
        let Some(plain) = &self.plain else {
            return Err("there is no tree".into());
        };
        let Some(root) = self.t.root() else {
            return Err("there is no element".into());
        };
        let mut seen = Seen {
            numbers: numbers_of(want.2),
            count: 0,
            built: 0,
        };
        check_elements(rt, &self.t, root, plain, old.as_slice(), &mut seen, row);
        expect_at(rt, (self.next, seen.built), (want.0, want.1), &row);
        expect_at(rt, self.t.tree().len(), seen.count, &row);
        check_renders(rt, alloc, &self.r, plain, row)
    }

    // The outputs of the components.
    fn outputs(&self, alloc: Global) -> Result<Outputs, Fail> {
        match &self.plain {
            Some(plain) => outputs_of(alloc, &self.t, plain.preorder(alloc)?.as_slice()),
            None => Ok(Vec::new(alloc)),
        }
    }

    // Builds once more.
    fn step<L: Ledger>(
        &mut self,
        rt: &impl Abort,
        alloc: Global,
        checked: &Checked,
        table: &DelegateTable,
        steps: &mut Steps<L>,
        want: (u64, u64, &str),
        row: usize,
    ) -> Result<(), Fail>
        requires { AreOfOneTree (plain_checked checked.now) self.old.root self.old.plain self.old.next self.old.t.tree self.old.r.tree self.old.g }
        ensures { OnOk result (AreOfOneTree (plain_checked checked.now) self.new.root self.new.plain self.new.next self.new.t.tree self.new.r.tree self.new.g) }
    {
        let old = self.outputs(alloc)?;
        let built = self.build_plain(rt, alloc, checked, table, steps)?;
        self.follow(rt, alloc, checked, built, steps)?;
        self.compare(rt, alloc, &old, want, row)?;
        Ok(())
    }

    // The fault of the plain build.
    fn plain_fault<L: Ledger>(
        &self,
        rt: &impl Abort,
        alloc: Global,
        checked: &Checked,
        table: &DelegateTable,
        steps: &mut Steps<L>,
    ) -> Result<String, Fail>
        requires { AreOfOneTree (plain_checked checked.now) self.now.root self.now.plain self.now.next self.now.t.tree self.now.r.tree self.now.g }
    {
        match self.build_plain(rt, alloc, checked, table, steps) {
            Ok(_) => Err("there is no fault".into()),
            Err(fault) => Ok(told_fault(alloc, &fault)?),
        }
    }

    // The fault of the build over elements.
    fn fault<L: Ledger>(
        &mut self,
        rt: &impl Abort,
        alloc: Global,
        checked: &Checked,
        steps: &mut Steps<L>,
    ) -> Result<String, Fail>
        requires { AreOfOneTree (plain_checked checked.now) self.old.root self.old.plain self.old.next self.old.t.tree self.old.r.tree self.old.g }
    {
        assert!(rt; self.has_room(checked));
        match flush(
            alloc,
            checked,
            &self.root,
            &mut self.t,
            &mut self.r,
            &mut self.g,
            steps,
        ) {
            Ok(_) => Err("there is no fault".into()),
            Err(fault) => Ok(told_fault(alloc, &fault)?),
        }
    }

    // The plain build has this fault, and so has the one over elements. Then all begins anew.
    fn fail<L: Ledger>(
        &mut self,
        rt: &impl Abort,
        alloc: Global,
        checked: &Checked,
        table: &DelegateTable,
        steps: &mut Steps<L>,
        told: &str,
        row: usize,
    ) -> Result<(), Fail>
        requires { AreOfOneTree (plain_checked checked.now) self.old.root self.old.plain self.old.next self.old.t.tree self.old.r.tree self.old.g }
        ensures { OnOk result (AreOfOneTree (plain_checked checked.now) self.new.root self.new.plain self.new.next self.new.t.tree self.new.r.tree self.new.g) }
    {
        check_told(
            rt,
            self.plain_fault(rt, alloc, checked, table, steps)?,
            told,
            row,
        );
        check_told(rt, self.fault(rt, alloc, checked, steps)?, told, row);
        self.restart(alloc, checked)
    }

    fn take<L: Ledger>(
        &mut self,
        rt: &impl Abort,
        alloc: Global,
        checked: &Checked,
        table: &DelegateTable,
        steps: &mut Steps<L>,
        line: Line<'_>,
        row: usize,
    ) -> Result<(), Fail>
        requires { AreOfOneTree (plain_checked checked.now) self.old.root self.old.plain self.old.next self.old.t.tree self.old.r.tree self.old.g }
        ensures { OnOk result (AreOfOneTree (plain_checked checked.now) self.new.root self.new.plain self.new.next self.new.t.tree self.new.r.tree self.new.g) }
    {
        match line {
            Line::Name => self.restart(alloc, checked),
            Line::Root(text) => self.set_root(alloc, checked, text),
            Line::Set(number, value) => self.set(alloc, checked, number, value),
            Line::Mark(number) => self.mark(checked, number),
            Line::Built(next, built, numbers) => {
                let want = (next, built, numbers);
                self.step(rt, alloc, checked, table, steps, want, row)
            }
            Line::Fault(told) => self.fail(rt, alloc, checked, table, steps, told, row),
            Line::High(_) | Line::Unknown => Err("an unknown line".into()),
        }
    }

    fn take_all<L: Ledger>(
        &mut self,
        rt: &impl Abort,
        alloc: Global,
        checked: &Checked,
        table: &DelegateTable,
        steps: &mut Steps<L>,
        lines: &str,
    ) -> Result<(), Fail>
        requires { AreOfOneTree (plain_checked checked.now) self.old.root self.old.plain self.old.next self.old.t.tree self.old.r.tree self.old.g }
    {
        let mut row = 0usize;
        for line in lines.lines() {
            row = row.wrapping_add(1);
            self.take(rt, alloc, checked, table, steps, line_of(line), row)?;
        }
        Ok(())
    }
}

fn run_over<L: Ledger>(
    rt: &impl Abort,
    alloc: Global,
    checked: &Checked,
    lines: &str,
    table: &DelegateTable,
    steps: &mut Steps<L>,
) -> Result<(), Fail> {
    let mut both = Both::new(alloc, checked)?;
    both.take_all(rt, alloc, checked, table, steps, lines)
}

// Makes the builds that the lines of a table tell, of a program's components. Where one fails, the row is its line's number.
pub(crate) fn run<L: Ledger>(
    rt: &impl Abort,
    alloc: Global,
    program: &str,
    lines: &str,
    table: &DelegateTable,
    steps: &mut Steps<L>,
) -> Result<(), Fail> {
    let checked = read(alloc, program)?;
    run_over(rt, alloc, &checked, lines, table, steps)
}
