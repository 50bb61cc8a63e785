// DeclaredNames, components and the program: what is declared, and then the templates.
ghost use Rattle.std.specs.Prelude.{◌≡◌, ◌≤◌, ◌∷◌, [], ◌++◌, map, length, IfOk, OnOk, Ok, Some, None};
ghost use Rattle.fx_expr.specs.View.{exp_of};
ghost use Rattle.program_form.specs.TemplateView.{plain_template};
ghost use Rattle.program_form.specs.Program.{component_with};
ghost use Rattle.program_form.specs.ProgramView.{plain_parameter, plain_variable, plain_component as component_written, plain_program};
ghost use Rattle.expr_check.specs.Check.{Answers, Gives};
ghost use Rattle.program_check.specs.declared.places.Amount.TheVariants.{One};
ghost use Rattle.program_check.specs.Judged.{child_at, position};
ghost use Rattle.program_check.specs.JudgedView.{judged_of};
ghost use Rattle.expr_check.specs.ScopeView.{plain_names};
ghost use Rattle.program_check.specs.BodyView.{plain_body};
ghost use Rattle.program_check.specs.CheckedView.{signature, plain_place, plain_variables, plain_component, plain_checked};
ghost use Rattle.program_check.specs.ProgramCheck.{new_name, new_slot, declared_props, declared_variables, declared_slots, no_variables, props_alone, nothing_seen, made_at, new_declarations, component_from, checked_component, checked_components, checked_root, checked_program};
ghost use Rattle.program_check.specs.Decl.{decl_with, names_read};
ghost use Rattle.program_check.specs.DeclView.{HasDecl, HaveDecls};
ghost use Rattle.program_check.specs.Refusals.{AnswersPlaced};

use crate::bodies::check_child;
use crate::checked::{Body, Checked, CheckedComponent, CheckedParts, Variables};
use crate::known::sort_in;
use crate::naming::component_decl;
use crate::places::{Amount, Place, Position, component_of, expect};
use crate::refusals::CheckFault;
use crate::slots::SlotNames;
use expr_check::{CheckCode, CheckStop, Declared, LoopVariables, Names, Want, check_as};
use fx_expr::{Txt, Ty};
use program_form::{ChildSort, Component, Parameter, Program, Template, Variable};
use std::alloc::{AllocError, Global};
use std::rc::Rc;
use widget_model::Decl;

// The most components: each has its place in 32 bits.
const MAX_COMPONENTS: usize = 0xffff_ffff;

// Declares a name that isn't declared yet.
fn declare(alloc: Global, declared: &mut Declared, name: &Txt, ty: Ty) -> Result<(), CheckStop>
    ensures answer { Gives result (new_name declared.old name.now) }
    ensures names { OnOk result (declared.new ≡ declared.old ++ (name.now, ty) ∷ []) }
{
    let added = declared.add(alloc, name, ty)?;
    expect(added, CheckCode::RepeatedName)
}

// Props, each a new name.
fn declare_props(alloc: Global, props: &[Parameter]) -> Result<Declared, CheckStop>
    ensures { Gives result (declared_props [] (map plain_parameter props.now)) }
{
    let mut declared = Declared::new(alloc);
    for i in 0..props.len() {
        let prop = &props[i];
        declare(alloc, &mut declared, &prop.name, prop.ty)?;
    }
    Ok(declared)
}

// Fields or inherited names: each a new name, then its value, and then the value's type.
fn declare_variables(
    alloc: Global,
    variables: &[Variable],
    names: &Names<'_>,
) -> Result<Variables, CheckStop>
    ensures { Answers plain_variables result (declared_variables (plain_names names.now) no_variables (map plain_variable variables.now)) }
{
    let mut declared = Declared::new(alloc);
    let mut values = Vec::with_capacity(alloc, variables.len())?;
    for i in 0..variables.len() {
        let variable = &variables[i];
        declare(alloc, &mut declared, &variable.name, variable.ty)?;
        let typed = check_as(alloc, &variable.value, Want::Exactly(variable.ty), names)?;
        values.push(typed.expr)?;
    }
    Ok(Variables {
        names: declared,
        values,
    })
}

// Fields or inherited names whose values see these props.
fn declare_over(
    alloc: Global,
    variables: &[Variable],
    props: &Declared,
) -> Result<Variables, CheckStop>
    ensures { Answers plain_variables result (declared_variables (props_alone props.now) no_variables (map plain_variable variables.now)) }
{
    let none = Declared::new(alloc);
    let vars = LoopVariables::new(alloc);
    let names = Names {
        fields: &none,
        props,
        vars: &vars,
        inherited: &none,
        event: false,
    };
    declare_variables(alloc, variables, &names)
}

// Declares a slot that isn't declared yet.
fn declare_slot(alloc: Global, declared: &mut SlotNames, name: &Txt) -> Result<(), CheckStop>
    ensures answer { Gives result (new_slot declared.old name.now) }
    ensures names { OnOk result (declared.new ≡ declared.old ++ name.now ∷ []) }
{
    let added = declared.add(alloc, name)?;
    expect(added, CheckCode::RepeatedName)
}

// Slots, each a new name.
fn declare_slots(alloc: Global, slots: &[Txt]) -> Result<SlotNames, CheckStop>
    ensures { Gives result (declared_slots [] slots.now) }
{
    let mut declared = SlotNames::new(alloc);
    for i in 0..slots.len() {
        declare_slot(alloc, &mut declared, &slots[i])?;
    }
    Ok(declared)
}

// A component's body, which is one widget, and what the component declares in a program of so many inherited names.
fn check_body(
    alloc: Global,
    name: &Txt,
    body: Template,
    place: &Place<'_>,
    count: usize,
) -> Result<(Body, Rc<Decl>), CheckStop>
    requires { count ≤ 4294967295 }
    ensures answer { Answers (λ m. plain_body m.0) result (child_at (position One ChildSort.Any) (plain_place place.now []) (judged_of body)) }
    ensures decl { IfOk result (λ m. m.1.value ≡ decl_with name.now place.now.fields.now (names_read count (plain_body m.0))) }
{
    let body = check_one(alloc, body, ChildSort::Any, place)?;
    let decl = component_decl(alloc, name, place.fields, &body, count)?;
    Ok((body, decl))
}

// A component with what it declares: its body.
#[tactic(auto, unfolding(crate::specs::Judged::judged))]
fn with_body(
    alloc: Global,
    name: Txt,
    body: Template,
    props: Declared,
    fields: Variables,
    slots: SlotNames,
    inherited: &Declared,
    earlier: &[CheckedComponent],
    later: &[Txt],
) -> Result<CheckedComponent, CheckStop>
    ensures answer { Answers plain_component result
        (component_from inherited.now (map signature earlier.now) later.now (component_with name [] [] [] (plain_template body)) (props, plain_variables fields, slots)) }
    ensures decl { IfOk result (HasDecl (length inherited.now)) }
{
    let sort = sort_in(&body, earlier);
    let place = Place {
        fields: &fields.names,
        props: &props,
        inherited,
        provided: inherited,
        slots: &slots,
        earlier,
        later,
    };
    let (body, decl) = check_body(alloc, &name, body, &place, inherited.len())?;
    Ok(CheckedComponent {
        name,
        props,
        fields,
        slots,
        sort,
        body,
        decl,
    })
}

// A component's name, which is new, and then what it declares: its props, its fields, whose values see the props, and its slots.
fn declare_all(
    alloc: Global,
    component: &Component,
    earlier: &[CheckedComponent],
) -> Result<(Declared, Variables, SlotNames), CheckStop>
    ensures { Answers (λ d. (d.0, plain_variables d.1, d.2)) result (new_declarations (map signature earlier.now) (component_written component.now)) }
{
    expect(
        component_of(earlier, &component.name).is_none(),
        CheckCode::RepeatedName,
    )?;
    let props = declare_props(alloc, component.props.as_slice())?;
    let fields = declare_over(alloc, component.fields.as_slice(), &props)?;
    let slots = declare_slots(alloc, component.slots.as_slice())?;
    Ok((props, fields, slots))
}

// A component after some, and before others, itself the first of them: its name, what it declares, and its body.
fn check_component(
    alloc: Global,
    component: Component,
    inherited: &Declared,
    earlier: &[CheckedComponent],
    later: &[Txt],
) -> Result<CheckedComponent, CheckStop>
    ensures answer { Answers plain_component result
        (checked_component inherited.now (map signature earlier.now) later.now (component_written component)) }
    ensures decl { IfOk result (HasDecl (length inherited.now)) }
{
    let (props, fields, slots) = declare_all(alloc, &component, earlier)?;
    with_body(
        alloc,
        component.name,
        component.body,
        props,
        fields,
        slots,
        inherited,
        earlier,
        later,
    )
}

// A template that is one widget of the sort, in no loop.
fn check_one(
    alloc: Global,
    template: Template,
    sort: ChildSort,
    place: &Place<'_>,
) -> Result<Body, CheckStop>
    ensures { Answers plain_body result (child_at (position One sort) (plain_place place.now []) (judged_of template)) }
{
    let position = Position {
        amount: Amount::One,
        sort,
    };
    let vars = LoopVariables::new(alloc);
    check_child(alloc, template, position, place, &vars)
}

// The place of a component in 32 bits, or want of memory.
fn component_place(place: usize) -> Result<u32, CheckFault>
    ensures { AnswersPlaced (λ n. n) result (Ok place) }
{
    if place > MAX_COMPONENTS {
        return Err(CheckFault::OutOfMemory);
    }
    Ok(place as u32)
}

// The component after those before it.
fn check_next(
    alloc: Global,
    component: Component,
    inherited: &Declared,
    earlier: &[CheckedComponent],
    later: &[Txt],
) -> Result<CheckedComponent, CheckFault>
    ensures answer { AnswersPlaced plain_component result
        (made_at (Some (length earlier.now)) (checked_component inherited.now (map signature earlier.now) later.now (component_written component))) }
    ensures decl { IfOk result (HasDecl (length inherited.now)) }
{
    let place = component_place(earlier.len())?;
    match check_component(alloc, component, inherited, earlier, later) {
        Ok(component) => Ok(component),
        Err(stop) => Err(CheckFault::at(Some(place), stop)),
    }
}

// The names of components, in order.
fn names_of(alloc: Global, components: &[Component]) -> Result<Vec<Txt>, AllocError>
    ensures { IfOk result (λ names. names.items ≡ map (λ c. c.name) components.now) }
{
    let mut names = Vec::with_capacity(alloc, components.len())?;
    for component in components {
        names.push(component.name.clone()?)?;
    }
    Ok(names)
}

// Components in order, each after those before it.
fn check_components(
    alloc: Global,
    components: Vec<Component>,
    inherited: &Declared,
) -> Result<Vec<CheckedComponent>, CheckFault>
    ensures answer { AnswersPlaced (λ v. map plain_component v.items) result (checked_components inherited.now [] (map component_written components.items)) }
    ensures decls { IfOk result (λ v. HaveDecls (length inherited.now) v.items) }
{
    let names = names_of(alloc, components.as_slice())?;
    let names = names.as_slice();
    let mut checked = Vec::with_capacity(alloc, components.len())?;
    for component in components {
        let earlier = checked.as_slice();
        let place = earlier.len();
        let next = check_next(alloc, component, inherited, earlier, &names[place..])?;
        checked.push(next)?;
    }
    Ok(checked)
}

// The inherited names, whose values see nothing.
fn check_inherited(alloc: Global, inherited: Vec<Variable>) -> Result<Variables, CheckFault>
    ensures { AnswersPlaced plain_variables result (made_at None (declared_variables nothing_seen no_variables (map plain_variable inherited.items))) }
{
    let none = Declared::new(alloc);
    match declare_over(alloc, inherited.as_slice(), &none) {
        Ok(variables) => Ok(variables),
        Err(stop) => Err(CheckFault::at(None, stop)),
    }
}

// The root: one box that uses any component.
pub(crate) fn check_root(
    alloc: Global,
    root: Template,
    inherited: &Declared,
    components: &[CheckedComponent],
) -> Result<Body, CheckFault>
    ensures { AnswersPlaced plain_body result (checked_root inherited.now (map plain_component components.now) (plain_template root)) }
{
    let nothing = Declared::new(alloc);
    let no_slots = SlotNames::new(alloc);
    let place = Place {
        fields: &nothing,
        props: &nothing,
        inherited: &nothing,
        provided: inherited,
        slots: &no_slots,
        earlier: components,
        later: &[],
    };
    match check_one(alloc, root, ChildSort::Box, &place) {
        Ok(body) => Ok(body),
        Err(stop) => Err(CheckFault::at(None, stop)),
    }
}

// A program: the inherited names, then the components, and then the root.
#[tactic(auto, unfolding(crate::specs::ProgramCheck::checked_program))]
fn check_parts(alloc: Global, p: Program) -> Result<CheckedParts, CheckFault>
    ensures answer { AnswersPlaced plain_checked result (checked_program (plain_program p)) }
    ensures decls { IfOk result (λ c. HaveDecls (length c.inherited.names) c.components.items) }
    ensures version { IfOk result (λ c. c.version ≡ p.version) }
    ensures view { IfOk result (λ c. c.view ≡ p.view) }
{
    let inherited = check_inherited(alloc, p.inherited)?;
    let components = check_components(alloc, p.components, &inherited.names)?;
    let root = check_root(alloc, p.root, &inherited.names, components.as_slice())?;
    Ok(CheckedParts {
        version: p.version,
        view: p.view,
        inherited,
        components,
        root,
    })
}

// A program, checked and typed.
pub(crate) fn check_program(alloc: Global, p: Program) -> Result<Checked, CheckFault>
    ensures { AnswersPlaced plain_checked result (checked_program (plain_program p)) }
{
    let parts = check_parts(alloc, p)?;
    Ok(Checked::of(parts))
}
