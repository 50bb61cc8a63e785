// The reading of components and programs.
ghost use Rattle.std.specs.Prelude.{ℕ, List, map, codes};
ghost use Rattle.serde_json.specs.Data.{object};
ghost use Rattle.json_tree.specs.View.{view, members_view};
ghost use Rattle.program_read.specs.Answers.{Answers, Gives};
ghost use Rattle.program_read.specs.ShapeFault.{at_entry};
ghost use Rattle.program_read.specs.Names.{name_of};
ghost use Rattle.program_read.specs.Objects.{required_at, OthersStay};
ghost use Rattle.program_form.specs.Program.{PlainParameter, PlainVariable, PlainComponent};
ghost use Rattle.program_form.specs.ProgramView.{plain_parameter, plain_variable, plain_component, plain_program};
ghost use Rattle.program_read.specs.ProgramWalk.{version_of, side_of, view_of, parameter_of, variable_of, list_at, component_parts, component_of, components_of, program_parts, program_of};
ghost use Rattle.program_form.specs.TemplateView.{plain_template};
ghost use Rattle.program_read.specs.TemplateWalk.{template_of};

use crate::fault::{ReadStop, ShapeCode, at_entry, within};
use crate::forms::form_entry;
use crate::leaves::{read_entries, read_integer, read_pair, read_triple, type_entry};
use crate::lists::{EntryReader, list_at, read_each};
use crate::names::{name_entry, read_name};
use crate::objects::{Members, read_shaped, take, taken};
use crate::parts::read_template;
use fx_expr::Txt;
use fx_geom::Size;
use json_tree::Json;
use program_form::{Component, Parameter, Program, Template, Variable};
use std::alloc::Global;

// The latest version of programs.
const GREATEST_VERSION: i64 = 3;

// The greatest side of a view, in u.
const GREATEST_SIDE: i64 = 16_777_216;

// The most components of a program.
const MAX_COMPONENTS: usize = 256;

// The version that a value is: 1, 2 or 3.
fn read_version(alloc: Global, value: &Json<'_>) -> Result<u8, ReadStop>
    ensures { Gives result (version_of (view value.now)) }
{
    let version = read_integer(alloc, value)?;
    if version < 1 || version > GREATEST_VERSION {
        return Err(ReadStop::here(alloc, ShapeCode::OutOfRange));
    }
    Ok(version as u8)
}

// The side of a view that a value is.
fn read_side(alloc: Global, value: &Json<'_>) -> Result<u64, ReadStop>
    ensures { Gives result (side_of (view value.now)) }
{
    let side = read_integer(alloc, value)?;
    if side < 1 || side > GREATEST_SIDE {
        return Err(ReadStop::here(alloc, ShapeCode::OutOfRange));
    }
    Ok(side as u64)
}

// The side of a view that an entry of a list is.
fn side_entry(alloc: Global, value: &Json<'_>, index: usize) -> Result<u64, ReadStop>
    ensures { Gives result (at_entry index (side_of (view value.now))) }
{
    at_entry(alloc, index, read_side(alloc, value))
}

// The size of a view that a value is.
fn read_view(alloc: Global, value: &Json<'_>) -> Result<Size, ReadStop>
    ensures { Gives result (view_of (view value.now)) }
{
    let (w, h) = read_pair(alloc, value)?;
    let w = side_entry(alloc, w, 0)?;
    let h = side_entry(alloc, h, 1)?;
    Ok(Size { w, h })
}

// Reads the props that a component declares.
struct ParameterReader;

impl EntryReader for ParameterReader {
    type Entry = Parameter;

    ghost Plain = { PlainParameter };

    ghost plain = { plain_parameter };

    ghost walk = { λ _. parameter_of };

    fn read(&self, alloc: Global, value: &mut Json<'_>) -> Result<Parameter, ReadStop> {
        let (name, ty) = read_pair(alloc, value)?;
        let name = name_entry(alloc, name, 0)?;
        let ty = type_entry(alloc, ty, 1)?;
        Ok(Parameter { name, ty })
    }
}

// Reads fields and inherited names.
struct VariableReader;

impl EntryReader for VariableReader {
    type Entry = Variable;

    ghost Plain = { PlainVariable };

    ghost plain = { plain_variable };

    ghost walk = { λ _. variable_of };

    fn read(&self, alloc: Global, value: &mut Json<'_>) -> Result<Variable, ReadStop> {
        let (name, ty, value) = read_triple(alloc, value)?;
        let name = name_entry(alloc, name, 0)?;
        let ty = type_entry(alloc, ty, 1)?;
        let value = form_entry(alloc, value, 2)?;
        Ok(Variable { name, ty, value })
    }
}

// Reads names.
struct NameReader;

impl EntryReader for NameReader {
    type Entry = Txt;

    ghost Plain = { List ℕ };

    ghost plain = { λ name. name };

    ghost walk = { λ _. name_of };

    fn read(&self, alloc: Global, value: &mut Json<'_>) -> Result<Txt, ReadStop> {
        read_name(alloc, value)
    }
}

// Takes and reads the member that is a component's name.
fn name_at(alloc: Global, members: &mut Members<'_>) -> Result<Txt, ReadStop>
    ensures read { Gives result (required_at name_of (codes "name") (object (members_view members.old.items))) }
    ensures others { OthersStay (codes "name") (object (members_view members.old.items)) (object (members_view members.new.items)) }
{
    match take(members, "name") {
        Some(found) => within(alloc, "name", read_name(alloc, &found)),
        None => Err(ReadStop::here(alloc, ShapeCode::MissingMember)),
    }
}

// Takes and reads the member that is a component's body or a program's root.
fn template_at(
    alloc: Global,
    version: u8,
    members: &mut Members<'_>,
    name: &str,
) -> Result<Template, ReadStop>
    ensures { Answers plain_template result (required_at (template_of version) name.now (object (members_view members.old.items))) }
{
    match take(members, name) {
        Some(found) => within(alloc, name, read_template(alloc, version, found)),
        None => Err(ReadStop::here(alloc, ShapeCode::MissingMember)),
    }
}

// The component that an object's members are.
fn component_in(
    alloc: Global,
    version: u8,
    members: &mut Members<'_>,
) -> Result<Component, ReadStop>
    ensures { Answers plain_component result (component_parts version (object (members_view members.old.items))) }
{
    let name = name_at(alloc, members)?;
    let props = list_at(alloc, &ParameterReader, members, "props")?;
    let fields = list_at(alloc, &VariableReader, members, "fields")?;
    let slots = list_at(alloc, &NameReader, members, "slots")?;
    let body = template_at(alloc, version, members, "body")?;
    Ok(Component {
        name,
        props,
        fields,
        slots,
        body,
    })
}

// Reads the components of a program of a version.
#[derive(Drop)]
struct ComponentReader {
    version: u8,
}

impl EntryReader for ComponentReader {
    type Entry = Component;

    ghost Plain = { PlainComponent };

    ghost plain = { plain_component };

    ghost walk = { λ reader. component_of reader.version };

    fn read(&self, alloc: Global, value: &mut Json<'_>) -> Result<Component, ReadStop> {
        let mut members = read_shaped(
            alloc,
            taken(value),
            &["name", "body"],
            &["name", "props", "fields", "slots", "body"],
        )?;
        component_in(alloc, self.version, &mut members)
    }
}

// The components that a list declares.
fn read_components(alloc: Global, version: u8, value: Json<'_>) -> Result<Vec<Component>, ReadStop>
    ensures { Answers (λ cs. map plain_component cs.items) result (components_of version (view value.entry)) }
{
    let entries = read_entries(alloc, value, MAX_COMPONENTS)?;
    read_each(alloc, &ComponentReader { version }, entries)
}

// Takes and reads the member that declares a program's components, which may be left out.
fn components_at(
    alloc: Global,
    version: u8,
    members: &mut Members<'_>,
) -> Result<Vec<Component>, ReadStop>
    ensures read { Answers (λ cs. map plain_component cs.items) result (list_at (components_of version) (codes "components") (object (members_view members.old.items))) }
    ensures others { OthersStay (codes "components") (object (members_view members.old.items)) (object (members_view members.new.items)) }
{
    match take(members, "components") {
        Some(found) => within(alloc, "components", read_components(alloc, version, found)),
        None => Ok(Vec::new(alloc)),
    }
}

// Takes and reads the member that is a program's version.
fn version_at(alloc: Global, members: &mut Members<'_>) -> Result<u8, ReadStop>
    ensures read { Gives result (required_at version_of (codes "version") (object (members_view members.old.items))) }
    ensures others { OthersStay (codes "version") (object (members_view members.old.items)) (object (members_view members.new.items)) }
{
    match take(members, "version") {
        Some(found) => within(alloc, "version", read_version(alloc, &found)),
        None => Err(ReadStop::here(alloc, ShapeCode::MissingMember)),
    }
}

// Takes and reads the member that is the size of a program's view.
fn view_at(alloc: Global, members: &mut Members<'_>) -> Result<Size, ReadStop>
    ensures read { Gives result (required_at view_of (codes "view") (object (members_view members.old.items))) }
    ensures others { OthersStay (codes "view") (object (members_view members.old.items)) (object (members_view members.new.items)) }
{
    match take(members, "view") {
        Some(found) => within(alloc, "view", read_view(alloc, &found)),
        None => Err(ReadStop::here(alloc, ShapeCode::MissingMember)),
    }
}

// The program that an object's members are.
fn program_in(alloc: Global, members: &mut Members<'_>) -> Result<Program, ReadStop>
    ensures { Answers plain_program result (program_parts (object (members_view members.old.items))) }
{
    let version = version_at(alloc, members)?;
    let view = view_at(alloc, members)?;
    let inherited = list_at(alloc, &VariableReader, members, "inherited")?;
    let components = components_at(alloc, version, members)?;
    let root = template_at(alloc, version, members, "root")?;
    Ok(Program {
        version,
        view,
        inherited,
        components,
        root,
    })
}

// The program that a value is.
pub(crate) fn program_from(alloc: Global, value: Json<'_>) -> Result<Program, ReadStop>
    ensures { Answers plain_program result (program_of (view value.entry)) }
{
    let mut members = read_shaped(
        alloc,
        value,
        &["version", "view", "root"],
        &["version", "view", "inherited", "components", "root"],
    )?;
    program_in(alloc, &mut members)
}
