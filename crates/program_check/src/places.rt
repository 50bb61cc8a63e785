// Where a template stands, and what is wanted there.
ghost use Rattle.std.specs.Prelude.{◌≡◌, [], None, Ok, Err, is_some, map, option_map};
ghost use Rattle.expr_check.specs.Check.{Answers, Gives};
ghost use Rattle.program_check.specs.Place.{index_by, index_of, component_of, used_component, or_early, expected, sorts_agree};
ghost use Rattle.expr_check.specs.ScopeView.{plain_names};
ghost use Rattle.program_check.specs.CheckedView.{signature, plain_place};

use crate::checked::CheckedComponent;
use crate::slots::SlotNames;
use expr_check::{CheckCode, CheckStop, Declared, LoopVariables, Names};
use fx_expr::Txt;
use program_form::ChildSort;

// The most places of a list: each has 32 bits.
const MAX_PLACES: usize = 0xffff_ffff;

/// How many widgets may come where a child stands.
#[derive(Clone, Copy, Debug, PartialEq, Eq)]
pub enum Amount {
    /// One, whatever the values are.
    One,
    /// One or none.
    AtMostOne,
    /// Any number, in a list of children.
    Any,
}

/// What is wanted where a child stands.
#[derive(Clone, Copy, Debug, PartialEq, Eq)]
pub struct Position {
    pub amount: Amount,
    pub sort: ChildSort,
}

/// What a template can name, beside the variables of the loops around it.
#[derive(Clone, Copy)]
pub struct Place<'a> {
    /// The fields, props and inherited names that its expressions can name.
    pub fields: &'a Declared,
    pub props: &'a Declared,
    pub inherited: &'a Declared,
    /// The inherited names that it can give a value.
    pub provided: &'a Declared,
    /// The slots of the component that it stands in.
    pub slots: &'a SlotNames,
    /// The components that it can use: those declared before the one that it stands in, or all.
    pub earlier: &'a [CheckedComponent],
    /// The names of the component that it stands in, and of those declared later.
    pub later: &'a [Txt],
}

impl<'a> Place<'a> {
    // What expressions can name here, inside loops with these variables.
    pub(crate) fn names<'n>(&'n self, vars: &'n LoopVariables) -> Names<'n>
        ensures { plain_names result ≡ (plain_place self.now vars.now).names }
    {
        Names {
            fields: self.fields,
            props: self.props,
            vars,
            inherited: self.inherited,
            event: false,
        }
    }

    // The component that a template uses, with its place.
    pub(crate) fn used_component(
        &self,
        name: &Txt,
    ) -> Result<(u32, &'a CheckedComponent), CheckStop>
        ensures { Answers (λ c. (c.0, signature c.1.now)) result (used_component (plain_place self.now []) name.now) }
    {
        match component_of(self.earlier, name) {
            Some((i, component)) => Ok((place_number(i)?, component)),
            None => Err(CheckStop::Bad(early_code(declared_later(self.later, name)))),
        }
    }
}

// What is wrong with the use of a component that isn't declared before: it is declared later, or it isn't.
fn early_code(declared: bool) -> CheckCode
    ensures { or_early declared None ≡ Err result }
{
    if declared {
        CheckCode::EarlyUse
    } else {
        CheckCode::MissingName
    }
}

// That something holds, and what is wrong where it doesn't.
pub(crate) fn expect(holds: bool, code: CheckCode) -> Result<(), CheckStop>
    ensures { Gives result (expected holds code) }
{
    if !holds {
        return Err(CheckStop::Bad(code));
    }
    Ok(())
}

// A place in a list in 32 bits, or want of memory.
fn place_number(place: usize) -> Result<u32, CheckStop>
    ensures { Gives result (Ok place) }
{
    if place > MAX_PLACES {
        return Err(CheckStop::OutOfMemory);
    }
    Ok(place as u32)
}

// Whether the name is among these.
fn declared_later(names: &[Txt], name: &Txt) -> bool
    ensures { result ≡ is_some (index_of names.now name.now) }
{
    for i in 0..names.len() {
        let later = &names[i];
        if *name == *later {
            return true;
        }
    }
    false
}

// The place of the component of a name, counted from 0.
fn component_index(components: &[CheckedComponent], name: &Txt) -> Option<usize>
    ensures { result ≡ index_by (λ c. c.name) components.now name.now }
{
    for i in 0..components.len() {
        let component = &components[i];
        if *name == component.name {
            return Some(i);
        }
    }
    None
}

// The component of a name, with its place.
pub(crate) fn component_of<'a>(
    components: &'a [CheckedComponent],
    name: &Txt,
) -> Option<(usize, &'a CheckedComponent)>
    ensures { option_map (λ c. (c.0, signature c.1.now)) result ≡ component_of (map signature components.now) name.now }
{
    let Some(place) = component_index(components, name) else {
        return None;
    };
    if place >= components.len() {
        return None;
    }
    let component = &components[place];
    Some((place, component))
}

// Whether what stands there is what is wanted, where both are known.
pub(crate) fn sorts_agree(wanted: ChildSort, found: ChildSort) -> bool
    ensures { result ≡ sorts_agree wanted found }
{
    match (wanted, found) {
        (ChildSort::Box, ChildSort::Sliver) | (ChildSort::Sliver, ChildSort::Box) => false,
        _ => true,
    }
}
