// Templates, components and programs whose names are found and whose types and sorts are right.
ghost use Rattle.std.specs.Prelude.{◌≡◌, ◌≤◌, ◌<◌, option_map, length, IfSome};

use crate::slots::SlotNames;
use expr_check::Declared;
use fx_expr::{Expr, SetList, Txt};
use fx_geom::{Scale, Size};
use program_form::{ChildSort, KindName, Word};
use std::marker::Model;
use std::rc::Rc;
use widget_model::Decl;

// The version from which on programs have the fine scale.
const FINE_VERSION: u8 = 3;

/// A key of a template.
#[derive(Drop)]
pub enum KeyExpr {
    Local(Expr),
    Global(Expr),
}

/// A template whose names are found and whose types and sorts are right: its kind, its key where it has
/// one, and the kind's members in their order, each where it is given.
#[cycle(body)]
#[derive(Drop)]
pub struct Body {
    pub w: KindName,
    pub key: Option<Box<KeyExpr>>,
    pub members: Vec<Option<Box<BodyPart>>>,
}

impl Body {
    ghost use Rattle.program_check.specs.Body.{members_in_body, part_at, body_depth, part_depth};
    ghost use Rattle.program_check.specs.BodyView.{plain_body, plain_body_part};

    /// The member at a place of the kind's members, counted from 0, where it is given.
    pub fn part(&self, place: usize) -> Option<&BodyPart>
        ensures part { option_map (λ p. plain_body_part p.now) result ≡ part_at (members_in_body (plain_body self.now)) place }
        ensures depth { IfSome result (λ p. part_depth (plain_body_part p.now) < body_depth (plain_body self.now)) }
    {
        let members = self.members.as_slice();
        if place >= members.len() {
            return None;
        }
        match &members[place] {
            Some(part) => Some(part),
            None => None,
        }
    }
}

/// A member of such a template.
#[cycle(body)]
#[derive(Drop)]
pub enum BodyPart {
    Expression(Expr),
    Word(Word),
    /// The place of a component, a slot or an inherited name in its list; the place of a loop's variable.
    Name(u32),
    /// The sets of a handler, each with its field's place.
    Handler(SetList),
    Child(Box<Body>),
    Children(Vec<Body>),
    /// The props of a component, in the order in which it declares them.
    Props(Vec<Expr>),
    /// The contents of a component's slots, in the order in which it declares them.
    Slots(Vec<Body>),
}

/// Fields or inherited names: each with its type, and its first or default value, which a template's
/// names are places in.
#[derive(Drop)]
pub struct Variables {
    pub names: Declared,
    pub values: Vec<Expr>,
}

/// A component whose declarations and body are right.
#[derive(Drop)]
pub struct CheckedComponent {
    pub name: Txt,
    pub props: Declared,
    pub fields: Variables,
    pub slots: SlotNames,
    /// Whether its body is a box or a sliver; it is one of them.
    pub sort: ChildSort,
    pub body: Body,
    /// What it declares for the widgets that use it, made once.
    pub decl: Rc<Decl>,
}

/// The parts of a program whose names are found and whose types and sorts are right.
#[derive(Drop)]
pub struct CheckedParts {
    /// The version of the form: 1, 2 or 3.
    pub version: u8,
    /// The view's size, in u: each side is 1 to 16,777,216.
    pub view: Size,
    /// The inherited names, each with the value that it has where no widget above gives one.
    pub inherited: Variables,
    pub components: Vec<CheckedComponent>,
    pub root: Body,
}

/// A program whose names are found and whose types and sorts are right. Contracts see it as its parts, and know that it
/// is typed.
#[derive(Drop)]
pub struct Checked {
    parts: CheckedParts,
}

impl Model for Checked {
    ghost use Rattle.program_check.specs.declared.checked.CheckedParts.{CheckedParts};
    ghost use Rattle.std.specs.Coded.{codes};
    ghost use Rattle.fx_expr.specs.contracts.exprs.Expr as expr;
    ghost use Rattle.program_check.specs.contracts.checked.Body as body;

    ghost Value = { CheckedParts };

    ghost coded = { Prim.hlevel (codes, expr.the_row.coded, body.the_row.coded) };

    ghost use Rattle.program_check.specs.WellChecked.{IsWellChecked};

    ghost view = { λ c. c.parts };

    ghost invariant = { λ c. IsWellChecked c.parts };
}

impl Checked {
    ghost use Rattle.program_check.specs.WellChecked.{IsWellChecked, scale_of};

    // The program of these parts.
    pub(crate) fn of(parts: CheckedParts) -> Checked
        requires { IsWellChecked parts }
        ensures { result ≡ parts }
    {
        Checked { parts }
    }

    /// The parts, lent. They are typed, the view's sides and the version lie in their ranges, and each component has what
    /// it declares.
    pub fn parts(&self) -> &CheckedParts
        ensures parts { result.now ≡ self.now }
        ensures checked { IsWellChecked self.now }
    {
        &self.parts
    }

    /// The version of the form: 1, 2 or 3.
    pub fn version(&self) -> u8
        ensures { result ≡ self.now.version }
    {
        self.parts.version
    }

    /// The numbers that depend on how many u a logical pixel has: 64 in versions 1 and 2, and 256 in version 3.
    pub fn scale(&self) -> Scale
        ensures { result ≡ scale_of self.now.version }
    {
        if self.parts.version < FINE_VERSION {
            Scale::standard()
        } else {
            Scale::fine()
        }
    }
}
