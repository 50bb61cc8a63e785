// Programs and components as they are written.
ghost use Rattle.std.specs.Prelude.{◌≤◌};

use crate::forms::Form;
use crate::templates::Template;
use fx_expr::{Txt, Ty};
use fx_geom::Size;

/// A program as it is written.
#[derive(Drop)]
pub struct Program {
    /// The version of the form: 1, 2 or 3.
    pub version: u8,
    /// The view's size, in u: each side is 1 to 16,777,216.
    pub view: Size,
    /// The inherited names, each with the value that it has where no widget above gives one.
    pub inherited: Vec<Variable>,
    pub components: Vec<Component>,
    pub root: Template,
    pub ghost first_version: { 1 ≤ version },
    pub ghost last_version: { version ≤ 3 },
    pub ghost view_has_width: { 1 ≤ view.w },
    pub ghost view_has_height: { 1 ≤ view.h },
    pub ghost width_in_range: { view.w ≤ 16777216 },
    pub ghost height_in_range: { view.h ≤ 16777216 },
}

/// A component as it is declared.
#[derive(Drop)]
pub struct Component {
    pub name: Txt,
    pub props: Vec<Parameter>,
    /// The fields, each with its first value.
    pub fields: Vec<Variable>,
    pub slots: Vec<Txt>,
    pub body: Template,
}

/// A prop as it is declared.
#[derive(Drop)]
pub struct Parameter {
    pub name: Txt,
    pub ty: Ty,
}

/// A field or an inherited name as it is declared.
#[derive(Drop)]
pub struct Variable {
    pub name: Txt,
    pub ty: Ty,
    pub value: Form,
}
