// Expressions as they are written.
ghost use Rattle.std.specs.Prelude.{◌≡◌, map};
ghost use Rattle.program_form.specs.FormView.{plain_form, plain_forms};

use crate::operators::Operator;
use fx_expr::Txt;

/// An expression as it is written, with the names that it gives.
#[cycle(form)]
#[derive(Drop)]
pub enum Form {
    /// An integer.
    Int(i64),
    /// A truth value.
    Bool(bool),
    /// A text.
    Text(Txt),
    /// `["field",x]`: a field of the component.
    Field(Txt),
    /// `["prop",x]`: a prop of the component.
    Prop(Txt),
    /// `["var",x]`: the item of a loop.
    Var(Txt),
    /// `["inherit",x]`: an inherited value.
    Inherit(Txt),
    /// `["event","dx"]`: how far a gesture's update moved to the right.
    EventDx,
    /// `["event","dy"]`: how far it moved down.
    EventDy,
    /// An operator with its operands, as many as it has.
    Operation(Operator, FormList),
}

/// A list of expressions as they are written.
#[cycle(form)]
#[derive(Drop)]
pub struct FormList {
    pub(crate) items: Vec<Form>,
}

impl FormList {
    /// The list that `items` holds.
    pub fn of(items: Vec<Form>) -> FormList
        ensures { plain_forms result ≡ map plain_form items.items }
    {
        FormList { items }
    }

    /// The items, lent.
    pub fn get(&self) -> &[Form]
        ensures { map plain_form result.now ≡ plain_forms self.now }
    {
        self.items.as_slice()
    }
}
