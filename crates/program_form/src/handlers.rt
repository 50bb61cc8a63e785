// Handlers as they are written.
use crate::forms::Form;
use fx_expr::Txt;

/// `["set",name,expression]`: a field by its name, and what it is set to.
#[derive(Drop)]
pub struct SetForm {
    pub name: Txt,
    pub value: Form,
}

/// A handler: its sets, in order.
#[derive(Drop)]
pub struct HandlerForm {
    pub sets: Vec<SetForm>,
}
