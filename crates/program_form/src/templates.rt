// Templates as they are written.
use crate::forms::Form;
use crate::handlers::HandlerForm;
use crate::keys::KeyForm;
use crate::kinds::KindName;
use crate::words::Word;
use fx_expr::Txt;

/// A template as it is written: its kind, its key where it has one, and the kind's members in their order, each where
/// it is given.
#[cycle(template)]
#[derive(Drop)]
pub struct Template {
    pub w: KindName,
    pub key: Option<Box<KeyForm>>,
    pub members: Vec<Option<Box<Part>>>,
}

/// A member of a template.
#[cycle(template)]
#[derive(Drop)]
pub enum Part {
    Expression(Form),
    Word(Word),
    Name(Txt),
    Handler(HandlerForm),
    Child(Box<Template>),
    Children(Vec<Template>),
    /// The props given to a component, in byte order of their names.
    Props(Vec<PropForm>),
    /// The contents given for a component's slots, in byte order of the slots' names.
    Slots(Vec<SlotForm>),
}

/// The content that is given for a slot.
#[cycle(template)]
#[derive(Drop)]
pub struct SlotForm {
    pub name: Txt,
    pub content: Template,
}

/// A prop that is given to a component.
#[derive(Drop)]
pub struct PropForm {
    pub name: Txt,
    pub value: Form,
}
