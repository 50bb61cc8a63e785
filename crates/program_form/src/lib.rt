//! Programs as they are written: expressions, templates, components and the table of a template's kinds and members,
//! which both the reading and the check of programs stand on.
#![tactic(auto)]

mod forms;
mod handlers;
mod keys;
mod kinds;
mod operators;
mod programs;
mod templates;
mod words;

pub use forms::{Form, FormList};
pub use handlers::{HandlerForm, SetForm};
pub use keys::KeyForm;
pub use kinds::{ChildSort, KindMember, KindName, MemberForm, MemberMeaning, MemberName};
pub use operators::{Head, Naming, Operator};
pub use programs::{Component, Parameter, Program, Variable};
pub use templates::{Part, PropForm, SlotForm, Template};
pub use words::{Word, WordList};
