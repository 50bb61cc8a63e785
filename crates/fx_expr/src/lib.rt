// Values and expressions of a program: what a component's fields hold, and what its expressions give.
#![tactic(auto)]

mod closing;
mod evaluate;
mod exprs;
mod forms;
mod handlers;
mod items;
mod laws;
mod lists;
mod naming;
mod numbers;
mod opened;
mod sameness;
mod scopes;
mod text;
mod values;

pub use closing::close;
pub use evaluate::eval;
pub use exprs::{Expr, ExprList};
pub use handlers::{Handler, SetList, run_handler};
pub use laws::{
    added_places_join, closing_keeps_types_and_values, order_ties_equals, value_eq_means,
    values_have_their_types,
};
pub use lists::{IntList, TextList};
pub use naming::add_inherited;
pub use sameness::{same_expr, same_handler, same_sets, same_values};
pub use scopes::Scope;
pub use text::Txt;
pub use values::{Ty, Value, ValueList, same_value};
