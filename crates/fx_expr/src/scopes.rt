// What an expression can name.
use crate::values::Value;

/// The values in scope, each at its place, and the movement of the event in u, to the right and down
/// (0, 0 where there is none).
#[derive(Clone, Copy)]
pub struct Scope<'a> {
    pub fields: &'a [Value],
    pub props: &'a [Value],
    pub vars: &'a [Value],
    pub inherited: &'a [Value],
    pub event: (i64, i64),
}
