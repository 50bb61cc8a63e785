// Where a template is built.
ghost use Rattle.std.specs.Prelude.{◌≡◌};
ghost use Rattle.fx_expr.specs.ScopeView.{env_of};
ghost use Rattle.template_build.specs.SceneView.{env_with};

use fx_expr::{Scope, Value};
use program_check::CheckedParts;
use std::rc::Rc;
use widget_model::Widget;

// What is the same at all templates of a body: the program, what their expressions can name but loop variables, the
// contents given for slots, and the number of the node that handlers belong to.
#[derive(Clone, Copy)]
pub(crate) struct Scene<'a> {
    pub program: &'a CheckedParts,
    pub fields: &'a [Value],
    pub props: &'a [Value],
    pub inherited: &'a [Value],
    pub event: (i64, i64),
    pub given: &'a [Rc<Widget>],
    pub owner: u64,
}

impl<'a> Scene<'a> {
    // What expressions can name inside loops with these variables.
    pub(crate) fn scope<'b>(&'b self, vars: &'b [Value]) -> Scope<'b>
        ensures { env_of result ≡ env_with self.now vars.now }
    {
        Scope {
            fields: self.fields,
            props: self.props,
            vars,
            inherited: self.inherited,
            event: self.event,
        }
    }
}
