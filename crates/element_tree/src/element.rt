// What an element is, and how a plan for a whole new tree changes it.

use fx_expr::Value;
use fx_handles::Handle;
use node_tree::Update;
use std::marker::Model;
use std::rc::Rc;
use widget_model::Widget;

/// An element, as the tree keeps it.
#[derive(Drop)]
pub struct Element {
    pub(crate) number: u64,
    pub(crate) widget: Rc<Widget>,
    pub(crate) fields: Vec<Value>,
    pub(crate) index: u64,
    pub(crate) dirty: bool,
    pub(crate) output: Option<Rc<Widget>>,
    pub(crate) render: Option<Handle>,
}

impl Model for Element {
    ghost use Rattle.std.specs.Prelude.{option_map};
    ghost use Rattle.widget_model.specs.View.{shared};
    ghost use Rattle.element_tree.specs.Element.{Element as ElementOf, element_code};

    ghost Value = { ElementOf };

    ghost coded = { element_code };

    ghost view = { λ e. record {
      number = e.number;
      widget = shared e.widget;
      fields = e.fields.items;
      index = e.index;
      dirty = e.dirty;
      output = option_map shared e.output;
      render = e.render;
    } };
}

/// What a plan gives to an element that stays or is new: its widget, its place among its parent's child widgets, what its body
/// gave, and the handle of its render node. Number and fields stay as they are, and the element isn't to be built anew.
#[derive(Drop)]
pub struct Renewal {
    pub widget: Rc<Widget>,
    pub index: u64,
    pub output: Option<Rc<Widget>>,
    pub render: Option<Handle>,
}

impl Model for Renewal {
    ghost use Rattle.std.specs.Prelude.{option_map};
    ghost use Rattle.widget_model.specs.View.{shared};
    ghost use Rattle.element_tree.specs.Renewal.{Renewal as RenewalOf, renewal_code};

    ghost Value = { RenewalOf };

    ghost coded = { renewal_code };

    ghost view = { λ u. record {
      widget = shared u.widget;
      index = u.index;
      output = option_map shared u.output;
      render = u.render;
    } };
}

impl Update<Element> for Renewal {
    ghost use Rattle.element_tree.specs.Renewal.{renewed};

    ghost updated = { renewed };

    fn apply(self, value: &mut Element) {
        let Renewal {
            widget,
            index,
            output,
            render,
        } = self;
        value.widget = widget;
        value.index = index;
        value.dirty = false;
        value.output = output;
        value.render = render;
    }
}
