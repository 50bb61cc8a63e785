// Laws of the definitions.
ghost use Rattle.std.specs.Prelude.{◌≡◌, ◌↔◌, IsTrue, List};
ghost use Rattle.fx_expr.specs.declared.values.Value.{Value};
ghost use Rattle.widget_keys.specs.declared.keys.Key.{Key};
ghost use Rattle.widget_model.specs.Plain.{PlainWidget, widgets_of, list_of};
ghost use Rattle.widget_model.specs.Size.{counts_of, count_in};
ghost use Rattle.widget_model.specs.Update.{key_eq, updates, CanUpdate};

/// The test whether a widget may take the place of another holds exactly where their types and keys are equal.
pub fn updates_means()
    ensures { (a b : PlainWidget) → IsTrue (updates a b) ↔ CanUpdate a b }
{}

/// The test whether two keys are equal holds exactly where they are.
pub fn key_eq_means()
    ensures { (a b : Key Value) → IsTrue (key_eq a b) ↔ (a ≡ b) }
{}

/// Widgets that follow one another in a widget are the list of them, and are as many.
pub fn widgets_are_their_list()
    ensures list { (ws : List PlainWidget) → list_of (widgets_of ws) ≡ ws }
    ensures count { (ws : List PlainWidget) → counts_of (widgets_of ws) ≡ count_in ws }
{}
