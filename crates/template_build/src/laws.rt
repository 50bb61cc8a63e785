// What the definitions of this crate give at templates worked by hand, and what they imply.
ghost use Rattle.std.specs.Prelude.{◌≡◌, ℕ, List, [], ◌∷◌, map};
ghost use Rattle.fx_expr.specs.Scope.{Env};
ghost use Rattle.fx_expr.specs.Value.{type_of};
ghost use Rattle.program_check.specs.Body.{PlainBody};
ghost use Rattle.program_check.specs.Checked.{PlainChecked};
ghost use Rattle.program_check.specs.TypedChecked.{IsTypedChecked, IsTypedRoot};
ghost use Rattle.widget_model.specs.Plain.{PlainWidget, widgets_of};
ghost use Rattle.template_build.specs.HandlersIn.{AllHandlersMeet, Owner, IsOwned, SetsNothing};
ghost use Rattle.template_build.specs.Program.{component_output, root_output};
ghost use Rattle.template_build.specs.Suits.{MayBuild};
ghost use Rattle.template_build.specs.Worked.{WorkedOutputs};

/// The outputs of small templates, worked by hand.
pub fn worked_outputs()
    ensures { WorkedOutputs }
{}

/// Each handler in what a component gives belongs to its node and fits its fields, or is one of the contents given for its
/// slots. Outside components a handler has the owner 0 and sets nothing.
pub fn handlers_fit_their_owners()
    ensures components { (c : PlainChecked) (place n : ℕ) (s : Env) (contents : List PlainWidget) (owners : List Owner)
        → IsTypedChecked c → MayBuild c place s contents
        → AllHandlersMeet (IsOwned ((n, map type_of s.fields) ∷ owners)) (widgets_of contents)
        → AllHandlersMeet (IsOwned ((n, map type_of s.fields) ∷ owners)) (widgets_of (component_output c place s contents n)) }
    ensures roots { (c : PlainChecked) (b : PlainBody) → IsTypedChecked c → IsTypedRoot c b
        → AllHandlersMeet SetsNothing (widgets_of (root_output c b)) }
{}

/// What a root gives is one widget: its template is certain to give just one.
pub fn a_root_is_one_widget()
    ensures { (c : PlainChecked) (b : PlainBody) → IsTypedChecked c → IsTypedRoot c b → (w : PlainWidget) × (root_output c b ≡ w ∷ []) }
{}
