// Laws of what a walk does where it enters a widget. None of these calls does anything.
ghost use Rattle.std.specs.Prelude.{◌≡◌, ℕ, suc, ◌+◌, ◌++◌, ◌∷◌, [], true, false, List, Some};
ghost use Rattle.fx_expr.specs.declared.values.Value.{Value};
ghost use Rattle.fx_handles.specs.declared.Handle.{Handle};
ghost use Rattle.node_tree.specs.Tree.{Tree as TreeOf};
ghost use Rattle.widget_model.specs.Plain.{PlainWidget, look_of};
ghost use Rattle.plain_tree.specs.PlainNode.{PlainNode};
ghost use Rattle.plain_tree.specs.RenderRole.{vanishes};
ghost use Rattle.build_form.specs.Step.{Fault, tree_too_large, Progress, stops, gives, each};
ghost use Rattle.build_form.specs.BuildRole.{build_role_of};
ghost use Rattle.build_form.specs.Partner.{Arrival, arrivals};
ghost use Rattle.build_form.specs.Entering.{Basis, Phase, waits, values_below, Opening, entered_below};
ghost use Rattle.element_tree.specs.Element.{Element as ElementOf, element_at};
ghost use Rattle.render_tree.specs.Object.{RenderObject as ObjectOf};
ghost use Rattle.render_tree.specs.Tree.{object_at};
ghost use Rattle.build_walk.specs.Past.{Pasts};
ghost use Rattle.build_walk.specs.Counting.{builds_by_each, builds_below, builds_opening, builds_from};
ghost use Rattle.build_walk.specs.Keeping.{reopened, reenter};
ghost use Rattle.build_walk.specs.Renewing.{GoesOn, role_of, IsDrawn};
ghost use Rattle.build_walk.specs.Walked.{WalkPlans, WalkPlace, through, under, list_at, planned_through, planned_under, without_tops};
ghost use Rattle.build_walk.specs.Entered.{IsEntered, AreEntered, IsEnteredBelow, IsElementFor};

/// A widget is entered once it was opened, what is below it was entered, and its entries are planned: one whose element has no render
/// node, and one whose element has one.
pub fn widgets_are_entered()
    ensures through { (from : Basis) (pasts : Pasts) (phase : Phase) (left k : ℕ) (values : List Value) (scrolled : ℕ → ℕ) (at : WalkPlace) (a : Arrival) (before mid after : Progress)
        (t : TreeOf ElementOf) (r : TreeOf ObjectOf) (old half : WalkPlans) (h : Handle) (e : ElementOf) (o : Opening) (hs : List Handle)
        → left ≡ suc k → reopened from pasts values a before ≡ gives o mid → IsElementFor scrolled a o e → GoesOn (element_at t) h e → vanishes (role_of e) ≡ true
        → IsEnteredBelow from pasts phase k values scrolled (through at h e) a.widget o mid after t r old half hs
        → IsEntered from pasts phase left values scrolled at a before after t r old (planned_through at h e hs half) h }
    ensures under { (from : Basis) (pasts : Pasts) (phase : Phase) (left k : ℕ) (values : List Value) (scrolled : ℕ → ℕ) (at : WalkPlace) (a : Arrival) (before mid after : Progress)
        (t : TreeOf ElementOf) (r : TreeOf ObjectOf) (old half : WalkPlans) (h n : Handle) (e : ElementOf) (o : Opening) (hs : List Handle)
        → left ≡ suc k → reopened from pasts values a before ≡ gives o mid → IsElementFor scrolled a o e → GoesOn (element_at t) h e → vanishes (role_of e) ≡ false
        → IsDrawn (object_at r) (scrolled e.number) e → e.render ≡ Some n
        → IsEnteredBelow from pasts phase k values scrolled (under h n e) a.widget o mid after t r (without_tops old) half hs
        → IsEntered from pasts phase left values scrolled at a before after t r old (planned_under phase at h n e (list_at left values e) hs old half) h }
{}

/// What is below a widget is entered once it was put off, or its child widgets were entered one after another.
pub fn widgets_are_entered_below()
    ensures put_off { (from : Basis) (pasts : Pasts) (phase : Phase) (left : ℕ) (values : List Value) (scrolled : ℕ → ℕ) (at : WalkPlace) (w : PlainWidget) (o : Opening) (before : Progress)
        (t : TreeOf ElementOf) (r : TreeOf ObjectOf) (p : WalkPlans) → waits phase (build_role_of (look_of w)) ≡ true
        → IsEnteredBelow from pasts phase left values scrolled at w o before
        (record { entered = before.entered; met = before.met; next = before.next; waiting = before.waiting ++ o.partner ∷ [] }) t r p p [] }
    ensures in_turn { (from : Basis) (pasts : Pasts) (phase : Phase) (left : ℕ) (values : List Value) (scrolled : ℕ → ℕ) (at : WalkPlace) (w : PlainWidget) (o : Opening) (before after : Progress)
        (t : TreeOf ElementOf) (r : TreeOf ObjectOf) (old new : WalkPlans) (hs : List Handle) → waits phase (build_role_of (look_of w)) ≡ false
        → AreEntered from pasts phase left (values_below w values) scrolled at (arrivals o.partner o.given) before after t r old new hs
        → IsEnteredBelow from pasts phase left values scrolled at w o before after t r old new hs }
{}

/// A walk stops at a widget that is too deep, or that can't be opened, or below which it stops.
pub fn widgets_stop()
    ensures depth { (from : Basis) (pasts : Pasts) (phase : Phase) (left : ℕ) (values : List Value) (a : Arrival) (s : Progress) → left ≡ 0
        → reenter from pasts phase left values a s ≡ stops tree_too_large }
    ensures opened { (from : Basis) (pasts : Pasts) (phase : Phase) (left k : ℕ) (values : List Value) (a : Arrival) (s : Progress) (f : Fault) → left ≡ suc k
        → reopened from pasts values a s ≡ stops f → reenter from pasts phase left values a s ≡ stops f }
    ensures below { (from : Basis) (pasts : Pasts) (phase : Phase) (left k : ℕ) (values : List Value) (a : Arrival) (s t : Progress) (o : Opening) (f : Fault) → left ≡ suc k
        → reopened from pasts values a s ≡ gives o t → entered_below (reenter from pasts phase k) phase values a.widget o t ≡ stops f
        → reenter from pasts phase left values a s ≡ stops f }
    ensures in_turn { (from : Basis) (pasts : Pasts) (phase : Phase) (left : ℕ) (values : List Value) (w : PlainWidget) (o : Opening) (s : Progress) (f : Fault)
        → waits phase (build_role_of (look_of w)) ≡ false → each (reenter from pasts phase left (values_below w values)) (arrivals o.partner o.given) s ≡ stops f
        → entered_below (reenter from pasts phase left) phase values w o s ≡ stops f }
    ensures after { (from : Basis) (pasts : Pasts) (phase : Phase) (left : ℕ) (values : List Value) (arriving rest : List Arrival) (a : Arrival) (s t : Progress) (ns : List PlainNode) (f : Fault)
        → each (reenter from pasts phase left values) arriving s ≡ gives ns t → reenter from pasts phase left values a t ≡ stops f
        → each (reenter from pasts phase left values) (arriving ++ a ∷ rest) s ≡ stops f }
{}

/// How many components a walk builds where it enters a widget: none where that is too deep, its own alone where it can't be opened, and
/// else also those below it; there none of what is put off, and else those of the child widgets, one after another, up to one at
/// which the walk stops.
pub fn builds_are_counted_in_turn()
    ensures depth { (from : Basis) (pasts : Pasts) (phase : Phase) (left : ℕ) (values : List Value) (a : Arrival) (s : Progress) → left ≡ 0
        → builds_from from pasts phase left values a s ≡ 0 }
    ensures opened { (from : Basis) (pasts : Pasts) (phase : Phase) (left k : ℕ) (values : List Value) (a : Arrival) (s : Progress) (f : Fault) → left ≡ suc k
        → reopened from pasts values a s ≡ stops f → builds_from from pasts phase left values a s ≡ builds_opening from pasts values a s }
    ensures below { (from : Basis) (pasts : Pasts) (phase : Phase) (left k : ℕ) (values : List Value) (a : Arrival) (s t : Progress) (o : Opening) → left ≡ suc k
        → reopened from pasts values a s ≡ gives o t
        → builds_from from pasts phase left values a s
        ≡ builds_opening from pasts values a s + builds_below (reenter from pasts phase k) (builds_from from pasts phase k) phase values a.widget o t }
    ensures put_off { (from : Basis) (pasts : Pasts) (phase : Phase) (left : ℕ) (values : List Value) (w : PlainWidget) (o : Opening) (s : Progress)
        → waits phase (build_role_of (look_of w)) ≡ true → builds_below (reenter from pasts phase left) (builds_from from pasts phase left) phase values w o s ≡ 0 }
    ensures in_turn { (from : Basis) (pasts : Pasts) (phase : Phase) (left : ℕ) (values : List Value) (w : PlainWidget) (o : Opening) (s : Progress)
        → waits phase (build_role_of (look_of w)) ≡ false
        → builds_below (reenter from pasts phase left) (builds_from from pasts phase left) phase values w o s
        ≡ builds_by_each (reenter from pasts phase left (values_below w values)) (builds_from from pasts phase left (values_below w values)) (arrivals o.partner o.given) s }
    ensures more { (from : Basis) (pasts : Pasts) (phase : Phase) (left : ℕ) (values : List Value) (arriving : List Arrival) (a : Arrival) (s t : Progress) (ns : List PlainNode)
        → each (reenter from pasts phase left values) arriving s ≡ gives ns t
        → builds_by_each (reenter from pasts phase left values) (builds_from from pasts phase left values) (arriving ++ a ∷ []) s
        ≡ builds_by_each (reenter from pasts phase left values) (builds_from from pasts phase left values) arriving s + builds_from from pasts phase left values a t }
    ensures last { (from : Basis) (pasts : Pasts) (phase : Phase) (left : ℕ) (values : List Value) (arriving rest : List Arrival) (a : Arrival) (s t : Progress) (ns : List PlainNode) (f : Fault)
        → each (reenter from pasts phase left values) arriving s ≡ gives ns t → reenter from pasts phase left values a t ≡ stops f
        → builds_by_each (reenter from pasts phase left values) (builds_from from pasts phase left values) (arriving ++ a ∷ rest) s
        ≡ builds_by_each (reenter from pasts phase left values) (builds_from from pasts phase left values) arriving s + builds_from from pasts phase left values a t }
{}
