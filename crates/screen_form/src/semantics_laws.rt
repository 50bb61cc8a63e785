// Laws of semantics.
ghost use Rattle.std.specs.Prelude.{◌≡◌, ◌∷◌, ℕ, Ok, Contains};
ghost use Rattle.plain_tree.specs.Laid.{Laid};
ghost use Rattle.plain_tree.specs.Laws.{laid_numbers_of, IsLeftOf, AllDiffer};
ghost use Rattle.script_lines.specs.declared.command.Action.{Action};
ghost use Rattle.screen_form.specs.Hidden.{without_hidden};
ghost use Rattle.screen_form.specs.Acts.{acted};
ghost use Rattle.screen_form.specs.SemanticsLaws.{ids_of, doers_of};
ghost use Rattle.screen_form.specs.Semantics.{semantics_of};
ghost use Rattle.screen_form.specs.WorkedSemantics.{Works};

/// The ids of a semantics tree are 0 and, in their order, some of the numbers of the laid tree.
pub fn ids_are_numbers()
    ensures { (root : Laid) → IsLeftOf (ids_of (semantics_of root)) (0 ∷ laid_numbers_of root) }
{}

/// Where all numbers of a laid tree differ, and none is 0, all ids of its semantics tree differ.
pub fn ids_differ()
    ensures { (root : Laid) → AllDiffer (0 ∷ laid_numbers_of root) → AllDiffer (ids_of (semantics_of root)) }
{}

/// An action is done by a laid Detector that has a handler for it.
pub fn a_detector_acts()
    ensures { (root : Laid) (id number : ℕ) (action : Action) → acted (semantics_of root) id action ≡ Ok number → Contains (doers_of action root) number }
{}

/// Semantics has nothing of what stands below an Opacity of alpha 0, an Offstage that is offstage or a sliver of which
/// nothing is seen: a tree without that means the same.
pub fn hidden_parts_are_unheard()
    ensures { (l : Laid) → semantics_of (without_hidden l) ≡ semantics_of l }
{}

/// What small trees say, what is done in them and what is printed of them is as it was worked out by hand.
pub fn worked_semantics()
    ensures { Works }
{}
