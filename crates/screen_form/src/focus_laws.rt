// Laws of the focus.
ghost use Rattle.std.specs.Prelude.{[], ◌≡◌, ℕ, Some, List, map, Contains, IsPermutation};
ghost use Rattle.std.specs.List.Sorted.{IsStrictlySortedBy};
ghost use Rattle.fx_geom.specs.Offset.{origin};
ghost use Rattle.plain_tree.specs.Laid.{Laid};
ghost use Rattle.plain_tree.specs.Laws.{laid_numbers_of, AllDiffer};
ghost use Rattle.screen_form.specs.Hidden.{without_hidden};
ghost use Rattle.screen_form.specs.Spot.{spot_cmp};
ghost use Rattle.screen_form.specs.FocusOrder.{spots_of, put_in, number_of, focus_order_of};
ghost use Rattle.screen_form.specs.FocusSteps.{next_of, prev_of};

/// The spots of the order rise: from above, then from the left, then by number.
pub fn order_rises()
    ensures { (root : Laid) → IsStrictlySortedBy spot_cmp (put_in [] (spots_of root origin)) }
{}

/// Where all numbers of a laid tree differ, the order has the number of each detector that can have the focus, each once.
pub fn order_has_each_once()
    ensures each { (root : Laid) → AllDiffer (laid_numbers_of root) → IsPermutation (map number_of (spots_of root origin)) (focus_order_of root) }
    ensures once { (root : Laid) → AllDiffer (laid_numbers_of root) → AllDiffer (focus_order_of root) }
{}

/// In an order without repeats, the number before the next one is the number itself, and the other way round.
pub fn steps_undo_each_other()
    ensures back { (order : List ℕ) (x : ℕ) → AllDiffer order → Contains order x → prev_of order (next_of order (Some x)) ≡ Some x }
    ensures forth { (order : List ℕ) (x : ℕ) → AllDiffer order → Contains order x → next_of order (prev_of order (Some x)) ≡ Some x }
{}

/// No detector below an Opacity of alpha 0, an Offstage that is offstage or a sliver of which nothing is seen has a place in
/// the order: that of a tree without them is the same.
pub fn hidden_parts_are_unfocused()
    ensures { (l : Laid) → focus_order_of (without_hidden l) ≡ focus_order_of l }
{}
