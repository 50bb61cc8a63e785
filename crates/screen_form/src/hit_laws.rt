// Laws of hits.
ghost use Rattle.std.specs.Prelude.{◌≡◌, ℕ, false, [], reverse};
ghost use Rattle.fx_geom.specs.declared.shapes.Offset.{Offset};
ghost use Rattle.fx_geom.specs.Offset.{contains};
ghost use Rattle.widget_model.specs.Look.{Look};
ghost use Rattle.plain_tree.specs.declared.laid.Facts.{Facts};
ghost use Rattle.plain_tree.specs.Laid.{Laid, laid, Laids};
ghost use Rattle.plain_tree.specs.Laws.{laid_numbers_of, IsLeftOf, AllDiffer};
ghost use Rattle.plain_tree.specs.Shown.{shown_size};
ghost use Rattle.screen_form.specs.Hits.{hits_of};
ghost use Rattle.screen_form.specs.WorkedHits.{Works};

/// A hit path has numbers of laid nodes alone, from the last in preorder to the first; where the numbers of all laid nodes
/// differ, none stands twice in it.
pub fn hit_paths_keep_order()
    ensures order { (l : Laid) (p : Offset) → IsLeftOf (hits_of l p) (reverse (laid_numbers_of l)) }
    ensures once { (l : Laid) (p : Offset) → AllDiffer (laid_numbers_of l) → AllDiffer (hits_of l p) }
{}

/// A point outside what is seen of a tree's root meets nothing.
pub fn nothing_outside_is_hit()
    ensures { (number : ℕ) (look : Look) (facts : Facts) (children : Laids) (p : Offset)
        → contains (shown_size facts.frame) p ≡ false → hits_of (laid number look facts children) p ≡ [] }
{}

/// What points of small trees meet is as it was worked out by hand.
pub fn worked_hits()
    ensures { Works }
{}
