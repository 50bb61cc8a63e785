// Laws of painting.
ghost use Rattle.std.specs.Prelude.{◌≡◌, List};
ghost use Rattle.fx_geom.specs.declared.shapes.Size.{Size};
ghost use Rattle.delegates.specs.Table.{Plug};
ghost use Rattle.plain_tree.specs.Laid.{Laid};
ghost use Rattle.screen_form.specs.Painted.{layer_of};
ghost use Rattle.screen_form.specs.Hidden.{without_hidden};
ghost use Rattle.screen_form.specs.WorkedPaints.{Works};

/// Painting reads nothing of what stands below an Opacity of alpha 0, an Offstage that is offstage or a sliver of which
/// nothing is seen: a tree without that is painted alike.
pub fn hidden_parts_are_unread()
    ensures { (cell : Size) (delegates : List Plug) (l : Laid) → layer_of cell delegates (without_hidden l) ≡ layer_of cell delegates l }
{}

/// What is painted of small trees is as it was worked out by hand.
pub fn worked_paints()
    ensures { Works }
{}
