// Which children of lazy lists are there.
ghost use Rattle.std.specs.Prelude.{◌≡◌, ◌≤◌, ◌^◌, IfOk};
ghost use Rattle.widget_model.specs.Typed.{Declarations};
ghost use Rattle.delegates.specs.Meaning.{Meaning};
ghost use Rattle.plain_tree.specs.PlainNode.{count_of};
ghost use Rattle.build_form.specs.FullBuild.{live_ranges};
ghost use Rattle.build_form.specs.ScreenView.{screen_on};
ghost use Rattle.plain_build.specs.RangesView.{ranges_of};
ghost use Rattle.build_form.specs.WellBuilt.{IsWellBuilt};
ghost use Rattle.delegates.specs.Table.{meant_in};

use delegates::{Delegate, DelegateTable};
use fx_geom::{Scale, Size};
use plain_layout::{lay_view, lazy_views};
use plain_tree::{Node, project_root};
use sliver_layout::SliverBounds;
use std::alloc::{AllocError, Global};
use std::collections::BTreeMap;

/// The views in which the lazy lists of the first phase's tree were laid out, by their numbers, and how far each is widened,
/// in u.
#[derive(Drop)]
pub(crate) struct Ranges {
    pub(crate) views: BTreeMap<u64, SliverBounds>,
    pub(crate) widen: u64,
}

/// Lays a tree out in a view, for what is seen of its lazy lists.
pub(crate) fn ranges_in(
    alloc: Global,
    tree: &Node,
    scale: Scale,
    delegates: &DelegateTable,
    view: Size,
) -> Result<Ranges, AllocError>
    requires built { (d : Declarations) × IsWellBuilt d tree.now }
    requires few { count_of tree.now ≤ 2 ^ 44 }
    ensures { IfOk result (λ r. ranges_of r ≡ live_ranges (screen_on scale (meant_in delegates.now ⟦<dyn Delegate as Delegate>⟧) view) tree.now) }
{
    let top = project_root(alloc, tree)?;
    let laid = lay_view(alloc, &top, view, scale, delegates)?;
    Ok(Ranges {
        views: lazy_views(alloc, &laid)?,
        widen: scale.widen,
    })
}
