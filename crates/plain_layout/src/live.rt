// The live ranges of lazy lists, by a laid tree.
ghost use Rattle.std.specs.Prelude.{◌≡◌, ℕ, ◌≤◌, ◌<◌, IfOk, OnOk, Option};
ghost use Rattle.std.specs.Option.{option_or};
ghost use Rattle.std.specs.BTreeMap.{BTreeMap};
ghost use Rattle.std.specs.Ordering.{nat_cmp};
ghost use Rattle.plain_tree.specs.LaidView.{laids_in};
ghost use Rattle.layout_form.specs.Live.{lazy_view_at, lazy_view_in, live_in};
ghost use Rattle.plain_layout.specs.LiveView.{view_kept};

use plain_tree::{Frame, LaidChild, LaidNode};
use sliver_layout::{SliverBounds, Window, live};
use std::alloc::{AllocError, Global};
use std::collections::BTreeMap;
use widget_model::Kind;

/// The views in which the lazy lists of a laid tree were laid out, by their numbers. It takes n steps for n laid nodes,
/// each of which puts at most one view into a map.
pub fn lazy_views(alloc: Global, laid: &LaidNode) -> Result<BTreeMap<u64, SliverBounds>, AllocError>
    ensures { IfOk result (λ views. (wanted : ℕ) → view_kept views wanted ≡ lazy_view_at wanted laid.now) }
{
    let mut views = BTreeMap::new(alloc);
    keep_views(laid, &mut views)?;
    Ok(views)
}

// Keeps the views of the lazy lists, by their numbers.
#[cycle(viewing)]
fn keep_views(laid: &LaidNode, views: &mut BTreeMap<u64, SliverBounds>) -> Result<(), AllocError>
    ensures { OnOk result ((wanted : ℕ) → view_kept views.new wanted ≡ option_or (lazy_view_at wanted laid.now) (view_kept views.old wanted)) }
{
    if let (Kind::SliverLazy { .. }, Frame::Sliver { bounds, .. }) = (
        &laid.widget.kind,
        laid.facts.frame,
    ) {
        views.insert(laid.number, bounds)?;
    }
    keep_all_views(laid.children.as_slice(), views)
}

// The same of the laid nodes in a list.
#[cycle(viewing)]
fn keep_all_views(
    children: &[LaidChild],
    views: &mut BTreeMap<u64, SliverBounds>,
) -> Result<(), AllocError>
    ensures { OnOk result ((wanted : ℕ) → view_kept views.new wanted ≡ option_or (lazy_view_in wanted (laids_in children.now)) (view_kept views.old wanted)) }
{
    for child in children {
        keep_views(&child.node, views)?;
    }
    Ok(())
}

/// The live range of a lazy list of `count` children of an extent, in u, that was laid out in this view, where it is
/// widened so far on both sides: none where it wasn't laid out.
pub fn live_range(view: Option<SliverBounds>, extent: u64, count: u64, widen: u64) -> Window
    requires { 0 < extent }
    ensures { result ≡ live_in view extent count widen }
{
    match view {
        None => Window { first: 0, end: 0 },
        Some(view) => live(view, extent, count, widen),
    }
}
