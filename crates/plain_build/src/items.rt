// The items of lazy lists.
ghost use Rattle.std.specs.Prelude.{◌≡◌, ◌||◌, map, length, filter, IfOk, OnOk};
ghost use Rattle.std.specs.List.{All};
ghost use Rattle.widget_model.specs.Typed.{box, sort_of, IsTypedWidget};
ghost use Rattle.widget_model.specs.View.{plain_of, look_in};
ghost use Rattle.layout_form.specs.SliverRule.{is_among};
ghost use Rattle.build_form.specs.BuildRole.{lists, build_role_of};
ghost use Rattle.build_form.specs.Partner.{arrivals};
ghost use Rattle.build_form.specs.FullBuild.{next_waiting, one_served, stays, items};
ghost use Rattle.build_form.specs.Lent.{lent};
ghost use Rattle.plain_build.specs.PartnerView.{plain_arrival};
ghost use Rattle.plain_build.specs.WalkView.{progress_of};
ghost use Rattle.plain_build.specs.BasisView.{declared_by};
ghost use Rattle.plain_build.specs.RangesView.{ranges_of};
ghost use Rattle.build_form.specs.WellBuilt.{IsTypedArrival, AreWaiting};

use crate::basis::Basis;
use crate::partners::{Arrival, arrivals, same_arrival};
use crate::ranges::Ranges;
use crate::steps::next_waiting;
use crate::walk::BuildWalk;
use build_form::{BuildRole, build_role_of};
use plain_layout::live_range;
use sliver_layout::Window;
use std::alloc::{AllocError, Global};
use widget_model::Widget;

// Whether a child of a lazy list stays while it isn't near what is seen.
fn stays(arrival: &Arrival<'_>) -> bool
    ensures { result ≡ stays (plain_arrival arrival.now) }
{
    match build_role_of(&arrival.widget.kind) {
        BuildRole::Keeps(kept) => kept && arrival.beside.is_some(),
        BuildRole::Composes { .. }
        | BuildRole::Provides { .. }
        | BuildRole::Lists(_)
        | BuildRole::Holds => false,
    }
}

// Whether a child of a lazy list is there.
fn is_item(live: Window, arrival: &Arrival<'_>) -> bool
    ensures { result ≡ (is_among live arrival.now.place || stays (plain_arrival arrival.now)) }
{
    if live.first <= arrival.place && arrival.place < live.end {
        return true;
    }
    stays(arrival)
}

// The children that are there.
fn items_among<'a>(
    alloc: Global,
    live: Window,
    arriving: &[Arrival<'a>],
) -> Result<Vec<Arrival<'a>>, AllocError>
    ensures { IfOk result (λ v. map plain_arrival v.items ≡ items live (map plain_arrival arriving.now)) }
{
    let mut items = Vec::new(alloc);
    for i in 0..arriving.len() {
        let arrival = &arriving[i];
        if is_item(live, arrival) {
            items.push(same_arrival(arrival)?)?;
        }
    }
    Ok(items)
}

/// The items of the lazy list with a number, whose children have an extent: those that are near what is seen, and those
/// that stay. What it goes on from waits no longer.
pub(crate) fn items<'a>(
    from: &Basis<'a>,
    ranges: &Ranges,
    number: u64,
    extent: u64,
    widget: &Widget,
    walk: &mut BuildWalk<'a>,
) -> Result<Vec<Arrival<'a>>, AllocError>
    requires typed { IsTypedWidget (declared_by from.now) (plain_of widget.now) }
    requires lists { build_role_of (look_in widget.now.kind) ≡ lists extent }
    requires waiting { AreWaiting (declared_by from.now) (map lent walk.old.waiting.items) }
    ensures items { IfOk result (λ v. map plain_arrival v.items ≡ items (ranges_of ranges.now number extent (length widget.now.children)) (arrivals (next_waiting (map lent walk.old.waiting.items)) widget.now.children)) }
    ensures served { OnOk result (progress_of walk.new ≡ one_served (progress_of walk.old)) }
    ensures waiting { OnOk result (AreWaiting (declared_by from.now) (map lent walk.new.waiting.items)) }
    ensures typed { IfOk result (λ v. All (IsTypedArrival (declared_by from.now)) (map plain_arrival v.items)) }
    ensures boxes { IfOk result (λ v. All (λ a. sort_of (declared_by from.now) a.widget ≡ box) (map plain_arrival v.items)) }
{
    let partner = next_waiting(walk);
    let widgets = widget.children.get();
    let view = ranges.views.get(&number).copied();
    let live = live_range(view, extent, widgets.len() as u64, ranges.widen);
    let arriving = arrivals(from.alloc, partner, widgets)?;
    items_among(from.alloc, live, arriving.as_slice())
}
