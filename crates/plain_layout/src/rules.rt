// The rules that depend on delegates.
ghost use Rattle.std.specs.Prelude.{◌≡◌, Some, map, IfOk, OnOk};
ghost use Rattle.fx_geom.specs.Size.{HasLengths};
ghost use Rattle.delegates.specs.Meaning.{Meaning};
ghost use Rattle.delegates.specs.Table.{meant_in};
ghost use Rattle.widget_model.specs.View.{look_in};
ghost use Rattle.layout_form.specs.Fits.{CanBeLaidOut, data_of};
ghost use Rattle.layout_form.specs.Layout.{object, is_plugged, delegate_of};
ghost use Rattle.layout_form.specs.Object.{setting_of, only_of};
ghost use Rattle.layout_form.specs.Protocol.{present};
ghost use Rattle.layout_form.specs.Frames.{frames_in, frames_given};
ghost use Rattle.kind_rules.specs.Few.{items_of};
ghost use Rattle.kind_rules.specs.Asks.{asks_of};
ghost use Rattle.kind_rules.specs.Asked.{liked_for, first_for, found_of, ruling_for, AreLong, IsOffset, IsWalk};
ghost use Rattle.kind_rules.specs.Cursor.{look_of, count_in, children_of};
ghost use Rattle.plain_layout.specs.Computed.{number_of, laid_by};

use crate::answers::placed;
use crate::family::Siblings;
use crate::opened::children_of;
use crate::place::{RenderPlace, lazy_count};
use delegates::{Delegate, DelegateTable};
use fx_geom::Scale;
use kind_rules::{Asks, Few, Found, first_asked, liked_for, made_of};
use layout_form::Ask;
use plain_tree::{Facts, LaidNode, RenderNode};
use std::alloc::{AllocError, Global};
use std::rc::Rc;
use widget_model::Kind;

// Who is asked first.
pub(crate) fn first(
    alloc: Global,
    node: &RenderNode,
    ask: Ask,
    slots: &Few<Option<LaidNode>>,
    scale: Scale,
    table: &DelegateTable,
) -> Result<Asks, AllocError>
    requires { CanBeLaidOut node.now }
    ensures { IfOk result (λ v. asks_of v ≡ first_for (setting_of scale (meant_in table.now ⟦<dyn Delegate as Delegate>⟧)) (look_of node.now) (count_in node.now) ask
        (liked_for (look_of node.now) ask (only_of (map (object (setting_of scale (meant_in table.now ⟦<dyn Delegate as Delegate>⟧))) (children_of node.now)))) (map data_of (children_of node.now))) }
{
    let kind = &node.widget.kind;
    let liked = liked_for(alloc, kind, ask, RenderPlace { node }, scale)?;
    let family = Siblings {
        children: children_of(node),
        slots: slots.as_slice(),
    };
    first_asked(
        alloc,
        kind,
        lazy_count(&node.widget),
        ask,
        liked,
        family,
        scale,
        table,
    )
}

// What is made of the answers: the children stand at the places that the rule makes.
pub(crate) fn finish(
    alloc: Global,
    node: &RenderNode,
    ask: Ask,
    found: Found,
    slots: Few<Option<LaidNode>>,
    slot: &mut Option<LaidNode>,
    scale: Scale,
    table: &DelegateTable,
) -> Result<(), AllocError>
    requires fits { CanBeLaidOut node.now }
    requires sizes { AreLong ask (frames_given (frames_in (items_of slots))) }
    requires stack { HasLengths found.size }
    requires offset { IsOffset ask }
    requires walk { IsWalk (look_of node.now) ask found.start (frames_given (frames_in (items_of slots))) }
    ensures { OnOk result (slot.new ≡ Some (laid_by (setting_of scale (meant_in table.now ⟦<dyn Delegate as Delegate>⟧)) (number_of node.now) (look_of node.now)
        (ruling_for (setting_of scale (meant_in table.now ⟦<dyn Delegate as Delegate>⟧)) (look_of node.now) (count_in node.now) ask (found_of found) (map data_of (children_of node.now)) (frames_in (items_of slots)))
        (present (items_of slots)))) }
{
    let kind = &node.widget.kind;
    let family = Siblings {
        children: children_of(node),
        slots: slots.as_slice(),
    };
    let made = made_of(
        alloc,
        kind,
        lazy_count(&node.widget),
        ask,
        found,
        family,
        scale,
        table,
    )?;
    let children = placed(alloc, made.places.as_slice(), slots)?;
    *slot = Some(LaidNode {
        number: node.number,
        widget: Rc::clone(&node.widget)?,
        facts: Facts {
            frame: made.frame,
            notes: made.notes,
            plugged: is_plugged(kind, scale, table),
            scrolled: made.scrolled,
        },
        children,
    });
    Ok(())
}

// Whether the delegate of a kind is plugged.
pub(crate) fn is_plugged(kind: &Kind, scale: Scale, table: &DelegateTable) -> bool
    ensures { result ≡ is_plugged (setting_of scale (meant_in table.now ⟦<dyn Delegate as Delegate>⟧)).delegates (delegate_of (look_in kind.now)) }
{
    match kind {
        Kind::CustomPaint { delegate } | Kind::CustomLayout { delegate } => table.has(
            delegate.get(),
        ),
        Kind::SizedBox { .. }
        | Kind::ConstrainedBox { .. }
        | Kind::Padding { .. }
        | Kind::Align { .. }
        | Kind::ColoredBox { .. }
        | Kind::Text { .. }
        | Kind::Row { .. }
        | Kind::Column { .. }
        | Kind::Wrap { .. }
        | Kind::Table { .. }
        | Kind::Stack { .. }
        | Kind::Flexible { .. }
        | Kind::Positioned { .. }
        | Kind::Opacity { .. }
        | Kind::ClipRect
        | Kind::RepaintBoundary
        | Kind::MergeSemantics
        | Kind::IntrinsicWidth
        | Kind::IntrinsicHeight
        | Kind::Offstage { .. }
        | Kind::IgnorePointer { .. }
        | Kind::AbsorbPointer { .. }
        | Kind::Detector { .. }
        | Kind::Semantics { .. }
        | Kind::ExcludeSemantics { .. }
        | Kind::Viewport { .. }
        | Kind::SliverToBox
        | Kind::SliverPadding { .. }
        | Kind::SliverFixed { .. }
        | Kind::SliverLazy { .. }
        | Kind::Keep { .. }
        | Kind::Inherit { .. }
        | Kind::Use { .. } => false,
    }
}
