// Whether two kinds are the same kind with equal members. What is in slots is compared with the children.
ghost use Rattle.std.specs.Prelude.{◌≡◌, ◌↔◌, IsTrue};
ghost use Rattle.widget_model.specs.Family.{family_of, sizing, placing, painting, passing, saying, gestures, delegated, flexed, tabled, stacked, scrolled, listed, composed};
ghost use Rattle.widget_model.specs.View.{look_in};

use crate::decl::{Decl, FieldList, NameList};
use crate::widgets::Kind;
use fx_expr::{Handler, IntList, same_handler, same_value, same_values};

/// Whether two kinds are the same kind with equal members and callbacks, whatever is in their slots.
pub fn same_look(a: &Kind, b: &Kind) -> bool
    ensures { IsTrue result ↔ (look_in a.now ≡ look_in b.now) }
{
    match a {
        Kind::SizedBox { .. } | Kind::ConstrainedBox { .. } => same_sizing(a, b),
        Kind::Padding { .. } | Kind::Align { .. } => same_placing(a, b),
        Kind::ColoredBox { .. }
        | Kind::Text { .. }
        | Kind::Opacity { .. }
        | Kind::ClipRect
        | Kind::RepaintBoundary => same_painting(a, b),
        Kind::IntrinsicWidth
        | Kind::IntrinsicHeight
        | Kind::Offstage { .. }
        | Kind::IgnorePointer { .. }
        | Kind::AbsorbPointer { .. } => same_passing(a, b),
        Kind::Semantics { .. } | Kind::MergeSemantics | Kind::ExcludeSemantics { .. } =>
            same_saying(a, b),
        Kind::Detector { .. } => same_gestures(a, b),
        Kind::CustomPaint { .. } | Kind::CustomLayout { .. } => same_delegated(a, b),
        Kind::Row { .. } | Kind::Column { .. } | Kind::Flexible { .. } => same_flexed(a, b),
        Kind::Wrap { .. } | Kind::Table { .. } => same_tabled(a, b),
        Kind::Stack { .. } | Kind::Positioned { .. } => same_stacked(a, b),
        Kind::Viewport { .. } | Kind::SliverToBox | Kind::SliverPadding { .. } => same_scrolled(
            a, b,
        ),
        Kind::SliverFixed { .. } | Kind::SliverLazy { .. } | Kind::Keep { .. } => same_listed(a, b),
        Kind::Inherit { .. } | Kind::Use { .. } => same_composed(a, b),
    }
}

// Of boxes of a size or bounds of their own.
fn same_sizing(a: &Kind, b: &Kind) -> bool
    requires { family_of (look_in a.now) ≡ sizing }
    ensures { IsTrue result ↔ (look_in a.now ≡ look_in b.now) }
{
    match (a, b) {
        (
            Kind::SizedBox { width, height },
            Kind::SizedBox {
                width: other_width,
                height: other_height,
            },
        ) => width == other_width && height == other_height,
        (
            Kind::ConstrainedBox {
                min_width,
                max_width,
                min_height,
                max_height,
            },
            Kind::ConstrainedBox {
                min_width: other_min_width,
                max_width: other_max_width,
                min_height: other_min_height,
                max_height: other_max_height,
            },
        ) => min_width == other_min_width
            && max_width == other_max_width
            && min_height == other_min_height
            && max_height == other_max_height,
        _ => false,
    }
}

// Of boxes that give their child a place.
fn same_placing(a: &Kind, b: &Kind) -> bool
    requires { family_of (look_in a.now) ≡ placing }
    ensures { IsTrue result ↔ (look_in a.now ≡ look_in b.now) }
{
    match (a, b) {
        (
            Kind::Padding {
                left,
                top,
                right,
                bottom,
            },
            Kind::Padding {
                left: other_left,
                top: other_top,
                right: other_right,
                bottom: other_bottom,
            },
        ) => left == other_left
            && top == other_top
            && right == other_right
            && bottom == other_bottom,
        (
            Kind::Align { ax, ay },
            Kind::Align {
                ax: other_ax,
                ay: other_ay,
            },
        ) => ax == other_ax && ay == other_ay,
        _ => false,
    }
}

// Of boxes that are painted, or say how their child is.
fn same_painting(a: &Kind, b: &Kind) -> bool
    requires { family_of (look_in a.now) ≡ painting }
    ensures { IsTrue result ↔ (look_in a.now ≡ look_in b.now) }
{
    match (a, b) {
        (Kind::ColoredBox { color }, Kind::ColoredBox { color: other_color }) => color
            == other_color,
        (
            Kind::Text { text, color },
            Kind::Text {
                text: other_text,
                color: other_color,
            },
        ) => text == other_text && color == other_color,
        (Kind::Opacity { alpha }, Kind::Opacity { alpha: other_alpha }) => alpha == other_alpha,
        (Kind::ClipRect, Kind::ClipRect) => true,
        (Kind::RepaintBoundary, Kind::RepaintBoundary) => true,
        _ => false,
    }
}

// Of boxes that ask their child how large it would be, or hide it from something.
fn same_passing(a: &Kind, b: &Kind) -> bool
    requires { family_of (look_in a.now) ≡ passing }
    ensures { IsTrue result ↔ (look_in a.now ≡ look_in b.now) }
{
    match (a, b) {
        (Kind::IntrinsicWidth, Kind::IntrinsicWidth) => true,
        (Kind::IntrinsicHeight, Kind::IntrinsicHeight) => true,
        (
            Kind::Offstage { offstage },
            Kind::Offstage {
                offstage: other_offstage,
            },
        ) => offstage == other_offstage,
        (
            Kind::IgnorePointer { ignoring },
            Kind::IgnorePointer {
                ignoring: other_ignoring,
            },
        ) => ignoring == other_ignoring,
        (
            Kind::AbsorbPointer { absorbing },
            Kind::AbsorbPointer {
                absorbing: other_absorbing,
            },
        ) => absorbing == other_absorbing,
        _ => false,
    }
}

// Of boxes that speak to a reader of the screen.
fn same_saying(a: &Kind, b: &Kind) -> bool
    requires { family_of (look_in a.now) ≡ saying }
    ensures { IsTrue result ↔ (look_in a.now ≡ look_in b.now) }
{
    match (a, b) {
        (
            Kind::Semantics {
                label,
                button,
                container,
            },
            Kind::Semantics {
                label: other_label,
                button: other_button,
                container: other_container,
            },
        ) => label == other_label && button == other_button && container == other_container,
        (Kind::MergeSemantics, Kind::MergeSemantics) => true,
        (
            Kind::ExcludeSemantics { excluding },
            Kind::ExcludeSemantics {
                excluding: other_excluding,
            },
        ) => excluding == other_excluding,
        _ => false,
    }
}

// Of detectors.
fn same_gestures(a: &Kind, b: &Kind) -> bool
    requires { family_of (look_in a.now) ≡ gestures }
    ensures { IsTrue result ↔ (look_in a.now ≡ look_in b.now) }
{
    match (a, b) {
        (
            Kind::Detector {
                behavior,
                tap,
                long,
                vertical,
                horizontal,
                pan,
            },
            Kind::Detector {
                behavior: other_behavior,
                tap: other_tap,
                long: other_long,
                vertical: other_vertical,
                horizontal: other_horizontal,
                pan: other_pan,
            },
        ) => behavior == other_behavior
            && same_gesture(tap, other_tap)
            && same_gesture(long, other_long)
            && same_gesture(vertical, other_vertical)
            && same_gesture(horizontal, other_horizontal)
            && same_gesture(pan, other_pan),
        _ => false,
    }
}

// Of boxes with a delegate.
fn same_delegated(a: &Kind, b: &Kind) -> bool
    requires { family_of (look_in a.now) ≡ delegated }
    ensures { IsTrue result ↔ (look_in a.now ≡ look_in b.now) }
{
    match (a, b) {
        (
            Kind::CustomPaint { delegate },
            Kind::CustomPaint {
                delegate: other_delegate,
            },
        ) => delegate == other_delegate,
        (
            Kind::CustomLayout { delegate },
            Kind::CustomLayout {
                delegate: other_delegate,
            },
        ) => delegate == other_delegate,
        _ => false,
    }
}

// Of children in a line.
fn same_flexed(a: &Kind, b: &Kind) -> bool
    requires { family_of (look_in a.now) ≡ flexed }
    ensures { IsTrue result ↔ (look_in a.now ≡ look_in b.now) }
{
    match (a, b) {
        (
            Kind::Row { main, cross, size },
            Kind::Row {
                main: other_main,
                cross: other_cross,
                size: other_size,
            },
        ) => main == other_main && cross == other_cross && size == other_size,
        (
            Kind::Column { main, cross, size },
            Kind::Column {
                main: other_main,
                cross: other_cross,
                size: other_size,
            },
        ) => main == other_main && cross == other_cross && size == other_size,
        (
            Kind::Flexible { flex, fit },
            Kind::Flexible {
                flex: other_flex,
                fit: other_fit,
            },
        ) => flex == other_flex && fit == other_fit,
        _ => false,
    }
}

// Of children in several lines.
fn same_tabled(a: &Kind, b: &Kind) -> bool
    requires { family_of (look_in a.now) ≡ tabled }
    ensures { IsTrue result ↔ (look_in a.now ≡ look_in b.now) }
{
    match (a, b) {
        (
            Kind::Wrap {
                spacing,
                run_spacing,
            },
            Kind::Wrap {
                spacing: other_spacing,
                run_spacing: other_run_spacing,
            },
        ) => spacing == other_spacing && run_spacing == other_run_spacing,
        (
            Kind::Table { widths },
            Kind::Table {
                widths: other_widths,
            },
        ) => same_widths(widths, other_widths),
        _ => false,
    }
}

// Of children on top of one another.
fn same_stacked(a: &Kind, b: &Kind) -> bool
    requires { family_of (look_in a.now) ≡ stacked }
    ensures { IsTrue result ↔ (look_in a.now ≡ look_in b.now) }
{
    match (a, b) {
        (
            Kind::Stack { ax, ay, fit },
            Kind::Stack {
                ax: other_ax,
                ay: other_ay,
                fit: other_fit,
            },
        ) => ax == other_ax && ay == other_ay && fit == other_fit,
        (
            Kind::Positioned {
                left,
                top,
                right,
                bottom,
                width,
                height,
            },
            Kind::Positioned {
                left: other_left,
                top: other_top,
                right: other_right,
                bottom: other_bottom,
                width: other_width,
                height: other_height,
            },
        ) => same_pair((*left, *right), (*other_left, *other_right))
            && same_pair((*top, *bottom), (*other_top, *other_bottom))
            && width == other_width
            && height == other_height,
        _ => false,
    }
}

// Of what is scrolled.
fn same_scrolled(a: &Kind, b: &Kind) -> bool
    requires { family_of (look_in a.now) ≡ scrolled }
    ensures { IsTrue result ↔ (look_in a.now ≡ look_in b.now) }
{
    match (a, b) {
        (Kind::Viewport { axis }, Kind::Viewport { axis: other_axis }) => axis == other_axis,
        (Kind::SliverToBox, Kind::SliverToBox) => true,
        (
            Kind::SliverPadding {
                left,
                top,
                right,
                bottom,
            },
            Kind::SliverPadding {
                left: other_left,
                top: other_top,
                right: other_right,
                bottom: other_bottom,
            },
        ) => left == other_left
            && top == other_top
            && right == other_right
            && bottom == other_bottom,
        _ => false,
    }
}

// Of scrolled lists.
fn same_listed(a: &Kind, b: &Kind) -> bool
    requires { family_of (look_in a.now) ≡ listed }
    ensures { IsTrue result ↔ (look_in a.now ≡ look_in b.now) }
{
    match (a, b) {
        (
            Kind::SliverFixed { extent },
            Kind::SliverFixed {
                extent: other_extent,
            },
        ) => extent == other_extent,
        (
            Kind::SliverLazy { extent },
            Kind::SliverLazy {
                extent: other_extent,
            },
        ) => extent == other_extent,
        (Kind::Keep { keep }, Kind::Keep { keep: other_keep }) => keep == other_keep,
        _ => false,
    }
}

// Of what is no box of its own.
fn same_composed(a: &Kind, b: &Kind) -> bool
    requires { family_of (look_in a.now) ≡ composed }
    ensures { IsTrue result ↔ (look_in a.now ≡ look_in b.now) }
{
    match (a, b) {
        (
            Kind::Inherit { name, value },
            Kind::Inherit {
                name: other_name,
                value: other_value,
            },
        ) => name == other_name && same_value(value, other_value),
        (
            Kind::Use {
                component,
                props,
                decl,
                ..
            },
            Kind::Use {
                component: other_component,
                props: other_props,
                decl: other_decl,
                ..
            },
        ) => component == other_component
            && same_values(props, other_props)
            && same_decl(decl, other_decl),
        _ => false,
    }
}

// Whether two pairs of places are the same.
fn same_pair(a: (Option<i64>, Option<i64>), b: (Option<i64>, Option<i64>)) -> bool
    ensures { IsTrue result ↔ (a ≡ b) }
{
    a.0 == b.0 && a.1 == b.1
}

// Whether two lists of widths are the same.
fn same_widths(a: &IntList, b: &IntList) -> bool
    ensures { IsTrue result ↔ (a.now ≡ b.now) }
{
    a.get() == b.get()
}

// Whether two declarations are the same.
fn same_decl(a: &Decl, b: &Decl) -> bool
    ensures { IsTrue result ↔ (a.now ≡ b.now) }
{
    if a.name != b.name {
        return false;
    }
    if !same_fields(&a.fields, &b.fields) {
        return false;
    }
    same_names(&a.inherited, &b.inherited)
}

// Whether two lists of fields are the same.
fn same_fields(a: &FieldList, b: &FieldList) -> bool
    ensures { IsTrue result ↔ (a.now ≡ b.now) }
{
    a.get() == b.get()
}

// Whether two lists of names are the same.
fn same_names(a: &NameList, b: &NameList) -> bool
    ensures { IsTrue result ↔ (a.now ≡ b.now) }
{
    a.get() == b.get()
}

// Whether two members are the same handler, or both absent.
fn same_gesture(a: &Option<Handler>, b: &Option<Handler>) -> bool
    ensures { IsTrue result ↔ (a.now ≡ b.now) }
{
    match (a, b) {
        (Some(a), Some(b)) => same_handler(a, b),
        (None, None) => true,
        _ => false,
    }
}
