// Builds that are grown from rows.
ghost use Rattle.std.specs.Prelude.{◌≡◌, ◌∷◌, false, IfOk, OnOk};
ghost use Rattle.widget_model.specs.View.{look_in};
ghost use Rattle.work_roles.specs.WorkRole.{is_repaint_boundary};
ghost use Rattle.plain_tree.specs.Laws.{render_numbers_of, render_numbers_in};
ghost use Rattle.plain_tree.specs.Render.{renders_of};
ghost use Rattle.plain_tree.specs.RenderRole.{render_role_of, is_window};
ghost use Rattle.layout_form.specs.Fits.{FitsLayout};
ghost use Rattle.worked_calls.specs.Grown.{is_edge, scrolls, IsModest, IsFine, AreFine, AreGrown, IsGrown};

use crate::elements::shared;
use fx_expr::Txt;
use fx_geom::{Axis, CrossAlign, MainAlign};
use plain_tree::{ParentData, RenderNode};
use std::alloc::{AllocError, Global};
use std::mem::replace;
use std::test::Fail;
use widget_model::{Kind, MainSize};

// The widget of a node.
#[derive(Clone, Copy)]
pub(crate) enum Look {
    // The child at the left upper corner.
    Corner,
    Row,
    Color(u32),
    Sized(u64, u64),
    High(u64),
    Padding(u64),
    Clip,
    Intrinsic,
    Offstage(bool),
    // What the delegate of this name paints.
    Bars(&'static str),
    // A repaint boundary, which has the number 5 or 6.
    Edge,
    // It has the number 9.
    Viewport,
    ToBox,
    // A list of boxes of 20.
    List,
}

// A node, before those below it: its number, its widget, and how many children it has.
pub(crate) type Row = (u64, Look, usize);

// A build: what changes, with what stands before it and after it.
pub(crate) type Scene = (&'static [Row], &'static [Row], &'static [Row]);

const NO_DATA: ParentData = ParentData {
    flex: 0,
    tight: false,
    placed: None,
    index: 0,
};

fn painted(alloc: Global, name: &str) -> Result<Kind, AllocError>
    ensures { IfOk result (λ k. IsModest (look_in k)) }
{
    let delegate = Txt::of(String::from_str(alloc, name)?);
    Ok(Kind::CustomPaint { delegate })
}

fn sized(width: Option<u64>, height: Option<u64>) -> Kind
    ensures { IsModest (look_in result) }
{
    Kind::SizedBox { width, height }
}

// Neither a repaint boundary nor a Viewport.
fn modest(alloc: Global, look: Look) -> Result<Kind, AllocError>
    ensures { IfOk result (λ k. IsModest (look_in k)) }
{
    match look {
        Look::Corner => Ok(Kind::Align { ax: -100, ay: -100 }),
        Look::Row => Ok(Kind::Row {
            main: MainAlign::Start,
            cross: CrossAlign::Start,
            size: MainSize::Min,
        }),
        Look::Color(color) => Ok(Kind::ColoredBox { color }),
        Look::Sized(w, h) => Ok(sized(Some(w), Some(h))),
        Look::High(h) => Ok(sized(None, Some(h))),
        Look::Padding(by) => Ok(Kind::Padding {
            left: by,
            top: by,
            right: by,
            bottom: by,
        }),
        Look::Intrinsic => Ok(Kind::IntrinsicWidth),
        Look::Offstage(offstage) => Ok(Kind::Offstage { offstage }),
        Look::Bars(name) => painted(alloc, name),
        Look::ToBox => Ok(Kind::SliverToBox),
        Look::List => Ok(Kind::SliverFixed { extent: 20 }),
        Look::Clip | Look::Edge | Look::Viewport => Ok(Kind::ClipRect),
    }
}

// The kind of a node, which its number tells in part.
fn kind(alloc: Global, number: u64, look: Look) -> Result<Kind, Fail>
    ensures fits { IfOk result (λ k. FitsLayout (look_in k)) }
    ensures edge { IfOk result (λ k. is_repaint_boundary (look_in k) ≡ is_edge number) }
    ensures window { IfOk result (λ k. is_window (render_role_of (look_in k)) ≡ scrolls number) }
{
    let edge = number == 5 || number == 6;
    match (look, edge, number == 9) {
        (Look::Edge, true, false) => Ok(Kind::RepaintBoundary),
        (Look::Viewport, false, true) => Ok(Kind::Viewport {
            axis: Axis::Vertical,
        }),
        (_, false, false) => Ok(modest(alloc, look)?),
        _ => Err("a number of another kind".into()),
    }
}

// A node with these nodes below it. The Viewport is scrolled so far.
fn node(
    alloc: Global,
    scroll: u64,
    number: u64,
    look: Look,
    children: Vec<RenderNode>,
) -> Result<RenderNode, Fail>
    requires { AreFine scroll children.items }
    ensures fine { IfOk result (λ r. IsFine scroll r) }
    ensures numbers { IfOk result (λ r. render_numbers_of r ≡ number ∷ render_numbers_in (renders_of children.items)) }
{
    if children.len() > 9 {
        return Err("too many children".into());
    }
    let widget = shared(alloc, kind(alloc, number, look)?)?;
    let scroll = if number == 9 { scroll } else { 0 };
    Ok(RenderNode {
        number,
        widget,
        parent_data: NO_DATA,
        scroll,
        children,
    })
}

// Adds a node in front of others, the first of which are below it.
fn add(
    alloc: Global,
    scroll: u64,
    row: Row,
    nodes: &mut Vec<RenderNode>,
    numbers: &mut Vec<u64>,
) -> Result<(), Fail>
    requires { AreGrown scroll nodes.old.items numbers.old.items }
    ensures { OnOk result (AreGrown scroll nodes.new.items numbers.new.items) }
{
    let (number, look, children) = row;
    if nodes.len() < children {
        return Err("too few nodes".into());
    }
    if numbers.contains(&number) {
        return Err("a number stands twice".into());
    }
    let others = nodes.split_off(children)?;
    let below = replace(nodes, others);
    nodes.insert(0, node(alloc, scroll, number, look, below)?)?;
    numbers.insert(0, number)?;
    Ok(())
}

fn add_all(
    alloc: Global,
    scroll: u64,
    rows: &[Row],
    nodes: &mut Vec<RenderNode>,
    numbers: &mut Vec<u64>,
) -> Result<(), Fail>
    requires { AreGrown scroll nodes.old.items numbers.old.items }
    ensures { OnOk result (AreGrown scroll nodes.new.items numbers.new.items) }
{
    for row in rows.iter().rev() {
        add(alloc, scroll, *row, nodes, numbers)?;
    }
    Ok(())
}

// The build, and its number of nodes.
pub(crate) fn build(alloc: Global, scroll: u64, scene: Scene) -> Result<(RenderNode, usize), Fail>
    ensures { IfOk result (λ p. IsGrown scroll p.0 p.1) }
{
    let mut nodes = Vec::new(alloc);
    let mut numbers = Vec::new(alloc);
    for rows in [scene.2, scene.1, scene.0] {
        add_all(alloc, scroll, rows, &mut nodes, &mut numbers)?;
    }
    let count = numbers.len();
    match (nodes.pop(), nodes.is_empty()) {
        (Some(top), true) => Ok((top, count)),
        _ => Err("not one tree".into()),
    }
}
