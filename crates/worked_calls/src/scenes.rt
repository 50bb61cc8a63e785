// What the tables of screens show: builds, and what stands round them.
use crate::builds::{Look, Row, Scene};

const RED: Look = Look::Color(0xffff0000);

const GREEN: Look = Look::Color(0xff00ff00);

// ---- what changes: two boxes in a Row, each round a box of a size, the second one also round a repaint boundary, which has a box in a
// color and the box `b` in it

const BASE: &[Row] = &[
    (20, Look::Row, 2),
    (25, Look::Bars("c"), 1),
    (26, Look::Sized(7, 5), 0),
    (21, Look::Bars("a"), 1),
    (5, Look::Edge, 1),
    (22, RED, 1),
    (23, Look::Bars("b"), 1),
    (24, Look::Sized(8, 8), 0),
];

// The box in a color has another one.
const RECOLORED: &[Row] = &[
    (20, Look::Row, 2),
    (25, Look::Bars("c"), 1),
    (26, Look::Sized(7, 5), 0),
    (21, Look::Bars("a"), 1),
    (5, Look::Edge, 1),
    (22, GREEN, 1),
    (23, Look::Bars("b"), 1),
    (24, Look::Sized(8, 8), 0),
];

// It is a clip instead, in the same bounds and of the same size.
const CLIPPED: &[Row] = &[
    (20, Look::Row, 2),
    (25, Look::Bars("c"), 1),
    (26, Look::Sized(7, 5), 0),
    (21, Look::Bars("a"), 1),
    (5, Look::Edge, 1),
    (22, Look::Clip, 1),
    (23, Look::Bars("b"), 1),
    (24, Look::Sized(8, 8), 0),
];

// It is a Padding, so that what is in it has other bounds, where these have an end.
const PADDED: &[Row] = &[
    (20, Look::Row, 2),
    (25, Look::Bars("c"), 1),
    (26, Look::Sized(7, 5), 0),
    (21, Look::Bars("a"), 1),
    (5, Look::Edge, 1),
    (22, Look::Padding(1), 1),
    (23, Look::Bars("b"), 1),
    (24, Look::Sized(8, 8), 0),
];

// What is in it is wider.
const WIDER: &[Row] = &[
    (20, Look::Row, 2),
    (25, Look::Bars("c"), 1),
    (26, Look::Sized(7, 5), 0),
    (21, Look::Bars("a"), 1),
    (5, Look::Edge, 1),
    (22, RED, 1),
    (23, Look::Bars("b"), 1),
    (24, Look::Sized(11, 8), 0),
];

// The first box is wider, so that the second one, with the repaint boundary, stands elsewhere.
const MOVED: &[Row] = &[
    (20, Look::Row, 2),
    (25, Look::Bars("c"), 1),
    (26, Look::Sized(9, 5), 0),
    (21, Look::Bars("a"), 1),
    (5, Look::Edge, 1),
    (22, RED, 1),
    (23, Look::Bars("b"), 1),
    (24, Look::Sized(8, 8), 0),
];

const SWAPPED: &[Row] = &[
    (20, Look::Row, 2),
    (21, Look::Bars("a"), 1),
    (5, Look::Edge, 1),
    (22, RED, 1),
    (23, Look::Bars("b"), 1),
    (24, Look::Sized(8, 8), 0),
    (25, Look::Bars("c"), 1),
    (26, Look::Sized(7, 5), 0),
];

const SWAPPED_GREEN: &[Row] = &[
    (20, Look::Row, 2),
    (21, Look::Bars("a"), 1),
    (5, Look::Edge, 1),
    (22, GREEN, 1),
    (23, Look::Bars("b"), 1),
    (24, Look::Sized(8, 8), 0),
    (25, Look::Bars("c"), 1),
    (26, Look::Sized(7, 5), 0),
];

// There is a box more, in front of both.
const ADDED: &[Row] = &[
    (20, Look::Row, 3),
    (28, GREEN, 1),
    (29, Look::Sized(3, 3), 0),
    (25, Look::Bars("c"), 1),
    (26, Look::Sized(7, 5), 0),
    (21, Look::Bars("a"), 1),
    (5, Look::Edge, 1),
    (22, RED, 1),
    (23, Look::Bars("b"), 1),
    (24, Look::Sized(8, 8), 0),
];

// The first box is gone, or the second one.
const FIRST_GONE: &[Row] = &[
    (20, Look::Row, 1),
    (21, Look::Bars("a"), 1),
    (5, Look::Edge, 1),
    (22, RED, 1),
    (23, Look::Bars("b"), 1),
    (24, Look::Sized(8, 8), 0),
];

const SECOND_GONE: &[Row] = &[
    (20, Look::Row, 1),
    (25, Look::Bars("c"), 1),
    (26, Look::Sized(7, 5), 0),
];

// Another repaint boundary stands for the one that was there.
const REPLACED: &[Row] = &[
    (20, Look::Row, 2),
    (25, Look::Bars("c"), 1),
    (26, Look::Sized(7, 5), 0),
    (21, Look::Bars("a"), 1),
    (6, Look::Edge, 1),
    (32, GREEN, 1),
    (33, Look::Bars("b"), 1),
    (34, Look::Sized(8, 8), 0),
];

// The repaint boundary stands first in the Row, without the second box, and what is in it has one width or another one.
const BOUNDARY_FIRST: &[Row] = &[
    (20, Look::Row, 2),
    (5, Look::Edge, 1),
    (23, Look::Bars("b"), 1),
    (24, Look::Sized(8, 8), 0),
    (25, Look::Bars("c"), 1),
    (26, Look::Sized(7, 5), 0),
];

const BOUNDARY_FIRST_WIDER: &[Row] = &[
    (20, Look::Row, 2),
    (5, Look::Edge, 1),
    (23, Look::Bars("b"), 1),
    (24, Look::Sized(11, 8), 0),
    (25, Look::Bars("c"), 1),
    (26, Look::Sized(7, 5), 0),
];

// A repaint boundary in a repaint boundary, with a box in a color in it, which has another color.
const NESTED: &[Row] = &[
    (20, Look::Row, 1),
    (21, Look::Bars("a"), 1),
    (5, Look::Edge, 1),
    (25, Look::Bars("c"), 1),
    (6, Look::Edge, 1),
    (22, RED, 1),
    (23, Look::Bars("b"), 1),
    (24, Look::Sized(8, 8), 0),
];

const NESTED_RECOLORED: &[Row] = &[
    (20, Look::Row, 1),
    (21, Look::Bars("a"), 1),
    (5, Look::Edge, 1),
    (25, Look::Bars("c"), 1),
    (6, Look::Edge, 1),
    (22, GREEN, 1),
    (23, Look::Bars("b"), 1),
    (24, Look::Sized(8, 8), 0),
];

// A repaint boundary alone, with a box in a color in it, which has another color.
const BOUNDARY: &[Row] = &[
    (5, Look::Edge, 1),
    (22, RED, 1),
    (23, Look::Bars("b"), 1),
    (24, Look::Sized(8, 8), 0),
];

const BOUNDARY_GREEN: &[Row] = &[
    (5, Look::Edge, 1),
    (22, GREEN, 1),
    (23, Look::Bars("b"), 1),
    (24, Look::Sized(8, 8), 0),
];

// A Row without any.
const NO_BOUNDARY: &[Row] = &[(20, Look::Row, 1), (29, Look::Sized(3, 3), 0)];

// One of these.
#[derive(Clone, Copy)]
pub(crate) enum Shape {
    Base,
    Recolored,
    Clipped,
    Padded,
    Wider,
    Moved,
    Swapped,
    SwappedGreen,
    Added,
    FirstGone,
    SecondGone,
    Replaced,
    BoundaryFirst,
    BoundaryFirstWider,
    Nested,
    NestedRecolored,
    Boundary,
    BoundaryGreen,
    NoBoundary,
}

fn rows_of(shape: Shape) -> &'static [Row] {
    match shape {
        Shape::Base => BASE,
        Shape::Recolored => RECOLORED,
        Shape::Clipped => CLIPPED,
        Shape::Padded => PADDED,
        Shape::Wider => WIDER,
        Shape::Moved => MOVED,
        Shape::Swapped => SWAPPED,
        Shape::SwappedGreen => SWAPPED_GREEN,
        Shape::Added => ADDED,
        Shape::FirstGone => FIRST_GONE,
        Shape::SecondGone => SECOND_GONE,
        Shape::Replaced => REPLACED,
        Shape::BoundaryFirst => BOUNDARY_FIRST,
        Shape::BoundaryFirstWider => BOUNDARY_FIRST_WIDER,
        Shape::Nested => NESTED,
        Shape::NestedRecolored => NESTED_RECOLORED,
        Shape::Boundary => BOUNDARY,
        Shape::BoundaryGreen => BOUNDARY_GREEN,
        Shape::NoBoundary => NO_BOUNDARY,
    }
}

// ---- what stands round it

// Nothing but the corner.
const CORNER: &[Row] = &[(1, Look::Corner, 1)];

// An intrinsic box, which gives it one size that it may take.
const INTRINSIC_BOX: &[Row] = &[
    (1, Look::Corner, 1),
    (3, Look::High(20), 1),
    (2, Look::Intrinsic, 1),
];

// An Offstage that shows it or hides it.
const ON_STAGE: &[Row] = &[(1, Look::Corner, 1), (2, Look::Offstage(false), 1)];

const OFF_STAGE: &[Row] = &[(1, Look::Corner, 1), (2, Look::Offstage(true), 1)];

// It is the first of three items of 20 each in a list of which 20 are seen.
const FIRST_ITEM: &[Row] = &[
    (1, Look::Corner, 1),
    (3, Look::Sized(40, 20), 1),
    (9, Look::Viewport, 1),
    (10, Look::List, 3),
];

const TWO_ITEMS: &[Row] = &[(11, Look::Sized(1, 1), 0), (12, Look::Sized(1, 1), 0)];

// It is a box among slivers, and at most 10 high.
const FIRST_SLIVER: &[Row] = &[
    (1, Look::Corner, 1),
    (3, Look::Sized(40, 20), 1),
    (9, Look::Viewport, 2),
    (10, Look::ToBox, 1),
];

const LAST_SLIVER: &[Row] = &[(13, Look::ToBox, 1), (12, Look::Sized(40, 60), 0)];

// One of these.
#[derive(Clone, Copy)]
pub(crate) enum Around {
    Corner,
    Intrinsic,
    OnStage,
    OffStage,
    Item,
    Sliver,
}

// The rows before it and after it.
fn rows_round(around: Around) -> (&'static [Row], &'static [Row]) {
    match around {
        Around::Corner => (CORNER, &[]),
        Around::Intrinsic => (INTRINSIC_BOX, &[]),
        Around::OnStage => (ON_STAGE, &[]),
        Around::OffStage => (OFF_STAGE, &[]),
        Around::Item => (FIRST_ITEM, TWO_ITEMS),
        Around::Sliver => (FIRST_SLIVER, LAST_SLIVER),
    }
}

// Such a build there.
pub(crate) fn scene(around: Around, shape: Shape) -> Scene {
    let (before, after) = rows_round(around);
    (before, rows_of(shape), after)
}
