ghost use Rattle.std.specs.Option.{ForSome};
ghost use Rattle.fx_geom.specs.Offset.{IsPlacement};

use crate::compare::{expect, expect_at};
use flex_layout::{Gaps, align_at, cross_at, gaps, placed_at, placed_bounds, share};
use fx_geom::{Bounds, CrossAlign, LEN_MAX, Len, MainAlign, Offset, Placed, Size};

#[test]
fn shares_are_whole(rt: HostRuntime) {
    // Three equal shares of 100; factors 1, 2 and 4 in 10; a child with factor 0; many large factors.
    for (free, before, factor, total, want) in [
        (100, 0, 1, 3, 33),
        (100, 1, 1, 3, 33),
        (100, 2, 1, 3, 34),
        (10, 0, 1, 7, 1),
        (10, 1, 2, 7, 3),
        (10, 3, 4, 7, 6),
        (10, 3, 0, 7, 0),
        (1 << 40, 1_000_000, 1_000_000, 65_536_000_000, 1 << 24),
    ] {
        assert!(rt; total > 0 && before <= total && factor <= total - before);
        expect(&rt, share(free, before, factor, total), want);
    }
}

// The lead and the gap of so many children in a rest of seven.
fn lead_and_gap(align: MainAlign, count: usize) -> (u64, u64) {
    let Gaps { lead, between } = gaps(align, 7, count);
    (lead, between)
}

#[test]
fn gaps_of_a_rest_of_seven(rt: HostRuntime) {
    // Of 0, 1, 2 and 3 children.
    for (align, want) in [
        (MainAlign::Start, [(0, 0), (0, 0), (0, 0), (0, 0)]),
        (MainAlign::End, [(0, 0), (7, 0), (7, 0), (7, 0)]),
        (MainAlign::Center, [(0, 0), (3, 0), (3, 0), (3, 0)]),
        (MainAlign::Between, [(0, 0), (0, 0), (0, 7), (0, 3)]),
        (MainAlign::Around, [(0, 0), (3, 7), (1, 3), (1, 2)]),
        (MainAlign::Evenly, [(0, 0), (3, 3), (2, 2), (1, 1)]),
    ] {
        let given = [
            lead_and_gap(align, 0),
            lead_and_gap(align, 1),
            lead_and_gap(align, 2),
            lead_and_gap(align, 3),
        ];
        expect_at(&rt, given, want, &align);
    }
}

#[test]
fn children_are_aligned(rt: HostRuntime) {
    for (outer, inner, a, want) in [
        (100, 30, -100, 0),
        (100, 30, 0, 35),
        (100, 30, 100, 70),
        (101, 30, 0, 35),
        (30, 100, -100, 0),
        (30, 101, 0, -36),
        (30, 100, 100, -70),
        (10, 13, 50, -3),
        (5, 5, 33, 0),
    ] {
        expect_at(&rt, align_at(outer, inner, a), want, &(outer, inner, a));
    }
    for (align, shorter, longer) in [
        (CrossAlign::Start, 0, 0),
        (CrossAlign::Stretch, 0, 0),
        (CrossAlign::End, 71, -71),
        (CrossAlign::Center, 35, -36),
    ] {
        expect_at(&rt, cross_at(align, 101, 30), shorter, &align);
        expect_at(&rt, cross_at(align, 30, 101), longer, &align);
    }
}

fn edge(on: bool, value: i64) -> Option<i64>
    requires { IsPlacement value }
    ensures { ForSome result IsPlacement }
{
    if on { Some(value) } else { None }
}

fn extent(on: bool, value: u64) -> Option<u64> {
    if on { Some(value) } else { None }
}

// Which of two edges and an extent are given, the extent that the child must have (0 for any), and where it stands.
// Across, the edges are 10 and 20, the extent is 5, and the child is 30 wide at an alignment of 50 in 100. Down, they
// are 1, 2 and 7, and the child is 12 high at -30 in 50.
const ACROSS: [(bool, bool, bool, u64, i64); 8] = [
    (false, false, false, 0, 52),
    (true, false, false, 0, 10),
    (false, true, false, 0, 50),
    (true, true, false, 70, 10),
    (false, false, true, 5, 52),
    (true, false, true, 5, 10),
    (false, true, true, 5, 50),
    (true, true, true, 70, 10),
];

const DOWN: [(bool, bool, bool, u64, i64); 8] = [
    (false, false, false, 0, 13),
    (true, false, false, 0, 1),
    (false, true, false, 0, 36),
    (true, true, false, 47, 1),
    (false, false, true, 7, 13),
    (true, false, true, 7, 1),
    (false, true, true, 7, 36),
    (true, true, true, 47, 1),
];

fn most(extent: u64) -> Len {
    if extent == 0 {
        Len::Unbounded
    } else {
        Len::Finite(extent)
    }
}

#[test]
fn positioned_children(rt: HostRuntime) {
    let stack = Size { w: 100, h: 50 };
    let child = Size { w: 30, h: 12 };
    for (left, right, width, w, x) in ACROSS {
        for (top, bottom, height, h, y) in DOWN {
            let placed = Placed {
                left: edge(left, 10),
                top: edge(top, 1),
                right: edge(right, 20),
                bottom: edge(bottom, 2),
                width: extent(width, 5),
                height: extent(height, 7),
            };
            expect_at(
                &rt,
                placed_bounds(&placed, stack),
                Bounds::normalized(w, most(w), h, most(h)),
                &placed,
            );
            expect_at(
                &rt,
                placed_at(&placed, stack, child, 50, -30),
                Offset { x, y },
                &placed,
            );
        }
    }
}

#[test]
fn far_edges(rt: HostRuntime) {
    let stack = Size { w: 100, h: 50 };
    let far = -(LEN_MAX as i64);
    let placed = Placed {
        left: Some(far),
        right: Some(far),
        top: Some(-far),
        bottom: Some(-far),
        width: Some(5),
        ..Placed::default()
    };
    expect(
        &rt,
        placed_bounds(&placed, stack),
        Bounds::tight(Size { w: LEN_MAX, h: 0 }),
    );
    let corner = Placed {
        right: Some(0),
        bottom: Some(0),
        width: Some(8),
        height: Some(8),
        ..Placed::default()
    };
    let child = Size { w: 8, h: 8 };
    expect(&rt, placed_bounds(&corner, stack), Bounds::tight(child));
    expect(
        &rt,
        placed_at(&corner, stack, child, -100, -100),
        Offset { x: 92, y: 42 },
    );
}
