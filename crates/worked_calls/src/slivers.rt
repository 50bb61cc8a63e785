use crate::compare::{expect, expect_at};
use fx_geom::{Axis, Insets, LEN_MAX};
use sliver_layout::{
    Geometry, SliverBounds, Window, greatest, live, padded, padding_geometry, paint_offset, window,
};

fn vertical(offset: u64, remaining: u64) -> SliverBounds {
    SliverBounds {
        axis: Axis::Vertical,
        offset,
        remaining,
        cross: 100,
    }
}

#[test]
fn windows_of_lists(rt: HostRuntime) {
    for (offset, remaining, extent, count, first, end) in [
        // Ten children of 30 in a view of 100, then four.
        (0, 100, 30, 10, 0, 4),
        (60, 100, 30, 10, 2, 6),
        (200, 100, 30, 10, 6, 10),
        (20, 100, 30, 4, 0, 4),
        // Children of 4096 below a box of 2048 in a view of 12800, at its start and after 6144.
        (0, 10752, 4096, 200, 0, 3),
        (4096, 12800, 4096, 200, 1, 5),
        // Exact edges, and one unit on either side of them.
        (30, 60, 30, 10, 1, 3),
        (29, 60, 30, 10, 0, 3),
        (30, 61, 30, 10, 1, 4),
        (31, 59, 30, 10, 1, 3),
        // The end of the list, past it, no view and no children.
        (290, 100, 30, 10, 9, 10),
        (299, 1, 30, 10, 9, 10),
        (300, 100, 30, 10, 0, 0),
        (60, 0, 30, 10, 0, 0),
        (60, 100, 30, 0, 0, 0),
        // One child, and children longer than the view.
        (100, 100, 500, 1, 0, 1),
        (450, 100, 500, 3, 0, 2),
        // Far offsets.
        (LEN_MAX, LEN_MAX, LEN_MAX, 3, 1, 2),
        (LEN_MAX, 100, 1, u64::MAX, LEN_MAX, LEN_MAX + 100),
    ] {
        assert!(rt; extent > 0);
        let b = vertical(offset, remaining);
        expect_at(
            &rt,
            window(b, extent, count),
            Window { first, end },
            &(b, extent, count),
        );
        expect_at(
            &rt,
            live(b, extent, count, 0),
            Window { first, end },
            &(b, extent, count),
        );
    }
}

#[test]
fn live_ranges_reach_further(rt: HostRuntime) {
    for (offset, remaining, widen, first, end) in [
        (60, 100, 45, 0, 7),
        (200, 30, 60, 4, 10),
        (120, 30, 29, 3, 6),
        (120, 30, 31, 2, 7),
        (60, 100, 16000, 0, 10),
        (60, 100, u64::MAX, 0, 10),
        (400, 10, 100, 0, 0),
        (400, 10, 101, 9, 10),
        (60, 0, 16000, 0, 0),
    ] {
        let b = vertical(offset, remaining);
        expect_at(
            &rt,
            live(b, 30, 10, widen),
            Window { first, end },
            &(b, widen),
        );
    }
}

#[test]
fn stretches_are_painted(rt: HostRuntime) {
    for (from, to, want) in [
        (0, 20, 0),
        (0, 50, 20),
        (40, 60, 20),
        (110, 140, 20),
        (0, 500, 100),
        (130, 500, 0),
        (60, 40, 0),
    ] {
        expect_at(
            &rt,
            paint_offset(vertical(30, 100), from, to),
            want,
            &(from, to),
        );
    }
    expect(
        &rt,
        (greatest(300, 100), greatest(120, 100), greatest(60, 100)),
        (200, 20, 0),
    );
}

// Insets of 20 above, 30 below and 5 at the left.
const INSETS: Insets = Insets {
    left: 5,
    top: 20,
    right: 0,
    bottom: 30,
};

// Along the other axis, where the insets leave nothing across.
fn narrow() -> SliverBounds {
    SliverBounds {
        axis: Axis::Horizontal,
        cross: 40,
        ..vertical(3, 100)
    }
}

#[test]
fn padding_around_a_list(rt: HostRuntime) {
    // Three children of 40 in a view of 100. After 30 units the inset above is gone, and they stand at -10, 30 and 70.
    for (offset, list, end) in [(0, vertical(0, 80), 2), (30, vertical(10, 100), 3)] {
        let list = SliverBounds { cross: 95, ..list };
        expect_at(&rt, padded(vertical(offset, 100), INSETS), list, &offset);
        expect_at(&rt, window(list, 40, 3), Window { first: 0, end }, &offset);
    }
    let none = SliverBounds {
        offset: 0,
        remaining: 98,
        cross: 0,
        ..narrow()
    };
    expect(&rt, padded(narrow(), INSETS), none);
}

#[test]
fn padding_counts(rt: HostRuntime) {
    // The bounds, how far the list scrolls and how much of it is painted, and both of the padding. At the end of the list 10 units of the last
    // child and 20 of the inset below are seen.
    for (b, scroll, paint, whole, shown) in [
        (vertical(0, 100), 120, 80, 170, 100),
        (vertical(30, 100), 120, 100, 170, 100),
        (vertical(130, 30), 120, 10, 170, 30),
        (narrow(), LEN_MAX, 98, LEN_MAX, 100),
    ] {
        let given = padding_geometry(b, INSETS, Some(Geometry { scroll, paint }));
        expect_at(&rt, (given.scroll, given.paint), (whole, shown), &b);
    }
    let alone = padding_geometry(vertical(30, 100), INSETS, None);
    expect(&rt, (alone.scroll, alone.paint), (50, 20));
}
