use crate::compare::expect;
use fx_geom::{Axis, Bounds, Insets, LEN_MAX, Len, OFFSET_MAX, Offset, Scale, Size, add_lengths};

// Both scales are those of the table: a cell of 8 by 16 logical pixels, slops of 18 and 36, a widening of 250.
#[test]
fn scales_are_in_logical_pixels(rt: HostRuntime) {
    for (scale, pixel, nodes) in [
        (Scale::standard(), 64, 65_536),
        (Scale::fine(), 256, 1_048_576),
    ] {
        expect(&rt, (scale.cell.w, scale.cell.h), (8 * pixel, 16 * pixel));
        expect(
            &rt,
            (scale.slop, scale.pan, scale.widen),
            (18 * pixel, 36 * pixel, 250 * pixel),
        );
        expect(&rt, scale.nodes, nodes);
    }
}

#[test]
fn sums_stop(rt: HostRuntime) {
    expect(&rt, add_lengths(2, 3), 5);
    expect(&rt, add_lengths(LEN_MAX, 1), LEN_MAX);
    expect(&rt, add_lengths(u64::MAX, u64::MAX), LEN_MAX);
    expect(&rt, Len::Finite(2).plus(Len::Finite(3)), Len::Finite(5));
    expect(&rt, Len::Finite(2).plus(Len::Unbounded), Len::Unbounded);
    expect(&rt, Len::Unbounded.limit(), LEN_MAX);
    let far = Offset {
        x: OFFSET_MAX,
        y: -OFFSET_MAX,
    };
    expect(&rt, far.plus(Offset { x: 1, y: -1 }), far);
    expect(
        &rt,
        far.plus(Offset { x: -1, y: 2 }),
        Offset {
            x: OFFSET_MAX - 1,
            y: 2 - OFFSET_MAX,
        },
    );
}

#[test]
fn insets_go_along_axes(rt: HostRuntime) {
    let insets = Insets {
        left: 1,
        top: 2,
        right: 4,
        bottom: 8,
    };
    let size = Size { w: 100, h: 50 };
    for (axis, other, extent, before, after) in [
        (Axis::Horizontal, Axis::Vertical, 100, 1, 4),
        (Axis::Vertical, Axis::Horizontal, 50, 2, 8),
    ] {
        expect(&rt, axis.other(), other);
        expect(&rt, size.extent(axis), extent);
        expect(
            &rt,
            (insets.before(axis), insets.after(axis)),
            (before, after),
        );
        expect(&rt, insets.along(axis), before + after);
    }
    expect(&rt, insets.inflate(size), Size { w: 105, h: 60 });
}

// A box of 60 to 80 by 10 to no limit.
fn some_bounds() -> Bounds {
    Bounds {
        min_w: 60,
        max_w: Len::Finite(80),
        min_h: 10,
        max_h: Len::Unbounded,
    }
}

#[test]
fn sizes_are_constrained(rt: HostRuntime) {
    let bounds = some_bounds();
    for (size, want) in [
        (Size { w: 0, h: 0 }, Size { w: 60, h: 10 }),
        (Size { w: 70, h: 500 }, Size { w: 70, h: 500 }),
        (Size { w: 81, h: 9 }, Size { w: 80, h: 10 }),
    ] {
        expect(&rt, bounds.constrain(size), want);
    }
    expect(&rt, bounds.smallest(), Size { w: 60, h: 10 });
    expect(&rt, bounds.is_tight(), false);
    expect(&rt, Bounds::tight(Size { w: 5, h: 0 }).is_tight(), true);
}

#[test]
fn bounds_are_loosened_and_tightened(rt: HostRuntime) {
    let bounds = some_bounds();
    let normalized = Bounds::normalized;
    // A maximum below its minimum is the minimum.
    expect(
        &rt,
        normalized(7, Len::Finite(3), 0, Len::Unbounded),
        normalized(7, Len::Finite(7), 0, Len::Unbounded),
    );
    expect(
        &rt,
        bounds.loosen(),
        Bounds::loose(Len::Finite(80), Len::Unbounded),
    );
    // A width of 500 is clamped to 80, a height of 3 to 10.
    let tightened = bounds.tighten(Some(500), Some(3));
    expect(&rt, tightened, Bounds::tight(Size { w: 80, h: 10 }));
    expect(
        &rt,
        bounds.tighten(None, Some(30)),
        normalized(60, Len::Finite(80), 30, Len::Finite(30)),
    );
}

#[test]
fn bounds_are_enforced(rt: HostRuntime) {
    let bounds = some_bounds();
    let normalized = Bounds::normalized;
    // A box that wants a width of 60 and any height, in a view of 100 by 50 and in a tight one.
    let wanted = normalized(60, Len::Finite(60), 0, Len::Unbounded);
    let loose = Bounds::loose(Len::Finite(100), Len::Finite(50));
    expect(
        &rt,
        wanted.enforce(loose),
        normalized(60, Len::Finite(60), 0, Len::Finite(50)),
    );
    let view = Bounds::tight(Size { w: 100, h: 50 });
    expect(&rt, wanted.enforce(view), view);
    // A box that wants less than the least, or more than the most.
    expect(
        &rt,
        loose.enforce(bounds),
        normalized(60, Len::Finite(80), 10, Len::Finite(50)),
    );
    expect(
        &rt,
        Bounds::tight(Size { w: 90, h: 4 }).enforce(bounds),
        Bounds::tight(Size { w: 80, h: 10 }),
    );
}

#[test]
fn bounds_are_deflated(rt: HostRuntime) {
    let bounds = some_bounds();
    let normalized = Bounds::normalized;
    let view = Bounds::tight(Size { w: 100, h: 50 });
    // A padding of 10 and 5 at the left and the top leaves 90 by 45 of a view of 100 by 50.
    let padding = Insets {
        left: 10,
        top: 5,
        ..Insets::default()
    };
    expect(
        &rt,
        view.deflate(padding),
        Bounds::tight(Size { w: 90, h: 45 }),
    );
    expect(
        &rt,
        bounds.deflate(Insets {
            left: 30,
            right: 40,
            top: 7,
            bottom: 0,
        }),
        normalized(0, Len::Finite(10), 3, Len::Unbounded),
    );
    expect(
        &rt,
        bounds.deflate(Insets {
            left: 50,
            right: 31,
            top: 1,
            bottom: 2,
        }),
        normalized(0, Len::Finite(0), 7, Len::Unbounded),
    );
}
