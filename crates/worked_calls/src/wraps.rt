// Where the children of a Wrap and of a Table stand, and how large they are together.
use crate::compare::expect;
use fx_geom::{LEN_MAX, Len, Offset, Size};
use std::alloc::{AllocError, Global};
use std::process::Abort;
use std::test::Fail;
use wrap_table::{extent_of, table_places, table_size, wrap_places, wrap_size};

fn offset(place: (i64, i64)) -> Offset {
    Offset {
        x: place.0,
        y: place.1,
    }
}

fn size(sides: (u64, u64)) -> Size {
    Size {
        w: sides.0,
        h: sides.1,
    }
}

// The sizes of these sides.
fn sizes(alloc: Global, sides: &[(u64, u64)]) -> Result<Vec<Size>, Fail> {
    let mut sizes = Vec::new(alloc);
    for side in sides {
        sizes.push(size(*side))?;
    }
    Ok(sizes)
}

// A list that holds a place from before.
fn stale(alloc: Global) -> Result<Vec<Offset>, Fail> {
    let mut places = Vec::new(alloc);
    places.push(offset((7, 7)))?;
    Ok(places)
}

// The places, each as its x and its y.
fn told(alloc: Global, places: &[Offset]) -> Result<Vec<(i64, i64)>, AllocError> {
    let mut told = Vec::new(alloc);
    for place in places {
        told.push((place.x, place.y))?;
    }
    Ok(told)
}

fn expect_places(
    rt: &impl Abort,
    alloc: Global,
    places: &[Offset],
    want: &[(i64, i64)],
) -> Result<(), Fail> {
    let told = told(alloc, places)?;
    expect(rt, told.as_slice(), want);
    Ok(())
}

// The children's sides, the limit, the gaps in a run and between runs; the places, and the sides of all.
const WRAPS: [(&[(u64, u64)], u64, u64, u64, &[(i64, i64)], (u64, u64)); 7] = [
    (
        &[(40, 20), (40, 20), (40, 20)],
        100,
        10,
        5,
        &[(0, 0), (50, 0), (0, 25)],
        (90, 45),
    ),
    (&[], 100, 10, 5, &[], (0, 0)),
    (
        &[(150, 10), (1, 1)],
        100,
        10,
        5,
        &[(0, 0), (0, 15)],
        (150, 16),
    ),
    (&[(50, 1), (50, 2)], 100, 0, 7, &[(0, 0), (50, 0)], (100, 2)),
    (&[(50, 1), (50, 2)], 100, 1, 7, &[(0, 0), (0, 8)], (50, 10)),
    (&[(0, 3), (0, 4)], 0, 0, 7, &[(0, 0), (0, 0)], (0, 4)),
    (&[(0, 3), (0, 4)], 0, 1, 7, &[(0, 0), (0, 10)], (0, 14)),
];

fn check_wrap(
    rt: &impl Abort,
    alloc: Global,
    children: &[Size],
    limit: Len,
    gaps: (u64, u64),
    want: (&[(i64, i64)], (u64, u64)),
) -> Result<(), Fail> {
    let mut out = stale(alloc)?;
    let given = wrap_places(children, limit, gaps.0, gaps.1, &mut out)?;
    expect(rt, given, size(want.1));
    expect_places(rt, alloc, out.as_slice(), want.0)
}

#[test]
fn wraps_in_runs(rt: HostRuntime) -> Result<(), Fail> {
    for (children, limit, gap, run_gap, places, whole) in WRAPS {
        let children = sizes(rt.alloc(), children)?;
        let limit = Len::Finite(limit);
        let want = (places, whole);
        let gaps = (gap, run_gap);
        check_wrap(&rt, rt.alloc(), children.as_slice(), limit, gaps, want)?;
        let alone = wrap_size(children.as_slice(), limit, gap, run_gap);
        expect(&rt, alone, size(whole));
    }
    Ok(())
}

#[test]
fn wraps_without_a_limit_stop(rt: HostRuntime) -> Result<(), Fail> {
    let children = sizes(rt.alloc(), &[(LEN_MAX, 1), (1, 2), (1, 3)])?;
    let far = LEN_MAX as i64;
    let places = [(0, 0), (far, 0), (far, 0)];
    let want = (places.as_slice(), (LEN_MAX, 3));
    let list = children.as_slice();
    check_wrap(&rt, rt.alloc(), list, Len::Unbounded, (5, 7), want)
}

// The widths of the columns, the heights of the children; the places, and the sides of all.
const TABLES: [(&[u64], &[u64], &[(i64, i64)], (u64, u64)); 5] = [
    (
        &[30, 70],
        &[10, 20, 5],
        &[(0, 0), (30, 0), (0, 20)],
        (100, 25),
    ),
    (&[0], &[3, 4], &[(0, 0), (0, 3)], (0, 7)),
    (&[5, 6, 7], &[], &[], (18, 0)),
    (&[5, 6, 7], &[9], &[(0, 0)], (18, 9)),
    (
        &[1, 2, 3],
        &[4, 9, 5, 1, 2],
        &[(0, 0), (1, 0), (3, 0), (0, 9), (1, 9)],
        (6, 11),
    ),
];

fn check_table(
    rt: &impl Abort,
    alloc: Global,
    widths: &[u64],
    heights: &[u64],
    places: &[(i64, i64)],
    whole: Size,
) -> Result<(), Fail> {
    assert!(rt; !widths.is_empty());
    expect(rt, table_size(widths, heights), whole);
    let mut out = stale(alloc)?;
    let given = table_places(widths, heights, &mut out)?;
    expect(rt, given, whole);
    expect_places(rt, alloc, out.as_slice(), places)
}

#[test]
fn tables_go_row_by_row(rt: HostRuntime) -> Result<(), Fail> {
    for (widths, heights, places, whole) in TABLES {
        check_table(&rt, rt.alloc(), widths, heights, places, size(whole))?;
    }
    expect(&rt, extent_of(&[5, 6], 3), 14);
    expect(&rt, extent_of(&[LEN_MAX, 1], 3), LEN_MAX);
    Ok(())
}
