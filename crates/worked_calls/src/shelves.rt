// Values that are kept for handles beside an arena.
use crate::compare::expect;
use fx_handles::{Arena, Handle};
use handle_shelf::Shelf;
use std::process::Abort;
use std::test::Fail;

// What a shelf keeps for these handles, in order.
fn expect_kept(rt: &impl Abort, shelf: &Shelf<u64>, rows: &[(Handle, Option<u64>)]) {
    for row in rows {
        let kept = shelf.get(row.0).copied();
        expect(rt, kept, row.1);
    }
}

// A value for each of two handles.
fn put(rt: &impl Abort, shelf: &mut Shelf<u64>, a: Handle, b: Handle) -> Result<(), Fail> {
    expect_kept(rt, shelf, &[(a, None), (b, None)]);
    shelf.put(b, 2)?;
    shelf.put(a, 1)?;
    shelf.put(b, 3)?;
    expect_kept(rt, shelf, &[(a, Some(1)), (b, Some(3))]);
    Ok(())
}

// The value of a handle whose slot another one has now goes.
fn retain(
    rt: &impl Abort,
    arena: &Arena<u64>,
    shelf: &mut Shelf<u64>,
    rows: [(Handle, Option<u64>); 3],
) {
    expect_kept(rt, shelf, &rows);
    shelf.retain_live(arena);
    expect_kept(rt, shelf, &[(rows[0].0, None), rows[1], rows[2]]);
}

fn remove(
    rt: &impl Abort,
    shelf: &mut Shelf<u64>,
    a: Handle,
    b: Handle,
    c: Handle,
) -> Result<(), Fail> {
    shelf.put(c, 4)?;
    shelf.remove(a);
    expect_kept(rt, shelf, &[(a, None), (c, Some(4)), (b, Some(3))]);
    shelf.remove(b);
    expect_kept(rt, shelf, &[(c, Some(4)), (b, None)]);
    Ok(())
}

fn keep_values(
    rt: &impl Abort,
    arena: &mut Arena<u64>,
    shelf: &mut Shelf<u64>,
) -> Result<(), Fail> {
    let (a, b) = (arena.insert(0)?, arena.insert(0)?);
    put(rt, shelf, a, b)?;
    expect(rt, arena.remove(a), Some(0));
    let c = arena.insert(0)?;
    retain(rt, arena, shelf, [(a, Some(1)), (c, None), (b, Some(3))]);
    remove(rt, shelf, a, b, c)
}

#[test]
fn a_shelf_keeps_values_for_handles(rt: HostRuntime) -> Result<(), Fail> {
    let mut arena = Arena::new(rt.alloc());
    keep_values(&rt, &mut arena, &mut Shelf::new(rt.alloc()))
}
