use crate::compare::expect;
use fx_handles::{Arena, Handle};
use std::process::Abort;
use std::test::Fail;

// A slot is used again under another generation, and the handle that was removed stays dead.
fn use_again(rt: &impl Abort, arena: &mut Arena<u64>) -> Result<(), Fail> {
    let first = arena.insert(0)?;
    expect(rt, arena.remove(first), Some(0));
    for round in 1..=1000 {
        let next = arena.insert(round)?;
        expect(rt, next.index, first.index);
        expect(rt, next.generation as u64, round);
        expect(rt, arena.get(first), None);
        expect(rt, arena.get_mut(first), None);
        expect(rt, arena.remove(first), None);
        expect(rt, arena.remove(next), Some(round));
    }
    expect(rt, arena.is_empty(), true);
    Ok(())
}

#[test]
fn a_removed_handle_stays_dead(rt: HostRuntime) -> Result<(), Fail> {
    use_again(&rt, &mut Arena::new(rt.alloc()))
}

fn set(arena: &mut Arena<u64>, h: Handle, value: u64) {
    if let Some(place) = arena.get_mut(h) {
        *place = value;
    }
}

// Each call once, on three values.
fn keep_apart(rt: &impl Abort, arena: &mut Arena<u64>) -> Result<(), Fail> {
    let (a, b, c) = (arena.insert(10)?, arena.insert(20)?, arena.insert(30)?);
    set(arena, b, 21);
    expect(rt, arena.get(a), Some(&10));
    expect(rt, arena.get(b), Some(&21));
    expect(rt, arena.remove(a), Some(10));
    expect(rt, (arena.contains(a), arena.contains(c)), (false, true));
    expect(rt, (arena.len(), arena.retired(), arena.end()), (2, 0, 3));
    for (index, handle) in [(0, None), (2, Some(c)), (7, None)] {
        expect(rt, arena.handle_at(index), handle);
    }
    Ok(())
}

#[test]
fn values_are_kept_apart(rt: HostRuntime) -> Result<(), Fail> {
    keep_apart(&rt, &mut Arena::new(rt.alloc()))
}
