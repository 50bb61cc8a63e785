// Handles that stand under names.
use crate::compare::expect;
use fx_handles::Handle;
use handle_groups::Groups;
use std::alloc::AllocError;
use std::process::Abort;
use std::test::Fail;

const FIRST: Handle = Handle {
    index: 1,
    generation: 0,
};

const SECOND: Handle = Handle {
    index: 1,
    generation: 1,
};

// How many handles stand under each of three names.
fn counts(groups: &Groups) -> (usize, usize, usize) {
    (
        groups.get("bars").len(),
        groups.get("grid").len(),
        groups.get("nobody").len(),
    )
}

// A handle stands under a name once.
fn fill(rt: &impl Abort, groups: &mut Groups) -> Result<(), AllocError> {
    expect(rt, counts(groups), (0, 0, 0));
    groups.insert("bars", FIRST)?;
    groups.insert("bars", SECOND)?;
    groups.insert("bars", FIRST)?;
    groups.reserve("grid")?;
    groups.put("grid", FIRST);
    expect(rt, counts(groups), (2, 1, 0));
    Ok(())
}

// It goes from under one name alone.
fn take(rt: &impl Abort, groups: &mut Groups) {
    groups.remove("bars", FIRST);
    groups.remove("nobody", FIRST);
    expect(rt, counts(groups), (1, 1, 0));
    expect(rt, groups.get("bars"), [SECOND].as_slice());
    expect(rt, groups.get("grid"), [FIRST].as_slice());
}

// A copy keeps what it has.
fn take_after_copy(rt: &impl Abort, groups: &mut Groups) -> Result<(), AllocError> {
    let copy = groups.copied()?;
    take(rt, groups);
    expect(rt, counts(&copy), (2, 1, 0));
    Ok(())
}

fn group(rt: &impl Abort, groups: &mut Groups) -> Result<(), Fail> {
    fill(rt, groups)?;
    take_after_copy(rt, groups)?;
    Ok(())
}

#[test]
fn handles_stand_under_names(rt: HostRuntime) -> Result<(), Fail> {
    group(&rt, &mut Groups::new(rt.alloc()))
}
