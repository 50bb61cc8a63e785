// What a new list of children goes on from by the scan, which no build calls, and that the places by keys take that of what stood in a list. What a build gives is in the case files.
use crate::compare::{expect, expect_at};
use crate::matching::Keyed::{Global as G, Local as L, LocalTruth, Nothing};
use fx_expr::Value;
use reconcile::{match_by_scan, match_children};
use std::alloc::{AllocError, Global};
use std::rc::Rc;
use std::test::Fail;
use widget_keys::Key;
use widget_model::{Kind, Widget, WidgetList};

// A child's key, as a row has it.
#[derive(Clone, Copy, Debug)]
enum Keyed {
    Nothing,
    Local(i64),
    LocalTruth,
    Global(i64),
}

fn key_of(keyed: Keyed) -> Key<Value> {
    match keyed {
        Nothing => Key::None,
        L(n) => Key::Local(Value::Int(n)),
        LocalTruth => Key::Local(Value::Bool(true)),
        G(n) => Key::Global(Value::Int(n)),
    }
}

// A clip with a key, or a repaint boundary.
fn widget(alloc: Global, keyed: Keyed, is_other: bool) -> Result<Rc<Widget>, AllocError> {
    let kind = if is_other {
        Kind::RepaintBoundary
    } else {
        Kind::ClipRect
    };
    let widget = Widget::new(kind, key_of(keyed), WidgetList::of(Vec::new(alloc)));
    Ok(Rc::new(alloc, widget)?)
}

fn fill(
    alloc: Global,
    list: &mut Vec<Rc<Widget>>,
    keys: &[Keyed],
    other: usize,
) -> Result<(), AllocError> {
    for (i, key) in keys.iter().enumerate() {
        list.push(widget(alloc, *key, i == other)?)?;
    }
    Ok(())
}

// Clips with these keys; at the place `other` a repaint boundary.
fn list_of(alloc: Global, keys: &[Keyed], other: usize) -> Result<Vec<Rc<Widget>>, AllocError> {
    let mut list = Vec::new(alloc);
    fill(alloc, &mut list, keys, other)?;
    Ok(list)
}

const NEVER: usize = usize::MAX;

// The old keys, the new ones, the place of the new child that is of another type, and what each new child goes on from.
type Lists = (
    &'static [Keyed],
    &'static [Keyed],
    usize,
    &'static [Option<usize>],
);

const LISTS: [Lists; 11] = [
    (
        &[L(1), L(2), L(3)],
        &[L(3), L(2), L(1)],
        NEVER,
        &[Some(2), Some(1), Some(0)],
    ),
    (
        &[L(1), L(2), L(3)],
        &[L(3), L(1)],
        NEVER,
        &[Some(2), Some(0)],
    ),
    // An equal key under another type.
    (
        &[L(1), L(2), L(3)],
        &[L(3), L(2), L(1)],
        1,
        &[Some(2), None, Some(0)],
    ),
    // A key between a front and an end that stand.
    (
        &[L(1), L(2), L(3)],
        &[L(1), L(4), L(2), L(3)],
        NEVER,
        &[Some(0), None, Some(1), Some(2)],
    ),
    (
        &[L(1), LocalTruth, G(1), Nothing],
        &[G(1), L(1), LocalTruth, Nothing],
        NEVER,
        &[Some(2), Some(0), Some(1), Some(3)],
    ),
    // A child without a key finds none between the front and the end.
    (
        &[L(1), LocalTruth, G(1), Nothing],
        &[Nothing, LocalTruth, L(2), L(1)],
        NEVER,
        &[None, Some(1), None, Some(0)],
    ),
    (
        &[Nothing, Nothing],
        &[Nothing, Nothing, Nothing],
        NEVER,
        &[Some(0), Some(1), None],
    ),
    (
        &[Nothing, Nothing, Nothing],
        &[Nothing, Nothing],
        NEVER,
        &[Some(0), Some(1)],
    ),
    // One of another type in front: the others are counted from the end.
    (
        &[Nothing, Nothing],
        &[Nothing, Nothing, Nothing],
        0,
        &[None, Some(0), Some(1)],
    ),
    (&[], &[Nothing, Nothing], NEVER, &[None, None]),
    (&[Nothing, Nothing], &[], NEVER, &[]),
];

// The scan takes the place of what stood in the list before.
fn scanned(
    alloc: Global,
    old: &[Rc<Widget>],
    new: &[Rc<Widget>],
) -> Result<Vec<Option<usize>>, AllocError> {
    let mut out = Vec::new(alloc);
    out.push(Some(9))?;
    match_by_scan(alloc, old, new, &mut out)?;
    Ok(out)
}

#[test]
fn a_scan_matches_children(rt: HostRuntime) -> Result<(), Fail> {
    for (old, new, other, places) in LISTS {
        let old = list_of(rt.alloc(), old, NEVER)?;
        let new = list_of(rt.alloc(), new, other)?;
        let out = scanned(rt.alloc(), old.as_slice(), new.as_slice())?;
        expect_at(&rt, out.as_slice(), places, &other);
    }
    Ok(())
}

// By the keys, where there was no child: the places take that of what stood in the list before too.
fn mapped_anew(alloc: Global, new: &[Rc<Widget>]) -> Result<Vec<Option<usize>>, AllocError> {
    let mut out = Vec::new(alloc);
    out.push(Some(9))?;
    match_children(alloc, &[], new, &mut out)?;
    Ok(out)
}

#[test]
fn new_children_go_on_from_none(rt: HostRuntime) -> Result<(), Fail> {
    let new = list_of(rt.alloc(), &[Nothing, Nothing], NEVER)?;
    let out = mapped_anew(rt.alloc(), new.as_slice())?;
    expect(&rt, out.as_slice(), [None, None].as_slice());
    Ok(())
}
