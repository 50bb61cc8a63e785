// One laid node: which of its remarks comes first, of which no layout gives both, and which of its members, which no run tells apart; and a path that
// takes the place of another one.
use crate::compare::expect;
use fx_expr::{Handler, SetList};
use fx_geom::{Bounds, Offset, Size};
use gesture_arena::{Gesture, Member};
use hit_testing::{hit_members, hit_path};
use plain_paint::{Note, Remark, notes};
use plain_tree::{Facts, Frame, LaidNode, Notes};
use std::alloc::{AllocError, Global};
use std::process::Abort;
use std::rc::Rc;
use std::test::Fail;
use widget_keys::Key;
use widget_model::{Behavior, Kind, Widget, WidgetList};

// A handler that sets nothing.
fn handler(alloc: Global) -> Handler {
    Handler {
        owner: 0,
        sets: SetList::of(Vec::new(alloc)),
    }
}

// A translucent Detector with a tap and a long press.
fn detector(alloc: Global) -> Widget {
    let kind = Kind::Detector {
        behavior: Behavior::Translucent,
        tap: Some(handler(alloc)),
        long: Some(handler(alloc)),
        vertical: None,
        horizontal: None,
        pan: None,
    };
    Widget::new(kind, Key::None, WidgetList::of(Vec::new(alloc)))
}

// What a layout gives to a box of 20 by 50, with both remarks.
fn facts() -> Facts {
    let size = Size { w: 20, h: 50 };
    Facts {
        frame: Frame::Boxed {
            bounds: Bounds::tight(size),
            size,
        },
        notes: Notes {
            overflow: 2,
            unbounded: true,
        },
        plugged: true,
        scrolled: 0,
    }
}

// The Detector, laid out as the node 5.
fn laid(alloc: Global) -> Result<LaidNode, AllocError> {
    Ok(LaidNode {
        number: 5,
        widget: Rc::new(alloc, detector(alloc))?,
        facts: facts(),
        children: Vec::new(alloc),
    })
}

fn check_notes(rt: &impl Abort, alloc: Global, root: &LaidNode) -> Result<(), Fail> {
    let list = notes(alloc, root)?;
    let want = [
        Note {
            node: 5,
            remark: Remark::Unbounded,
        },
        Note {
            node: 5,
            remark: Remark::Overflow(2),
        },
    ];
    expect(rt, list.as_slice(), want.as_slice());
    Ok(())
}

fn check_members(rt: &impl Abort, alloc: Global, root: &LaidNode) -> Result<(), Fail> {
    let list = hit_members(alloc, root, Offset { x: 1, y: 1 })?;
    let want = [
        Member {
            node: 5,
            gesture: Gesture::Tap,
        },
        Member {
            node: 5,
            gesture: Gesture::Long,
        },
    ];
    expect(rt, list.as_slice(), want.as_slice());
    Ok(())
}

fn check_path(rt: &impl Abort, alloc: Global, root: &LaidNode) -> Result<(), Fail> {
    let mut path = vec![in alloc; 9]?;
    hit_path(alloc, root, Offset { x: 1, y: 1 }, &mut path)?;
    expect(rt, path.as_slice(), [5].as_slice());
    Ok(())
}

#[test]
fn remarks_and_members_stand_in_order(rt: HostRuntime) -> Result<(), Fail> {
    let node = laid(rt.alloc())?;
    check_notes(&rt, rt.alloc(), &node)?;
    check_members(&rt, rt.alloc(), &node)?;
    check_path(&rt, rt.alloc(), &node)
}
