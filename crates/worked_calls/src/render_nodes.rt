// Render nodes: edits, what is stored at one, users of delegates, and plans.
use crate::render_steps::Change::{ClearLive, DropInactive, Remove, Spend};
use crate::render_steps::Edit::{
    Attach, Detach, Insert, Leave, LeavePart, Loose, Move, Refuse, Update,
};
use crate::render_steps::Look::{Bars, Clip, Grid, Lazy, Viewport};
use crate::render_steps::Part::{Calm, Laid, MarkLayout, MarkPaint, ScrollBy, Shares};
use crate::render_steps::Step::{All, Change, Do, Has, Is, Put};
use crate::render_steps::Told::{Below, Children, Flags, Flex, HasWidget, Number, Parent, Slot};
use crate::render_steps::Whole::{Count, Inactive, Root, UserCount, Users};
use crate::render_steps::{Part, SEEN, SIZE, Step, Stored, VIEW, run};
use fx_geom::Offset;
use sliver_layout::Window;
use std::test::Fail;

const HERE: Offset = Offset { x: 3, y: 4 };

const THERE: Offset = Offset { x: 5, y: 6 };

const SECOND: Window = Window { first: 1, end: 2 };

// Once the slot of a node is used again, the handle that it had reaches nothing.
const USED_AGAIN: [Step; 34] = [
    Do(Insert(Clip, None)),
    Do(Insert(Bars, Some(0))),
    Do(Insert(Bars, Some(0))),
    Is(0, Children(32)),
    Is(2, Parent(1)),
    Is(1, Number(Some(2))),
    Is(1, HasWidget(true)),
    All(UserCount("bars", 2)),
    All(UserCount("grid", 0)),
    Is(1, Flags(true, true)),
    Is(1, Below(true, true)),
    Has(1, Stored::Size(None)),
    Has(1, Stored::At(None)),
    Has(1, Stored::Shown(false)),
    Has(1, Stored::HasDelegate(false)),
    Change(Remove(2, 1)),
    All(Users("bars", 2)),
    Change(Remove(2, 0)),
    Do(Insert(Grid, Some(0))),
    Is(3, Slot(2)),
    Put(3, Calm),
    Put(0, Calm),
    Put(2, MarkLayout),
    Put(2, MarkPaint),
    Do(Update(2, Bars)),
    Put(2, Part::At(HERE)),
    Put(2, Shares),
    Change(Remove(2, 0)),
    Is(2, Number(None)),
    Is(3, Number(Some(4))),
    Has(3, Stored::At(None)),
    All(Users("grid", 4)),
    Is(3, Flags(false, false)),
    Is(0, Flags(false, false)),
];

// A box has no geometry, and isn't scrolled.
const STORED: [Step; 21] = [
    Do(Insert(Clip, None)),
    Do(Insert(Bars, Some(0))),
    Do(Insert(Bars, Some(0))),
    Put(2, Laid),
    Put(2, Part::Sliver),
    Has(2, Stored::Size(Some(SIZE))),
    Has(2, Stored::Sliver(None)),
    Has(2, Stored::Geometry(None)),
    Has(2, Stored::HasFrame(true)),
    Has(1, Stored::Size(None)),
    Put(2, Part::Notes(7, true)),
    Put(2, Part::HasDelegate(true)),
    Put(2, Part::Scrolled(5)),
    Put(2, Part::Scroll(6)),
    Put(2, Part::Live(SECOND)),
    Has(2, Stored::Notes(7, true)),
    Has(2, Stored::HasDelegate(true)),
    Has(2, Stored::Scrolled(5)),
    Has(2, Stored::Scroll(None)),
    Has(2, Stored::Live(None)),
    Put(2, ScrollBy(1, false)),
];

// What is set anew marks the parent, and what is set to what it was marks nothing.
const PLACED: [Step; 17] = [
    Do(Insert(Clip, None)),
    Do(Insert(Bars, Some(0))),
    Put(0, Calm),
    Put(1, Part::At(HERE)),
    Has(1, Stored::At(Some(HERE))),
    Is(0, Flags(false, true)),
    Put(0, Calm),
    Put(1, Part::At(HERE)),
    Is(0, Flags(false, false)),
    Put(1, Part::Shown(true)),
    Has(1, Stored::Shown(true)),
    Is(0, Flags(false, true)),
    Put(0, Calm),
    Is(1, Flex(0)),
    Put(1, Shares),
    Is(1, Flex(2)),
    Is(0, Flags(true, false)),
];

// A Viewport is scrolled, and stops at its start; the list below it has a live range until all are taken away.
const SCROLLED: [Step; 18] = [
    Do(Insert(Viewport, None)),
    Do(Insert(Lazy, Some(0))),
    Put(0, Calm),
    Put(0, ScrollBy(40, true)),
    Has(0, Stored::Scroll(Some(40))),
    Has(1, Stored::Scroll(None)),
    Is(0, Flags(true, false)),
    Put(0, ScrollBy(-50, true)),
    Has(0, Stored::Scroll(Some(0))),
    Put(1, Part::Sliver),
    Put(1, Laid),
    Has(1, Stored::Sliver(Some(VIEW))),
    Has(1, Stored::Geometry(Some(SEEN))),
    Has(1, Stored::Size(None)),
    Put(1, Part::Live(SECOND)),
    Has(1, Stored::Live(Some(SECOND))),
    Change(ClearLive),
    Has(1, Stored::Live(None)),
];

// A node goes below another one, waits with a third, and both are dropped; the root waits and comes back.
const MOVED: [Step; 19] = [
    Do(Insert(Clip, None)),
    Do(Insert(Bars, Some(0))),
    Do(Insert(Bars, Some(0))),
    Do(Move(2, 1)),
    Is(2, Parent(2)),
    Do(Detach(2)),
    Is(2, Parent(0)),
    Do(Loose(Bars)),
    All(Inactive(34)),
    Change(DropInactive(2)),
    All(Users("bars", 2)),
    Do(Detach(0)),
    All(Root(0)),
    Put(0, Calm),
    Do(Attach),
    All(Root(1)),
    Is(0, Flags(true, true)),
    Change(Spend),
    Do(Refuse(0, Bars)),
];

// First one node is a part with another delegate, and the others wait with what is stored at them; then it is all that is left.
const LEFT: [Step; 19] = [
    Do(Insert(Clip, None)),
    Do(Insert(Bars, Some(0))),
    Do(Insert(Bars, Some(0))),
    Put(1, Part::At(HERE)),
    Put(2, Part::At(THERE)),
    Do(LeavePart(2, Grid)),
    All(Root(3)),
    All(Users("grid", 3)),
    All(Users("bars", 2)),
    Has(1, Stored::At(Some(HERE))),
    All(Inactive(1)),
    Put(2, Calm),
    Do(Leave(2, Grid, (0, 0))),
    Do(Leave(2, Bars, (1, 1))),
    All(Count(1)),
    Is(0, Number(None)),
    All(Users("bars", 3)),
    Has(2, Stored::At(Some(THERE))),
    Is(2, Flags(false, false)),
];

const TABLES: [&[Step]; 6] = [&USED_AGAIN, &STORED, &PLACED, &SCROLLED, &MOVED, &LEFT];

#[test]
fn render_nodes_are_as_they_were_left(rt: HostRuntime) -> Result<(), Fail> {
    for steps in TABLES {
        run(&rt, rt.alloc(), steps)?;
    }
    Ok(())
}
