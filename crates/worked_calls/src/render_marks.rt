// How far marks of render nodes reach, and what takes them away.
use crate::render_steps::Change::{CalmAll, LayOutBoth, PaintBoth};
use crate::render_steps::Edit::{Hang, Update};
use crate::render_steps::Look::{Boundary, Clip, Hidden, Intrinsic, Shown, ToBox, Viewport};
use crate::render_steps::Part::{Calm, LeafLaidOut, LeafPainted, MarkLayout, MarkPaint};
use crate::render_steps::Step::{Change, Do, Is, Put};
use crate::render_steps::Told::{Below, Flags};
use crate::render_steps::{Step, run};
use std::test::Fail;

// Up to the one that may take one size alone, and to the boundary of painting.
const ALONG_A_CHAIN: [Step; 11] = [
    Do(Hang(Boundary, false)),
    Do(Hang(Clip, true)),
    Do(Hang(Clip, false)),
    Do(Hang(Clip, false)),
    Change(CalmAll),
    Put(3, MarkLayout),
    Put(3, MarkPaint),
    Is(0, Flags(false, true)),
    Is(1, Flags(true, false)),
    Is(2, Flags(true, false)),
    Is(3, Flags(true, false)),
];

// Past it below an IntrinsicWidth.
const BELOW_INTRINSIC: [Step; 11] = [
    Do(Hang(Clip, false)),
    Do(Hang(Intrinsic, false)),
    Do(Hang(Boundary, true)),
    Do(Hang(Clip, false)),
    Change(CalmAll),
    Put(3, MarkLayout),
    Put(3, MarkPaint),
    Is(0, Flags(true, false)),
    Is(1, Flags(true, false)),
    Is(2, Flags(true, true)),
    Is(3, Flags(true, false)),
];

// Up to the child of an Offstage that is offstage, past one that isn't.
const BELOW_OFFSTAGE: [Step; 11] = [
    Do(Hang(Clip, false)),
    Do(Hang(Hidden, false)),
    Do(Hang(Shown, false)),
    Do(Hang(Clip, false)),
    Change(CalmAll),
    Put(3, MarkLayout),
    Put(3, MarkPaint),
    Is(0, Flags(false, true)),
    Is(1, Flags(false, false)),
    Is(2, Flags(true, false)),
    Is(3, Flags(true, false)),
];

// Past a sliver, up to the Viewport.
const BELOW_A_SLIVER: [Step; 11] = [
    Do(Hang(Clip, false)),
    Do(Hang(Viewport, false)),
    Do(Hang(ToBox, true)),
    Do(Hang(Clip, false)),
    Change(CalmAll),
    Put(3, MarkLayout),
    Put(3, MarkPaint),
    Is(0, Flags(false, true)),
    Is(1, Flags(true, false)),
    Is(2, Flags(true, false)),
    Is(3, Flags(true, false)),
];

// Two nodes are marked on one way through the tree, and come to what each of them does.
const TWO_AT_ONCE: [Step; 13] = [
    Do(Hang(Boundary, false)),
    Do(Hang(Clip, true)),
    Do(Hang(Intrinsic, false)),
    Do(Hang(Clip, true)),
    Do(Hang(Boundary, true)),
    Change(CalmAll),
    Change(LayOutBoth(4, 0)),
    Change(PaintBoth(4, 0)),
    Is(0, Flags(true, true)),
    Is(1, Flags(true, false)),
    Is(2, Flags(true, false)),
    Is(3, Flags(true, false)),
    Is(4, Flags(true, true)),
];

// An Offstage that is set offstage ends its own mark, and so its parent is marked too. Set so once more it marks nothing.
const SET_OFFSTAGE: [Step; 13] = [
    Do(Hang(Clip, false)),
    Do(Hang(Shown, false)),
    Do(Hang(Clip, false)),
    Change(CalmAll),
    Do(Update(1, Hidden)),
    Is(0, Flags(true, true)),
    Is(1, Flags(true, false)),
    Is(2, Flags(false, false)),
    Put(0, Calm),
    Put(1, Calm),
    Do(Update(1, Hidden)),
    Is(0, Flags(false, false)),
    Is(1, Flags(false, false)),
];

// Of a node without children "something below" can go.
const LEAF: [Step; 7] = [
    Do(Hang(Clip, false)),
    Is(0, Below(true, true)),
    Put(0, LeafLaidOut),
    Is(0, Below(false, true)),
    Put(0, LeafPainted),
    Is(0, Below(false, false)),
    Is(0, Flags(true, true)),
];

const TABLES: [&[Step]; 7] = [
    &ALONG_A_CHAIN,
    &BELOW_INTRINSIC,
    &BELOW_OFFSTAGE,
    &BELOW_A_SLIVER,
    &TWO_AT_ONCE,
    &SET_OFFSTAGE,
    &LEAF,
];

#[test]
fn marks_reach_boundaries(rt: HostRuntime) -> Result<(), Fail> {
    for steps in TABLES {
        run(&rt, rt.alloc(), steps)?;
    }
    Ok(())
}
