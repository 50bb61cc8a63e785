// Changes of a screen, each also below an intrinsic box, a hidden Offstage, an unseen item of a list and an unseen box among slivers: what
// each frame shows, and how much of it is laid out and painted for that.
use crate::scenes::{Around, Shape};
use crate::screen_steps::{Counts, Step, run};
use fx_geom::Size;
use std::alloc::Global;
use std::process::Abort;
use std::test::Fail;

const BIG: Size = Size { w: 100, h: 60 };

const SMALL: Size = Size { w: 40, h: 30 };

// ---- changes

// Where a build is seen and where it isn't, and how far the list is scrolled then.
type Place = (Around, Around, u64);

const PLAIN: Place = (Around::Corner, Around::Corner, 0);

const INTRINSIC: Place = (Around::Intrinsic, Around::Intrinsic, 0);

const OFFSTAGE: Place = (Around::OnStage, Around::OffStage, 0);

const ITEM: Place = (Around::Item, Around::Item, 25);

const SLIVER: Place = (Around::Sliver, Around::Sliver, 12);

// Where a build stands, what is done to it while it isn't seen, what it is then, what is counted when that is shown, and what is
// counted when it is seen again. At first each box is laid out and painted once; when it isn't seen any more nothing is. When it is seen
// again the first box and the second one are painted in each case, since they are in no repaint boundary of their own, and what is in the
// boundary only where it changed.
type Change = (Place, Step, Shape, Counts, Counts);

const CHANGES: &[Change] = &[
    // What it stands in shows it all the time: it is laid out and painted at once.
    (PLAIN, Step::Stay, Shape::Base, (0, 0), (0, 0)),
    (PLAIN, Step::Stay, Shape::Recolored, (0, 10), (0, 0)),
    (PLAIN, Step::Stay, Shape::Clipped, (1, 10), (0, 0)),
    (PLAIN, Step::Stay, Shape::Padded, (11, 111), (0, 0)),
    (PLAIN, Step::Stay, Shape::Wider, (11, 111), (0, 0)),
    (PLAIN, Step::Stay, Shape::Moved, (100, 101), (0, 0)),
    (PLAIN, Step::Stay, Shape::Swapped, (0, 101), (0, 0)),
    (PLAIN, Step::Stay, Shape::SwappedGreen, (0, 111), (0, 0)),
    (PLAIN, Step::Stay, Shape::Added, (0, 101), (0, 0)),
    (PLAIN, Step::Stay, Shape::FirstGone, (0, 1), (0, 0)),
    (PLAIN, Step::Stay, Shape::SecondGone, (0, 100), (0, 0)),
    (PLAIN, Step::Stay, Shape::Replaced, (11, 111), (0, 0)),
    (PLAIN, Step::TwoBars, Shape::Base, (11, 10), (0, 0)),
    (PLAIN, Step::Unplug, Shape::Base, (1, 0), (0, 0)),
    // The same below the intrinsic box.
    (INTRINSIC, Step::Stay, Shape::Base, (0, 0), (0, 0)),
    (INTRINSIC, Step::Stay, Shape::Recolored, (0, 10), (0, 0)),
    (INTRINSIC, Step::Stay, Shape::Clipped, (1, 10), (0, 0)),
    (INTRINSIC, Step::Stay, Shape::Padded, (11, 111), (0, 0)),
    (INTRINSIC, Step::Stay, Shape::Wider, (11, 111), (0, 0)),
    (INTRINSIC, Step::Stay, Shape::Moved, (100, 101), (0, 0)),
    (INTRINSIC, Step::Stay, Shape::Swapped, (0, 101), (0, 0)),
    (INTRINSIC, Step::Stay, Shape::SwappedGreen, (0, 111), (0, 0)),
    (INTRINSIC, Step::Stay, Shape::Added, (0, 101), (0, 0)),
    (INTRINSIC, Step::Stay, Shape::FirstGone, (0, 1), (0, 0)),
    (INTRINSIC, Step::Stay, Shape::SecondGone, (0, 100), (0, 0)),
    (INTRINSIC, Step::Stay, Shape::Replaced, (11, 111), (0, 0)),
    (INTRINSIC, Step::TwoBars, Shape::Base, (11, 10), (0, 0)),
    (INTRINSIC, Step::Unplug, Shape::Base, (1, 0), (0, 0)),
    // A hidden Offstage lays it out at once, and it is painted later.
    (OFFSTAGE, Step::Stay, Shape::Base, (0, 0), (0, 101)),
    (OFFSTAGE, Step::Stay, Shape::Recolored, (0, 0), (0, 111)),
    (OFFSTAGE, Step::Stay, Shape::Clipped, (1, 0), (0, 111)),
    (OFFSTAGE, Step::Stay, Shape::Padded, (11, 0), (0, 111)),
    (OFFSTAGE, Step::Stay, Shape::Wider, (11, 0), (0, 111)),
    (OFFSTAGE, Step::Stay, Shape::Moved, (100, 0), (0, 101)),
    (OFFSTAGE, Step::Stay, Shape::Swapped, (0, 0), (0, 101)),
    (OFFSTAGE, Step::Stay, Shape::SwappedGreen, (0, 0), (0, 111)),
    (OFFSTAGE, Step::Stay, Shape::Added, (0, 0), (0, 101)),
    (OFFSTAGE, Step::Stay, Shape::FirstGone, (0, 0), (0, 1)),
    (OFFSTAGE, Step::Stay, Shape::SecondGone, (0, 0), (0, 100)),
    (OFFSTAGE, Step::Stay, Shape::Replaced, (11, 0), (0, 111)),
    (OFFSTAGE, Step::TwoBars, Shape::Base, (11, 0), (0, 111)),
    (OFFSTAGE, Step::Unplug, Shape::Base, (1, 0), (0, 101)),
    // An unseen item is neither laid out nor painted before it is seen.
    (ITEM, Step::Stay, Shape::Base, (0, 0), (0, 101)),
    (ITEM, Step::Stay, Shape::Recolored, (0, 0), (0, 111)),
    (ITEM, Step::Stay, Shape::Clipped, (0, 0), (1, 111)),
    (ITEM, Step::Stay, Shape::Padded, (0, 0), (11, 111)),
    (ITEM, Step::Stay, Shape::Wider, (0, 0), (11, 111)),
    (ITEM, Step::Stay, Shape::Moved, (0, 0), (100, 101)),
    (ITEM, Step::Stay, Shape::Swapped, (0, 0), (0, 101)),
    (ITEM, Step::Stay, Shape::SwappedGreen, (0, 0), (0, 111)),
    (ITEM, Step::Stay, Shape::Added, (0, 0), (0, 101)),
    (ITEM, Step::Stay, Shape::FirstGone, (0, 0), (0, 1)),
    (ITEM, Step::Stay, Shape::SecondGone, (0, 0), (0, 100)),
    (ITEM, Step::Stay, Shape::Replaced, (0, 0), (11, 111)),
    (ITEM, Step::TwoBars, Shape::Base, (0, 0), (11, 111)),
    (ITEM, Step::Unplug, Shape::Base, (0, 0), (1, 101)),
    // The box of an unseen sliver is laid out at once, since the others stand by its extent. Its height has no end, so that in the Padding
    // nothing has other bounds.
    (SLIVER, Step::Stay, Shape::Base, (0, 0), (0, 101)),
    (SLIVER, Step::Stay, Shape::Recolored, (0, 0), (0, 111)),
    (SLIVER, Step::Stay, Shape::Clipped, (1, 0), (0, 111)),
    (SLIVER, Step::Stay, Shape::Padded, (1, 0), (0, 111)),
    (SLIVER, Step::Stay, Shape::Wider, (11, 0), (0, 111)),
    (SLIVER, Step::Stay, Shape::Moved, (100, 0), (0, 101)),
    (SLIVER, Step::Stay, Shape::Swapped, (0, 0), (0, 101)),
    (SLIVER, Step::Stay, Shape::SwappedGreen, (0, 0), (0, 111)),
    (SLIVER, Step::Stay, Shape::Added, (0, 0), (0, 101)),
    (SLIVER, Step::Stay, Shape::FirstGone, (0, 0), (0, 1)),
    (SLIVER, Step::Stay, Shape::SecondGone, (0, 0), (0, 100)),
    (SLIVER, Step::Stay, Shape::Replaced, (11, 0), (0, 111)),
    (SLIVER, Step::TwoBars, Shape::Base, (11, 0), (0, 111)),
    (SLIVER, Step::Unplug, Shape::Base, (1, 0), (0, 101)),
];

// ---- histories

const BASE_TEXT: &str = "offset 0 0
  picture
    rect 0 4 1 1 ff0000ff
    rect 1 3 2 2 ff0000ff
    rect 3 2 2 3 ff0000ff
    rect 5 0 2 5 ff0000ff
    rect 7 6 2 2 ff0000ff
    rect 9 4 2 4 ff0000ff
    rect 11 2 2 6 ff0000ff
    rect 13 0 2 8 ff0000ff
  offset 7 0
    picture
      rect 0 0 8 8 ffff0000
      rect 0 6 2 2 ff0000ff
      rect 2 4 2 4 ff0000ff
      rect 4 2 2 6 ff0000ff
      rect 6 0 2 8 ff0000ff
";

const MOVED_TEXT: &str = "offset 0 0
  picture
    rect 0 4 2 1 ff0000ff
    rect 2 3 2 2 ff0000ff
    rect 4 2 2 3 ff0000ff
    rect 6 0 3 5 ff0000ff
    rect 9 6 2 2 ff0000ff
    rect 11 4 2 4 ff0000ff
    rect 13 2 2 6 ff0000ff
    rect 15 0 2 8 ff0000ff
  offset 9 0
    picture
      rect 0 0 8 8 ffff0000
      rect 0 6 2 2 ff0000ff
      rect 2 4 2 4 ff0000ff
      rect 4 2 2 6 ff0000ff
      rect 6 0 2 8 ff0000ff
";

// Two frames as they were worked by hand.
const TEXTS: &[Step] = &[
    Step::Show(Around::Corner, Shape::Base, BIG, (111, 111)),
    Step::Is(BASE_TEXT),
    Step::Show(Around::Corner, Shape::Moved, BIG, (100, 101)),
    Step::Is(MOVED_TEXT),
];

// In another view each box has other bounds, though nothing is marked.
const VIEWS: &[Step] = &[
    Step::Show(Around::Corner, Shape::Base, BIG, (111, 111)),
    Step::Show(Around::Corner, Shape::Base, SMALL, (111, 111)),
    Step::Show(Around::Corner, Shape::Recolored, SMALL, (0, 10)),
    Step::Show(Around::Corner, Shape::Recolored, BIG, (111, 111)),
];

// Three items of 20 each can't be scrolled farther than 40 where 20 are seen.
const SCROLLED_TOO_FAR: &[Step] = &[
    Step::At(None),
    Step::Show(Around::Item, Shape::Base, BIG, (111, 111)),
    Step::Scroll(900),
    Step::Show(Around::Item, Shape::Base, BIG, (0, 0)),
    Step::At(Some(40)),
    Step::Show(Around::Item, Shape::Base, BIG, (0, 0)),
    Step::Scroll(0),
    Step::Show(Around::Item, Shape::Base, BIG, (0, 101)),
];

// Scrolled there and back between two frames, nothing looks different.
const SCROLLED_BACK: &[Step] = &[
    Step::Show(Around::Item, Shape::Base, BIG, (111, 111)),
    Step::Scroll(4),
    Step::Scroll(0),
    Step::At(Some(0)),
    Step::Show(Around::Item, Shape::Base, BIG, (0, 0)),
];

// An item that was changed stays unseen, while the list is laid out, for a frame more.
const MOVED: &[Step] = &[
    Step::Show(Around::Item, Shape::Base, BIG, (111, 111)),
    Step::Scroll(25),
    Step::Show(Around::Item, Shape::Base, BIG, (0, 0)),
    Step::Show(Around::Item, Shape::Moved, BIG, (0, 0)),
    Step::Scroll(30),
    Step::Show(Around::Item, Shape::Moved, BIG, (0, 0)),
    Step::Scroll(0),
    Step::Show(Around::Item, Shape::Moved, BIG, (100, 101)),
];

// An item that is a repaint boundary has another color while it isn't seen. It isn't painted before it is seen.
const UNSEEN_BOUNDARY: &[Step] = &[
    Step::Show(Around::Item, Shape::Boundary, BIG, (10, 10)),
    Step::Scroll(25),
    Step::Show(Around::Item, Shape::Boundary, BIG, (0, 0)),
    Step::Show(Around::Item, Shape::BoundaryGreen, BIG, (0, 0)),
    Step::Scroll(0),
    Step::Show(Around::Item, Shape::BoundaryGreen, BIG, (0, 10)),
];

// The box of a sliver has the sliver's cross extent from the start, so that it is laid out once.
const BOX_OF_A_SLIVER: &[Step] = &[
    Step::Show(Around::Sliver, Shape::Boundary, BIG, (10, 10)),
    Step::Show(Around::Sliver, Shape::BoundaryGreen, BIG, (0, 10)),
];

// A box is painted again though it is laid out as it was: it stands elsewhere. The Row keeps its size.
const PUSHED: &[Step] = &[
    Step::Show(Around::Item, Shape::BoundaryFirst, BIG, (110, 110)),
    Step::Show(Around::Item, Shape::BoundaryFirstWider, BIG, (10, 110)),
    Step::Show(Around::Item, Shape::BoundaryFirst, BIG, (10, 110)),
];

// The list goes and comes again, and its item goes on without it.
const LIST_GOES: &[Step] = &[
    Step::Show(Around::Item, Shape::Base, BIG, (111, 111)),
    Step::Scroll(4),
    Step::Show(Around::Item, Shape::Base, BIG, (0, 101)),
    Step::Show(Around::Corner, Shape::Base, BIG, (111, 111)),
    Step::At(None),
    Step::Show(Around::Item, Shape::Base, BIG, (111, 111)),
    Step::At(Some(0)),
];

// What was hidden from the start is painted when it is shown.
const HIDDEN_FIRST: &[Step] = &[
    Step::Show(Around::OffStage, Shape::Base, BIG, (111, 0)),
    Step::Show(Around::OnStage, Shape::Base, BIG, (0, 111)),
    Step::Show(Around::OnStage, Shape::Base, BIG, (0, 0)),
];

// A delegate that nobody uses, and one that is changed twice.
const DELEGATES: &[Step] = &[
    Step::Show(Around::Corner, Shape::SecondGone, BIG, (100, 100)),
    Step::TwoBars,
    Step::Show(Around::Corner, Shape::SecondGone, BIG, (0, 0)),
    Step::Show(Around::Corner, Shape::Base, BIG, (11, 111)),
    Step::TwoBars,
    Step::TwoBars,
    Step::Show(Around::Corner, Shape::Base, BIG, (11, 10)),
];

// Where a repaint boundary was, another one is, and then a third one.
const BOUNDARIES: &[Step] = &[
    Step::Show(Around::Corner, Shape::Base, BIG, (111, 111)),
    Step::Show(Around::Corner, Shape::Replaced, BIG, (11, 111)),
    Step::Show(Around::Corner, Shape::Base, BIG, (11, 111)),
];

// Both boundaries go, and come again at places that others had; then what is in the inner one has another color, and the outer one's own
// part is as it was.
const NESTED_AGAIN: &[Step] = &[
    Step::Show(Around::Corner, Shape::Nested, BIG, (111, 111)),
    Step::Show(Around::Corner, Shape::NoBoundary, BIG, (0, 0)),
    Step::Show(Around::Corner, Shape::Nested, BIG, (111, 111)),
    Step::Show(Around::Corner, Shape::NestedRecolored, BIG, (0, 10)),
    Step::Show(Around::Corner, Shape::Nested, BIG, (0, 10)),
];

const HISTORIES: &[&[Step]] = &[
    TEXTS,
    VIEWS,
    SCROLLED_TOO_FAR,
    SCROLLED_BACK,
    MOVED,
    UNSEEN_BOUNDARY,
    BOX_OF_A_SLIVER,
    PUSHED,
    LIST_GOES,
    HIDDEN_FIRST,
    DELEGATES,
    BOUNDARIES,
    NESTED_AGAIN,
];

// ---- the tests

fn run_change(rt: &impl Abort, alloc: Global, number: usize, change: &Change) -> Result<(), Fail> {
    let ((seen, unseen, scroll), between, shape, counts_unseen, counts_seen) = *change;
    let steps = [
        Step::Show(seen, Shape::Base, BIG, (111, 111)),
        Step::Scroll(scroll),
        Step::Show(unseen, Shape::Base, BIG, (0, 0)),
        between,
        Step::Show(unseen, shape, BIG, counts_unseen),
        Step::Scroll(0),
        Step::Show(seen, shape, BIG, counts_seen),
    ];
    run(rt, alloc, number, &steps)
}

fn run_changes(rt: &impl Abort, alloc: Global, changes: &[Change]) -> Result<(), Fail> {
    for i in 0..changes.len() {
        run_change(rt, alloc, i, &changes[i])?;
    }
    Ok(())
}

fn run_histories(rt: &impl Abort, alloc: Global, histories: &[&[Step]]) -> Result<(), Fail> {
    for i in 0..histories.len() {
        run(rt, alloc, i, histories[i])?;
    }
    Ok(())
}

#[test]
fn what_changed_is_laid_out_and_painted_once_it_is_seen(rt: HostRuntime) -> Result<(), Fail> {
    run_changes(&rt, rt.alloc(), CHANGES)
}

#[test]
fn screens_show_what_full_layout_and_painting_show(rt: HostRuntime) -> Result<(), Fail> {
    run_histories(&rt, rt.alloc(), HISTORIES)
}
