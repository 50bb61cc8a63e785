// Delegates of one's own, and tables in which a name stands twice. What the delegates of the program do is in the case files.
use crate::compare::expect;
use delegates::{Bars, Corner, Delegate, DelegateTable, Grid, Named, SetEnd};
use draw_records::{Record, print};
use fx_geom::{Bounds, Offset, Size};
use std::alloc::{AllocError, Global};
use std::cell::Cell;
use std::process::Abort;
use std::rc::Rc;
use std::test::Fail;

// The text of records, a line each.
fn text_of(alloc: Global, records: &[Record]) -> Result<String, Fail> {
    let mut text = Vec::new(alloc);
    for record in records {
        print(record, &mut text)?;
    }
    Ok(String::from_utf8(text)?)
}

// What delegates count: how often they are asked for their size, which each layout of them does once, and how often they are painted.
#[derive(Drop)]
pub(crate) struct Counted {
    pub(crate) laid: Rc<Cell<u64>>,
    pub(crate) painted: Rc<Cell<u64>>,
}

pub(crate) fn none_counted(alloc: Global) -> Result<Counted, AllocError> {
    let laid = Rc::new(alloc, Cell::new(0))?;
    let painted = Rc::new(alloc, Cell::new(0))?;
    Ok(Counted { laid, painted })
}

// Bars that count there, so much each time.
#[derive(Drop)]
struct CountedBars {
    bars: Bars,
    weight: u64,
    laid: Rc<Cell<u64>>,
    painted: Rc<Cell<u64>>,
}

fn count(cell: &Rc<Cell<u64>>, weight: u64) {
    cell.set(cell.get().saturating_add(weight));
}

impl Delegate for CountedBars {
    ghost use Rattle.delegates.specs.Meaning.{bars};

    ghost meaning = { λ s. bars s.bars.count s.bars.color };

    fn own_size(&self, bounds: Bounds) -> Size {
        count(&self.laid, self.weight);
        self.bars.own_size(bounds)
    }

    fn child_bounds(&self, bounds: Bounds) -> Bounds {
        self.bars.child_bounds(bounds)
    }

    fn place(&self, size: Size, child: Size) -> Offset {
        self.bars.place(size, child)
    }

    fn paint(&self, alloc: Global, size: Size, out: &mut Vec<Record>) -> Result<(), AllocError> {
        count(&self.painted, self.weight);
        self.bars.paint(alloc, size, out)
    }

    fn set(&mut self, field: &str, n: i64) -> bool {
        self.bars.set(field, n)
    }
}

// Such bars under a name.
pub(crate) fn counted_bars(
    alloc: Global,
    name: &str,
    weight: u64,
    counted: &Counted,
) -> Result<Named, AllocError> {
    let bars = CountedBars {
        bars: Bars::new(),
        weight,
        laid: Rc::clone(&counted.laid)?,
        painted: Rc::clone(&counted.painted)?,
    };
    let delegate = Box::new(alloc, bars)?;
    let name = String::from_str(alloc, name)?;
    Ok(Named { name, delegate })
}

const FOUR_BARS: &str =
    "rect 0 6 2 2 ff0000ff\nrect 2 4 2 4 ff0000ff\nrect 4 2 2 6 ff0000ff\nrect 6 0 2 8 ff0000ff\n";

const ONE_BAR: &str = "rect 0 0 8 8 ff0000ff\n";

// The records of what a delegate draws in a box of 8 by 8.
fn drawn(alloc: Global, delegate: &Box<dyn Delegate>) -> Result<Vec<Record>, Fail> {
    let mut out = Vec::new(alloc);
    delegate.paint(alloc, Size { w: 8, h: 8 }, &mut out)?;
    Ok(out)
}

fn check_drawn(
    rt: &impl Abort,
    alloc: Global,
    delegate: &Box<dyn Delegate>,
    want: &str,
) -> Result<(), Fail> {
    let records = drawn(alloc, delegate)?;
    let text = text_of(alloc, records.as_slice())?;
    expect(rt, text.as_str(), want);
    Ok(())
}

fn make_one_bar(rt: &impl Abort, own: &mut Named) {
    expect(rt, own.delegate.set("count", 1), true);
    expect(rt, own.delegate.set("step", 1), false);
}

fn check_own(
    rt: &impl Abort,
    alloc: Global,
    own: &mut Named,
    counted: &Counted,
) -> Result<(), Fail> {
    check_drawn(rt, alloc, &own.delegate, FOUR_BARS)?;
    make_one_bar(rt, own);
    check_drawn(rt, alloc, &own.delegate, ONE_BAR)?;
    expect(rt, counted.painted.get(), 2);
    Ok(())
}

#[test]
fn a_delegate_of_ones_own_is_boxed(rt: HostRuntime) -> Result<(), Fail> {
    let counted = none_counted(rt.alloc())?;
    let mut own = counted_bars(rt.alloc(), "bars", 1, &counted)?;
    check_own(&rt, rt.alloc(), &mut own, &counted)
}

// Adds a delegate under a name.
fn add(
    list: &mut Vec<Named>,
    alloc: Global,
    name: &str,
    delegate: Box<dyn Delegate>,
) -> Result<(), AllocError> {
    let name = String::from_str(alloc, name)?;
    list.push(Named { name, delegate })?;
    Ok(())
}

fn fill(list: &mut Vec<Named>, alloc: Global) -> Result<(), AllocError> {
    add(list, alloc, "bars", Box::new(alloc, Bars::new())?)?;
    add(list, alloc, "corner", Box::new(alloc, Corner::new())?)?;
    add(list, alloc, "bars", Box::new(alloc, Grid::new())?)
}

// Bars, a corner, and a grid under the name of the bars.
fn plugged(alloc: Global) -> Result<DelegateTable, Fail> {
    let mut list = Vec::new(alloc);
    fill(&mut list, alloc)?;
    Ok(DelegateTable::new(alloc, list)?)
}

fn check_names(rt: &impl Abort, table: &mut DelegateTable) {
    expect(rt, table.entries.len(), 2);
    expect(rt, table.set("bars", "count", 1), SetEnd::Done);
    expect(rt, table.set("bars", "step", 1), SetEnd::NoField);
    expect(rt, table.set("grid", "step", 1), SetEnd::NoDelegate);
}

fn check_drawing(rt: &impl Abort, alloc: Global, table: &DelegateTable) -> Result<(), Fail> {
    let bars = table.get("bars").ok_or("bars are plugged")?;
    check_drawn(rt, alloc, bars, ONE_BAR)
}

#[test]
fn of_equal_names_the_first_counts(rt: HostRuntime) -> Result<(), Fail> {
    let mut table = plugged(rt.alloc())?;
    check_names(&rt, &mut table);
    check_drawing(&rt, rt.alloc(), &table)
}

// The bars go once, and nothing else has their name then.
fn check_unplugging(rt: &impl Abort, table: &mut DelegateTable) {
    expect(rt, table.unplug("grid"), false);
    expect(rt, table.get("bars").is_some(), true);
    expect(rt, table.unplug("bars"), true);
    expect(rt, table.unplug("bars"), false);
    expect(rt, table.get("bars").is_some(), false);
    expect(rt, table.get("corner").is_some(), true);
    expect(rt, table.set("bars", "count", 1), SetEnd::NoDelegate);
    expect(rt, table.set("corner", "dx", -3), SetEnd::Done);
}

#[test]
fn a_delegate_is_unplugged_once(rt: HostRuntime) -> Result<(), Fail> {
    check_unplugging(&rt, &mut plugged(rt.alloc())?);
    Ok(())
}
