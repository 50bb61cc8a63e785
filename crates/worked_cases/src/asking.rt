use super::fault::Fault;
use delegates::{Bars, Delegate, Named};
use draw_records::Record;
use fx_geom::{Bounds, Offset, Size};
use std::alloc::{AllocError, Global};
use std::cell::Cell;
use std::rc::Rc;

/// How often a delegate is asked for its size, and how often it is asked to paint.
#[derive(Clone, Copy, PartialEq, Eq)]
pub struct Asked {
    pub sizes: u64,
    pub paints: u64,
}

impl Asked {
    /// The two numbers of a line, as `1 1`.
    pub fn read(numbers: &str) -> Result<Asked, Fault> {
        let (sizes, paints) = numbers.split_once(' ').ok_or(Fault::Unread)?;
        Ok(Asked {
            sizes: sizes.parse::<u64>()?,
            paints: paints.parse::<u64>()?,
        })
    }
}

/// Bars that count how often they are asked.
#[derive(Drop)]
pub struct CountingBars {
    bars: Bars,
    asked: Rc<Cell<Asked>>,
}

impl Delegate for CountingBars {
    ghost use Rattle.delegates.specs.Meaning.{bars};

    ghost meaning = { λ s. bars s.bars.count s.bars.color };

    fn own_size(&self, bounds: Bounds) -> Size {
        let asked = self.asked.get();
        let sizes = asked.sizes.saturating_add(1);
        self.asked.set(Asked { sizes, ..asked });
        self.bars.own_size(bounds)
    }

    fn child_bounds(&self, bounds: Bounds) -> Bounds {
        self.bars.child_bounds(bounds)
    }

    fn place(&self, size: Size, child: Size) -> Offset {
        self.bars.place(size, child)
    }

    fn paint(&self, alloc: Global, size: Size, out: &mut Vec<Record>) -> Result<(), AllocError> {
        let asked = self.asked.get();
        let paints = asked.paints.saturating_add(1);
        self.asked.set(Asked { paints, ..asked });
        self.bars.paint(alloc, size, out)
    }

    fn set(&mut self, field: &str, n: i64) -> bool {
        self.bars.set(field, n)
    }
}

impl CountingBars {
    /// Bars that count there.
    pub fn new(asked: Rc<Cell<Asked>>) -> CountingBars {
        CountingBars {
            bars: Bars::new(),
            asked,
        }
    }
}

/// A list of one delegate, under the name `bars`.
pub fn alone(alloc: Global, delegate: Box<dyn Delegate>) -> Result<Vec<Named>, AllocError> {
    let name = String::from_str(alloc, "bars")?;
    let mut list = Vec::new(alloc);
    list.push(Named { name, delegate })?;
    Ok(list)
}
