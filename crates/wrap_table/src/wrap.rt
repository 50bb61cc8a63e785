// The children of a Wrap.
ghost use Rattle.std.specs.Prelude.{◌≡◌, ◌^◌, ◌≤◌, IfOk, OnOk, OnErr};
ghost use Rattle.wrap_table.specs.Pass.{IsInRange, wrap_start, next_left, run_ends, run_begun, wrap_put, wrap_next, wrap_place, wrap_size_at};
ghost use Rattle.wrap_table.specs.Places.{wrap_places_of, wrap_size_of};

use fx_geom::{Len, Offset, Size, add_lengths};
use std::alloc::AllocError;

// What cuts the children into runs, and what stands between them: the greatest width of a run, the gap between two
// children of a run, and the gap between two runs, in u.
#[derive(Clone, Copy)]
pub(crate) struct WrapRule {
    pub(crate) limit: Len,
    pub(crate) gap: u64,
    pub(crate) run_gap: u64,
}

// What is known of the children so far: whether the present run has a child, where it begins, its width and its height, and
// the width of the widest run, in u.
#[derive(Clone, Copy)]
pub(crate) struct WrapPass {
    pub(crate) some: bool,
    pub(crate) top: u64,
    pub(crate) width: u64,
    pub(crate) height: u64,
    pub(crate) widest: u64,
}

impl WrapPass {
    // Before the first child.
    fn start() -> WrapPass
        ensures { result ≡ wrap_start }
    {
        WrapPass {
            some: false,
            top: 0,
            width: 0,
            height: 0,
            widest: 0,
        }
    }

    // Where the next child begins in the present run.
    fn next_left(&self, gap: u64) -> u64
        ensures value { result ≡ next_left gap self.now }
        ensures within { result ≤ 2 ^ 40 }
    {
        if self.some {
            add_lengths(self.width, gap)
        } else {
            0
        }
    }

    // Whether the present run ends before a child of this width.
    fn ends(&self, rule: &WrapRule, width: u64) -> bool
        ensures { result ≡ run_ends rule.now self.now width }
    {
        self.some && rule.limit.limit() < add_lengths(self.next_left(rule.gap), width)
    }

    // Ends the present run.
    fn begin_run(&mut self, run_gap: u64)
        ensures { self.new ≡ run_begun run_gap self.old }
    {
        self.top = add_lengths(self.top, add_lengths(self.height, run_gap));
        self.some = false;
        self.width = 0;
        self.height = 0;
    }

    // Puts a child of this size into the present run, where it begins at this place.
    fn put(&mut self, left: u64, size: Size)
        ensures { self.new ≡ wrap_put left size self.old }
    {
        self.some = true;
        self.width = add_lengths(left, size.w);
        self.height = self.height.max(size.h);
        self.widest = self.widest.max(self.width);
    }

    // Takes the next child: where it stands.
    fn take(&mut self, rule: &WrapRule, size: Size) -> Offset
        requires { IsInRange self.old.top }
        ensures place { result ≡ wrap_place rule.now self.old size }
        ensures next { self.new ≡ wrap_next rule.now self.old size }
        ensures range { IsInRange self.new.top }
    {
        if self.ends(rule, size.w) {
            self.begin_run(rule.run_gap);
        }
        let left = self.next_left(rule.gap);
        self.put(left, size);
        Offset {
            x: left as i64,
            y: self.top as i64,
        }
    }

    // The size of all children.
    fn size(&self) -> Size
        ensures { result ≡ wrap_size_at self.now }
    {
        Size {
            w: self.widest,
            h: add_lengths(self.top, self.height),
        }
    }
}

/// The places of the children of a Wrap, and the size of all of them, in u.
///
/// The children, of these sizes, stand side by side in runs, with `gap` between two of them, and the runs below one another,
/// with `run_gap` between two of them. A run takes the next child where it is no wider than `limit` then, and at least
/// one child. All sums stop at [`LEN_MAX`](fx_geom::LEN_MAX). `out` is replaced by the places, one for each child, and is
/// as before after an error, which comes only for want of memory.
pub fn wrap_places(
    sizes: &[Size],
    limit: Len,
    gap: u64,
    run_gap: u64,
    out: &mut Vec<Offset>,
) -> Result<Size, AllocError>
    ensures size { IfOk result (λ size. size ≡ wrap_size_of sizes.now limit gap run_gap) }
    ensures places { OnOk result (out.new.items ≡ wrap_places_of sizes.now limit gap run_gap) }
    ensures err { OnErr result (out.new.items ≡ out.old.items) }
{
    out.reserve(sizes.len().saturating_sub(out.len()))?;
    out.clear();
    let rule = WrapRule {
        limit,
        gap,
        run_gap,
    };
    let mut pass = WrapPass::start();
    for size in sizes {
        out.push(pass.take(&rule, *size))?;
    }
    Ok(pass.size())
}

/// The size of all children of a Wrap, in u, as [`wrap_places`] gives it.
pub fn wrap_size(sizes: &[Size], limit: Len, gap: u64, run_gap: u64) -> Size
    ensures { result ≡ wrap_size_of sizes.now limit gap run_gap }
{
    let rule = WrapRule {
        limit,
        gap,
        run_gap,
    };
    let mut pass = WrapPass::start();
    for size in sizes {
        let _ = pass.take(&rule, *size);
    }
    pass.size()
}
