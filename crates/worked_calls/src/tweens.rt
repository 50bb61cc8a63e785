// The list of tweens that run, of which a run shows no place. What their values are is in the case files.
use crate::compare::expect;
use fx_expr::Txt;
use std::alloc::{AllocError, Global};
use std::process::Abort;
use std::test::Fail;
use tickers::{Curve, StartFault, Tickers, Tween};

// A tween of the field `a` from 0 to 200, from 0 on.
fn tween(alloc: Global, node: u64, ms: u64, curve: Curve) -> Result<Tween, AllocError> {
    let field = Txt::of(String::from_str(alloc, "a")?);
    Ok(Tween {
        node,
        field,
        from: 0,
        to: 200,
        start: 0,
        ms,
        curve,
    })
}

fn start(
    rt: &impl Abort,
    alloc: Global,
    tickers: &mut Tickers,
    told: (u64, u64, Curve),
    want: Result<(), StartFault>,
) -> Result<(), Fail> {
    let tween = tween(alloc, told.0, told.1, told.2)?;
    expect(rt, tickers.start(tween), want);
    Ok(())
}

// Starts tweens of the nodes 1 to 256, and one that takes the place of the second.
fn start_all(rt: &impl Abort, alloc: Global, tickers: &mut Tickers) -> Result<(), Fail> {
    for node in 1..=256 {
        start(rt, alloc, tickers, (node, 1000, Curve::Linear), Ok(()))?;
    }
    let full = Err(StartFault::TooManyTweens);
    start(rt, alloc, tickers, (257, 1000, Curve::Linear), full)?;
    start(rt, alloc, tickers, (2, 2000, Curve::EaseIn), Ok(()))
}

// The node and the curve of the tween at a place.
fn told(tickers: &Tickers, i: usize) -> Option<(u64, Curve)> {
    let tween = tickers.at(i)?;
    Some((tween.node, tween.curve))
}

fn check_places(rt: &impl Abort, tickers: &Tickers) {
    expect(rt, tickers.count(), 256);
    expect(rt, told(tickers, 1), Some((2, Curve::EaseIn)));
    expect(rt, told(tickers, 256), None);
}

fn cancel(rt: &impl Abort, tickers: &mut Tickers) {
    for (node, field, there) in [(1, "a", true), (1, "a", false), (2, "b", false)] {
        expect(rt, tickers.cancel(node, field), there);
    }
}

// All but the second are over at 1,000 milliseconds.
fn finish(rt: &impl Abort, tickers: &mut Tickers) {
    for (now, count) in [(999, 255), (1000, 1)] {
        tickers.finish(now);
        expect(rt, tickers.count(), count);
    }
    expect(rt, told(tickers, 0), Some((2, Curve::EaseIn)));
}

fn run(rt: &impl Abort, alloc: Global, tickers: &mut Tickers) -> Result<(), Fail> {
    start_all(rt, alloc, tickers)?;
    check_places(rt, tickers);
    cancel(rt, tickers);
    finish(rt, tickers);
    Ok(())
}

#[test]
fn tweens_run_in_the_order_of_their_starts(rt: HostRuntime) -> Result<(), Fail> {
    run(&rt, rt.alloc(), &mut Tickers::new(rt.alloc()))
}
