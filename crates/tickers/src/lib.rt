//! Tweens: whole numbers that go from one value to another in time, along a curve. Times are in milliseconds.
#![tactic(auto)]

pub mod laws;
mod tickers;
mod tween;

pub use tickers::{MAX_TWEENS, StartFault, Tickers};
pub use tween::{Curve, Tween, value};
