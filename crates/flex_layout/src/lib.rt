//! The arithmetic of rows, columns and stacks: the shares of flexible children, the gaps along the main axis, the
//! places across it, and the bounds and places of positioned children. All lengths are in u.
#![tactic(auto)]

pub mod flex;
pub mod spacing;
pub mod stack;

pub use flex::{align_at, cross_at, factors_fit, flex_extent, gaps, share, shares_sum_to_free};
pub use spacing::Gaps;
pub use stack::{placed_at, placed_bounds};
