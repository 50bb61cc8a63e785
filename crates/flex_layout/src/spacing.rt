/// The gap before the first child of a Row or a Column and the gap between two children, in u.
#[derive(Clone, Copy, Debug, PartialEq, Eq)]
pub struct Gaps {
    pub lead: u64,
    pub between: u64,
}
