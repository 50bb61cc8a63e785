// The words of this crate's members.

/// How much of its main axis a Row or a Column takes (`MainAxisSize`).
#[derive(Clone, Copy, PartialEq, Eq)]
pub enum MainSize {
    Max,
    Min,
}

/// Whether a flexible child may be smaller than its share, or fills it (`FlexFit`).
#[derive(Clone, Copy, PartialEq, Eq)]
pub enum FlexFit {
    Loose,
    Tight,
}

/// What a Detector answers where no child of its is hit: nothing, that it is hit, or that it is hit and what lies
/// behind it may be too (`HitTestBehavior`).
#[derive(Clone, Copy, PartialEq, Eq)]
pub enum Behavior {
    Defer,
    Opaque,
    Translucent,
}
