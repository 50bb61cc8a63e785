//! Laws over the definitions.
ghost use Rattle.std.specs.Prelude.{ℕ, List, map};
ghost use Rattle.fx_geom.specs.declared.scales.Scale.{Scale};
ghost use Rattle.gesture_arena.specs.Moment.{Pointer};
ghost use Rattle.gesture_arena.specs.Alone.{Happens, IsOnly, IsAlone, AreInOrder, down_time, deadline_of, due_at};
ghost use Rattle.gesture_arena.specs.Rows.{Works};

/// The definitions give what gestures worked by hand give.
pub fn worked_gestures()
    ensures { Works }
{}

/// Whatever happens to several pointers, and in which order, all that comes of one of them is what comes of its own moments.
pub fn alone()
    ensures { (s : Scale) (ps : List Pointer) (p : Pointer) (hs : List Happens) → IsOnly p ps → IsAlone s ps p hs }
{}

/// Where no pointer went down before an earlier one, deadlines that come at once come in their order, and equal ones in
/// order of down.
pub fn deadlines_in_order()
    ensures { (now : ℕ) (ps : List Pointer) → AreInOrder (map down_time ps) → AreInOrder (map deadline_of (due_at now ps)) }
{}
