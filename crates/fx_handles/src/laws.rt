//! Laws of handles and arenas. None of these calls does anything: their contracts say what holds of all of them. Proofs of
//! the crates above cite the same laws, and more, by their names in `specs/HandleLaws.antt` and `specs/ArenaLaws.antt`.
ghost use Rattle.std.specs.Prelude.{◌≡◌, ◌≢◌, ◌+◌, ◌≤◌, ◌∷◌, ◌↔◌, List, length, Some, IsTrue};
ghost use Rattle.fx_handles.specs.declared.Handle.{Handle};
ghost use Rattle.fx_handles.specs.Handle.{same, times, Among, AreDistinct};
ghost use Rattle.fx_handles.specs.Arena.{Arena as ArenaOf, get, IsLive, used_count, with_value, WritesIn};

use crate::Arena;

/// `same` tells whether two handles are one, and `times` counts where a handle stands.
pub fn handle_laws()
    ensures same { (h k : Handle) → (IsTrue (same h k) ↔ (h ≡ k)) }
    ensures here { (h : Handle) (hs : List Handle) → times h (h ∷ hs) ≡ 1 + times h hs }
    ensures there { (h k : Handle) (hs : List Handle) → k ≢ h → times h (k ∷ hs) ≡ times h hs }
{}

impl<T> Arena<T> {
    /// A slot has at most one live handle, there are as many live handles as values, and what is written at a live handle is
    /// there; written back, nothing has changed.
    pub fn arena_laws()
        ensures slot { (a : ArenaOf T) (h k : Handle) → IsLive a h → IsLive a k → k.index ≡ h.index → k ≡ h }
        ensures at_least { (a : ArenaOf T) (hs : List Handle) → AreDistinct hs
            → ((h : Handle) → Among h hs → IsLive a h) → length hs ≤ used_count a }
        ensures at_most { (a : ArenaOf T) (hs : List Handle) → ((h : Handle) → IsLive a h → Among h hs)
            → used_count a ≤ length hs }
        ensures writes { (a : ArenaOf T) (h : Handle) (w : T) → IsLive a h → WritesIn a (with_value a h w) h w }
        ensures back { (a : ArenaOf T) (h : Handle) (was w : T) → get a h ≡ Some was
            → with_value (with_value a h w) h was ≡ a }
    {}
}
