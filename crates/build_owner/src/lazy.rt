// What is between the two phases of a build.
ghost use Rattle.std.specs.Prelude.{◌≡◌, true, false, [], map};
ghost use Rattle.build_owner.specs.WalkView.{waiting_of};
ghost use Rattle.build_owner.specs.Waiting.{WaitingBuild, waiting_build_code};

use crate::walk::BuildWalk;
use fx_handles::Handle;
use std::marker::Model;

/// The first phase of a build: the element at its root, and its lazy lists, which wait for their items, with the tree that it gives, as
/// that is planned. The second phase takes it. Where no list waits the tree was built, and nothing is planned any more.
#[derive(Drop)]
pub struct LazyList {
    pub(crate) root: Handle,
    pub(crate) walk: BuildWalk,
}

impl Model for LazyList {
    ghost Value = { WaitingBuild };

    ghost coded = { waiting_build_code };

    ghost view = { λ l. record { root = l.root; lists = map waiting_of l.walk.spots.items; plan = l.walk } };
}

impl LazyList {
    /// Whether a lazy list waits for its items: then the render nodes are to be laid out, and `flush_items` completes the build.
    pub fn waits(&self) -> bool
        ensures none { result ≡ false → self.now.lists ≡ [] }
        ensures some { result ≡ true → self.now.lists ≡ [] → ⊥ }
    {
        self.walk.spots.len() != 0
    }
}
