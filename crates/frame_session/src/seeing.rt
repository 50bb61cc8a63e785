// The lines that tell what the last frame shows.
ghost use Rattle.std.specs.Prelude.{◌≡◌, ◌++◌, OnOk, List};
ghost use Rattle.delegates.specs.Table.{Plug};
ghost use Rattle.session_form.specs.Outcome.{text_of};
ghost use Rattle.session_form.specs.Seeing.{hit_line, semantics_line, states_line};
ghost use Rattle.frame_session.specs.StandsFor.{StandsFor};
ghost use Rattle.session_form.specs.State.{SessionState};

use crate::frame_text::print_hits;
use crate::held::HeldSession;
use crate::states::print_states;
use fx_geom::Offset;
use render_readers::{hit_path, semantics};
use semantics_tree::print;
use std::alloc::{AllocError, Global};

impl HeldSession {
    // `hit X Y`
    pub(crate) fn hit(&self, alloc: Global, at: Offset, out: &mut Vec<u8>) -> Result<(), AllocError>
        ensures { (ds : List Plug) (s : SessionState) → StandsFor self.now ds s → OnOk result (out.new.items ≡ out.old.items ++ text_of (hit_line at s)) }
    {
        let mut nodes = Vec::new(alloc);
        hit_path(alloc, self.owner.render(), at, &mut nodes)?;
        print_hits(nodes.as_slice(), out)
    }

    // `semantics`
    pub(crate) fn semantics(&self, alloc: Global, out: &mut Vec<u8>) -> Result<(), AllocError>
        ensures { (ds : List Plug) (s : SessionState) → StandsFor self.now ds s → OnOk result (out.new.items ≡ out.old.items ++ text_of (semantics_line s)) }
    {
        let root = semantics(alloc, self.owner.render())?;
        print(alloc, root.as_ref(), out)
    }

    // `states`
    pub(crate) fn states(&self, alloc: Global, out: &mut Vec<u8>) -> Result<(), AllocError>
        ensures { (ds : List Plug) (s : SessionState) → StandsFor self.now ds s → OnOk result (out.new.items ≡ out.old.items ++ text_of (states_line s)) }
    {
        print_states(alloc, &self.owner, out)
    }
}
