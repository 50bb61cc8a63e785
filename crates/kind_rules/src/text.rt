// Text (`RenderParagraph`).
ghost use Rattle.std.specs.Prelude.{◌≡◌, []};
ghost use Rattle.fx_geom.specs.Bounds.{constrain};
ghost use Rattle.layout_form.specs.TextRule.{text_size};
ghost use Rattle.layout_form.specs.Frames.{sized_with};
ghost use Rattle.kind_rules.specs.Ruling.{ruling_of, box_ruling};

use crate::few::Few;
use crate::made::{Made, sized};
use fx_geom::{Bounds, Scale};
use text_cells::measure;

// What comes of a text: its lines are measured once.
pub(crate) fn text_made(text: &str, b: Bounds, scale: Scale) -> Made
    ensures { ruling_of result ≡ box_ruling b (sized_with (constrain b (text_size scale.cell text.now b.max_w)) []) }
{
    sized(
        b,
        b.constrain(measure(text, b.max_w, scale.cell)),
        Few::Empty,
    )
}
