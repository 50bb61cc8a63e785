ghost use Rattle.std.specs.Prelude.{◌≡◌};
ghost use Rattle.draw_records.specs.Shifted.{shifted};

use fx_expr::Txt;
use fx_geom::{Offset, Rect};

/// One drawing of a picture (`PictureLayer`). Colors are 0xAARRGGBB.
#[derive(Drop)]
pub enum Record {
    /// A rectangle, in u, that is filled with a color (`Canvas.drawRect`).
    Fill { rect: Rect, color: u32 },
    /// A run of text in a color, whose left upper corner stands at a place in u (`Canvas.drawParagraph`).
    Run { at: Offset, color: u32, text: Txt },
}

impl Record {
    /// The record at another place: each of its places moved by this offset, in u. Sums of offsets are clamped.
    pub fn shifted(self, by: Offset) -> Record
        ensures { result ≡ shifted self by }
    {
        match self {
            Record::Fill { rect, color } => Record::Fill {
                rect: Rect {
                    at: rect.at.plus(by),
                    size: rect.size,
                },
                color,
            },
            Record::Run { at, color, text } => Record::Run {
                at: at.plus(by),
                color,
                text,
            },
        }
    }
}
