// What a layout leaves at a node, read and written as one.
ghost use Rattle.std.specs.Prelude.{◌≡◌, option_map};
ghost use Rattle.render_tree.specs.Tree.{object_at};
ghost use Rattle.render_tree.specs.Edits.{Changes};
ghost use Rattle.render_tree.specs.LayoutState.{layout_state_of, with_layout_state, with_standing};

use crate::RenderTree;
use crate::object::{RenderObject, is_noted};
use crate::reads::either;
use fx_geom::Offset;
use fx_handles::Handle;
use node_tree::Tree;
use plain_tree::{Frame, Notes};

/// What a layout leaves at a node: how far it is scrolled, its frame, its notes, whether its delegate was plugged, where a Viewport
/// stood scrolled, its offset from its parent, whether it is in the window, and its two marks for layout.
#[derive(Clone, Copy)]
pub struct LayoutState {
    pub scroll: u64,
    pub frame: Option<Frame>,
    pub notes: Notes,
    pub plugged: bool,
    pub scrolled: u64,
    pub offset: Option<Offset>,
    pub shown: bool,
    pub needs_layout: bool,
    pub layout_below: bool,
}

fn write_layout_state(tree: &mut Tree<RenderObject>, h: Handle, state: LayoutState)
    ensures { Changes tree.old tree.new h (with_layout_state state) }
{
    if let Some(object) = tree.value_mut(h) {
        object.scroll = state.scroll;
        object.frame = state.frame;
        object.notes = state.notes;
        object.plugged = state.plugged;
        object.scrolled = state.scrolled;
        object.offset = state.offset;
        object.shown = state.shown;
        object.needs_layout = state.needs_layout;
        object.layout_below = state.layout_below;
    }
}

fn write_standing(tree: &mut Tree<RenderObject>, h: Handle, at: Option<Offset>)
    ensures { Changes tree.old tree.new h (with_standing at) }
{
    if let Some(object) = tree.value_mut(h) {
        match at {
            None => {
                object.shown = false;
            }
            Some(place) => {
                object.shown = true;
                object.offset = Some(place);
            }
        }
    }
}

impl RenderTree {
    /// What the last layout left at a node, and its marks for layout; `None` where the handle isn't live.
    pub fn layout_state(&self, h: Handle) -> Option<LayoutState>
        ensures { result ≡ option_map layout_state_of (object_at self.now.tree h) }
    {
        let object = self.tree.value(h)?;
        Some(LayoutState {
            scroll: object.scroll,
            frame: object.frame,
            notes: object.notes,
            plugged: object.plugged,
            scrolled: object.scrolled,
            offset: object.offset,
            shown: object.shown,
            needs_layout: object.needs_layout,
            layout_below: object.layout_below,
        })
    }

    /// Stores what a layout leaves at a node. It sets no marks but those that are given, and where the handle isn't live nothing
    /// changes.
    pub fn set_layout_state(&mut self, h: Handle, state: LayoutState)
        ensures sets { Changes self.old.tree self.new.tree h (with_layout_state state) }
        ensures scale { self.new.scale ≡ self.old.scale }
        ensures spent { self.new.spent ≡ self.old.spent }
    {
        self.remarked = either(self.remarked, is_noted(state.notes));
        write_layout_state(&mut self.tree, h, state);
    }

    /// Stores where a layout put a node: in the window at this place, or, where none is given, out of the window. It sets no marks,
    /// and where the handle isn't live nothing changes.
    pub fn set_standing(&mut self, h: Handle, at: Option<Offset>)
        ensures sets { Changes self.old.tree self.new.tree h (with_standing at) }
        ensures scale { self.new.scale ≡ self.old.scale }
        ensures spent { self.new.spent ≡ self.old.spent }
    {
        write_standing(&mut self.tree, h, at);
    }
}
