// Which members of a pointer are gone: a mark on each, for as long as one call drops members.
ghost use Rattle.std.specs.Prelude.{◌≡◌, true, false, Some, OnOk, OnErr};
ghost use Rattle.gesture_arena.specs.Moment.{is_among};
ghost use Rattle.gesture_arena.specs.Marks.{AreMarked, HavePlaces, NoneIsMarked, mark_in, mark_of, marked, with_mark};

use crate::gesture::{Gesture, Member};
use crate::tracked::Tracked;
use std::alloc::{AllocError, Global};
use std::collections::HashMap;

/// A mark for each member that a node may have.
#[derive(Clone, Copy)]
pub struct NodeMarks {
    pub tap: bool,
    pub long: bool,
    pub vertical: bool,
    pub horizontal: bool,
    pub pan: bool,
}

/// A mark for each member of a pointer. Those of a node are found by its hash.
pub type Marks = HashMap<u64, NodeMarks>;

impl NodeMarks {
    // No member is marked.
    fn none() -> NodeMarks
        ensures { result ≡ record { tap = false; long = false; vertical = false; horizontal = false; pan = false } }
    {
        NodeMarks {
            tap: false,
            long: false,
            vertical: false,
            horizontal: false,
            pan: false,
        }
    }

    // With a mark on the member with a gesture.
    fn with(self, gesture: Gesture, mark: bool) -> NodeMarks
        ensures { result ≡ with_mark self gesture mark }
    {
        let mut marks = self;
        match gesture {
            Gesture::Tap => marks.tap = mark,
            Gesture::Long => marks.long = mark,
            Gesture::Vertical => marks.vertical = mark,
            Gesture::Horizontal => marks.horizontal = mark,
            Gesture::Pan => marks.pan = mark,
        }
        marks
    }

    /// The mark of the member with a gesture.
    pub fn of(&self, gesture: Gesture) -> bool
        ensures { result ≡ mark_in self.now gesture }
    {
        match gesture {
            Gesture::Tap => self.tap,
            Gesture::Long => self.long,
            Gesture::Vertical => self.vertical,
            Gesture::Horizontal => self.horizontal,
            Gesture::Pan => self.pan,
        }
    }
}

// Marks a member, or takes its mark away, where it has a place. This takes no memory.
fn put_mark(marks: &mut Marks, member: Member, mark: bool)
    ensures { (m : Member) → mark_of marks.new m ≡ marked (mark_of marks.old) member mark m }
{
    let Some(node) = marks.get(&member.node).copied() else {
        return;
    };
    let _ = marks.insert(member.node, node.with(member.gesture, mark));
}

// Marks those members that are gone.
pub fn mark(marks: &mut Marks, gone: &[Member])
    requires { NoneIsMarked marks.old }
    ensures { AreMarked gone.now marks.new }
{
    for member in gone {
        put_mark(marks, *member, true);
    }
}

// Takes the marks of the members that are gone away.
pub fn unmark(marks: &mut Marks, gone: &[Member])
    requires { AreMarked gone.now marks.old }
    ensures { NoneIsMarked marks.new }
{
    for member in gone {
        put_mark(marks, *member, false);
    }
}

// No member has a place yet. Most pointers go up before a member is gone, so room is taken when the first is.
pub fn no_marks(alloc: Global) -> Marks
    ensures { NoneIsMarked result }
{
    HashMap::new(alloc)
}

// A place for each member, without a mark. Members of one node stand together, so its places are made once.
pub fn place_each(marks: &mut Marks, members: &[Tracked]) -> Result<(), AllocError>
    requires { NoneIsMarked marks.old }
    ensures places { OnOk result (HavePlaces members.now marks.new) }
    ensures marks { NoneIsMarked marks.new }
{
    let mut last = None;
    for t in members {
        let node = t.node;
        if last != Some(node) {
            marks.insert(node, NodeMarks::none())?;
            last = Some(node);
        }
    }
    Ok(())
}
