// Whether a member is gone.
ghost use Rattle.std.specs.Prelude.{◌≡◌};
ghost use Rattle.gesture_arena.specs.Marks.{AreMarked};
ghost use Rattle.gesture_arena.specs.Moment.{is_among, member_eq};

use crate::gesture::Member;
use crate::marks::Marks;

// Members that are gone, and marks that say which of one pointer's members these are.
#[derive(Clone, Copy)]
pub struct Gone<'a> {
    pub members: &'a [Member],
    pub marks: &'a Marks,
    pub ghost marked: { AreMarked members.now marks.now },
}

// Whether two members are the same.
fn is_same(a: Member, b: Member) -> bool
    ensures { result ≡ member_eq a b }
{
    a.node == b.node && a.gesture == b.gesture
}

impl Gone<'_> {
    /// Whether this member is gone. One without a place among the marks is sought one by one.
    pub fn has(&self, member: Member) -> bool
        ensures { result ≡ is_among self.now.members.now member }
    {
        match self.marks.get(&member.node) {
            Some(node) => node.of(member.gesture),
            None => self.members.iter().any(|m| is_same(member, *m)),
        }
    }
}
