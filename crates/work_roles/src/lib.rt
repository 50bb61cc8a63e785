//! What the kinds of render nodes are to the work of a frame: which members of a kind layout reads, and what a kind is to the
//! marks that say what is laid out and painted anew. The definitions stand in specs/; here are their laws.
#![tactic(auto)]

ghost use Rattle.std.specs.Prelude.{◌≡◌};
ghost use Rattle.widget_model.specs.Look.{Look};
ghost use Rattle.work_roles.specs.ForLayout.{for_layout};
ghost use Rattle.work_roles.specs.WorkRole.{work_role_of};

/// Blanking the members that layout doesn't read leaves nothing more to blank, and a kind stays what it is to the work of a
/// frame.
pub fn layout_members_settle()
    ensures once { (look : Look) → for_layout (for_layout look) ≡ for_layout look }
    ensures role { (look : Look) → work_role_of (for_layout look) ≡ work_role_of look }
{}
