// The nodes that use a delegate, by its name.
ghost use Rattle.std.specs.Prelude.{◌≡◌, ℕ, List, Option, true, false, OnOk, option_map};
ghost use Rattle.fx_handles.specs.declared.Handle.{Handle};
ghost use Rattle.handle_groups.specs.Groups.{stands_under};
ghost use Rattle.widget_model.specs.View.{look_in};
ghost use Rattle.layout_form.specs.Layout.{delegate_of};
ghost use Rattle.render_tree.specs.Users.{HasRoom, standing};

use fx_handles::Handle;
use handle_groups::Groups;
use std::alloc::AllocError;
use widget_model::Kind;

// The name of a kind's delegate.
pub(crate) fn delegate_of(kind: &Kind) -> Option<&str>
    ensures { option_map (λ s. s.now) result ≡ delegate_of (look_in kind.now) }
{
    match kind {
        Kind::CustomPaint { delegate } => Some(delegate.get()),
        Kind::CustomLayout { delegate } => Some(delegate.get()),
        _ => None,
    }
}

// Makes room for one more user of a kind's delegate.
pub(crate) fn reserve_user(users: &mut Groups, kind: &Kind) -> Result<(), AllocError>
    ensures same { (n : List ℕ) (k : Handle) → stands_under users.new n k ≡ stands_under users.old n k }
    ensures room { OnOk result (HasRoom users.new (delegate_of (look_in kind.now))) }
{
    match delegate_of(kind) {
        Some(name) => users.reserve(name),
        None => Ok(()),
    }
}

// Notes a user of a kind's delegate, for which there is room.
pub(crate) fn put_user(users: &mut Groups, kind: &Kind, h: Handle)
    requires { HasRoom users.old (delegate_of (look_in kind.now)) }
    ensures { (n : List ℕ) (k : Handle) → stands_under users.new n k ≡ standing true (delegate_of (look_in kind.now)) h (stands_under users.old) n k }
{
    match delegate_of(kind) {
        Some(name) => users.put(name, h),
        None => {}
    }
}

// Notes that a node doesn't use a kind's delegate any more.
pub(crate) fn drop_user(users: &mut Groups, kind: &Kind, h: Handle)
    ensures room { (d : Option (List ℕ)) → HasRoom users.old d → HasRoom users.new d }
    ensures standing { (n : List ℕ) (k : Handle) → stands_under users.new n k ≡ standing false (delegate_of (look_in kind.now)) h (stands_under users.old) n k }
{
    match delegate_of(kind) {
        Some(name) => users.remove(name, h),
        None => {}
    }
}
