// Keys of templates as they are written.
use crate::forms::Form;

/// A key of a template.
#[derive(Drop)]
pub enum KeyForm {
    /// `["local",e]`: among the children of one widget.
    Local(Form),
    /// `["global",e]`: in the whole tree.
    Global(Form),
}
