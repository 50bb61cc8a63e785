// Which node of the old tree had each global key (`BuildOwner._globalKeyRegistry`).
ghost use Rattle.std.specs.Prelude.{◌≡◌, map, IfOk, OnOk};
ghost use Rattle.std.specs.List.{find};
ghost use Rattle.std.specs.Option.{option_or};
ghost use Rattle.fx_expr.specs.declared.values.Value.{Value};
ghost use Rattle.plain_tree.specs.States.{seen};
ghost use Rattle.build_form.specs.Partner.{has_global, holder_in};
ghost use Rattle.build_form.specs.Lent.{lent};
ghost use Rattle.plain_build.specs.PartnerView.{held};

use fx_expr::Value;
use plain_tree::Node;
use std::alloc::{AllocError, Global};
use std::collections::BTreeMap;
use widget_keys::Key;

/// For each global key the first node of a tree, in preorder, that has it. It takes n log n comparisons of keys for n
/// nodes.
pub(crate) fn holders_in<'a>(
    alloc: Global,
    old: Option<&'a Node>,
) -> Result<BTreeMap<Value, &'a Node>, AllocError>
    ensures { IfOk result (λ m. (k : Value) → held m k ≡ holder_in (lent old.entry) k) }
{
    let mut holders = BTreeMap::new(alloc);
    if let Some(root) = old {
        let nodes = root.preorder(alloc)?;
        hold_all(nodes.as_slice(), &mut holders)?;
    }
    Ok(holders)
}

// Puts the nodes that have a global key into a map, so that the first of several with one key stays.
fn hold_all<'a>(
    nodes: &[&'a Node],
    holders: &mut BTreeMap<Value, &'a Node>,
) -> Result<(), AllocError>
    ensures { OnOk result ((k : Value) → held holders.new k ≡ option_or (find (has_global k) (map seen nodes.now)) (held holders.old k)) }
{
    for i in (0..nodes.len()).rev() {
        let node = nodes[i];
        if let Key::Global(key) = &node.widget.key {
            holders.insert(key.clone()?, node)?;
        }
    }
    Ok(())
}

/// The node that had a global key.
pub(crate) fn holder_of<'a>(holders: &BTreeMap<Value, &'a Node>, key: &Value) -> Option<&'a Node>
    ensures { lent result ≡ held holders.now key.now }
{
    holders.get(key).copied()
}
