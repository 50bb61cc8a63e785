// How deep layers may nest that are printed. What is printed is in the case files.
use crate::compare::expect;
use fx_geom::Offset;
use layer_tree::{Item, ItemList, Layer, LayerKind, print};
use std::alloc::{AllocError, Global};
use std::test::Fail;

fn layer(alloc: Global, items: Vec<Item>) -> Result<Layer, AllocError> {
    Ok(Layer {
        kind: LayerKind::Offset(Offset { x: 0, y: 0 }),
        items: ItemList::of(alloc, items)?,
    })
}

// So many layers in one another.
fn nest(alloc: Global, count: usize) -> Result<Layer, AllocError> {
    let mut nested = layer(alloc, Vec::new(alloc))?;
    for _ in 1..count {
        nested = layer(alloc, vec![in alloc; Item::Layer(nested)]?)?;
    }
    Ok(nested)
}

#[test]
fn prints_deep_layers(rt: HostRuntime) -> Result<(), Fail> {
    let mut out = vec![in rt.alloc(); b'-']?;
    let deep = nest(rt.alloc(), 513)?;
    print(rt.alloc(), &deep, 0, &mut out)?;
    // 513 lines of 11 bytes, and two spaces more at each level, after the byte that stood there: 513 * 11 + 2 * (512 * 513 / 2) + 1.
    expect(&rt, out.len(), 268300);
    let shared = Layer {
        kind: deep.kind,
        items: deep.items.share()?,
    };
    print(rt.alloc(), &shared, 0, &mut out)?;
    expect(&rt, out.len(), 536599);
    Ok(())
}
