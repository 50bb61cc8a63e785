ghost use Rattle.std.specs.Prelude.{◌≡◌, map, IfOk};
ghost use Rattle.layer_tree.specs.View.{item_of};

use crate::kind::LayerKind;
use draw_records::Record;
use std::alloc::{AllocError, Global};
use std::marker::Model;
use std::rc::Rc;

/// A layer: what it does, and what stands in it in paint order.
#[cycle(layers)]
#[derive(Drop)]
pub struct Layer {
    pub kind: LayerKind,
    pub items: ItemList,
}

/// What stands in a layer: a record, or a layer. The records between two layers are one picture (`PictureLayer`).
#[cycle(layers)]
#[derive(Drop)]
pub enum Item {
    Record(Record),
    Layer(Layer),
}

/// The items of a layer, in shared memory: a list that stands in several layers is kept once. Contracts see the list, and not
/// who shares it.
#[cycle(layers)]
#[derive(Drop)]
pub struct ItemList {
    items: Rc<Vec<Item>>,
}

impl Model for ItemList {
    ghost use Rattle.std.specs.Prelude.{List, map};
    ghost use Rattle.layer_tree.specs.LayerItem.{LayerItem};
    ghost use Rattle.layer_tree.specs.LayerItemCode.{coded_items, weight};

    ghost Value = { List LayerItem };

    ghost coded = { coded_items };

    ghost use Rattle.layer_tree.specs.View.{item_of};

    ghost view = { λ a. map item_of a.items.value.items };

    ghost size = { weight };

    ghost use Rattle.layer_tree.specs.Lighter.{lighter};

    ghost size_decreases = { λ a h. lighter a.items.value.items };
}

impl ItemList {
    /// The list that holds these items. An error is want of memory.
    pub fn of(alloc: Global, items: Vec<Item>) -> Result<ItemList, AllocError>
        ensures { IfOk result (λ l. l ≡ map item_of items.items) }
    {
        let items = Rc::new(alloc, items)?;
        Ok(ItemList { items })
    }

    /// The same list, shared: no item is copied. An error says that it is shared too often.
    pub fn share(&self) -> Result<ItemList, AllocError>
        ensures { IfOk result (λ l. l ≡ self.now) }
    {
        let items = Rc::clone(&self.items)?;
        Ok(ItemList { items })
    }

    /// The items, lent.
    pub fn get(&self) -> &[Item]
        ensures { map item_of result.now ≡ self.now }
    {
        self.items.as_slice()
    }
}
