// The nodes of a semantics tree.
ghost use Rattle.std.specs.Prelude.{◌≡◌, map};
ghost use Rattle.semantics_tree.specs.View.{sem_of};

use fx_expr::Txt;
use fx_geom::Rect;
use std::marker::Model;

/// A node of a semantics tree (`SemanticsNode`): the number of the node that it stands for, 0 for the view; where it
/// stands in the view, in u; its label; whether it is a button; for each action the number of the detector that does it,
/// where there is one; and the nodes below it, in paint order.
#[cycle(semantics)]
#[derive(Drop)]
pub struct SemNode {
    pub id: u64,
    pub rect: Rect,
    pub label: Txt,
    pub button: bool,
    pub tap: Option<u64>,
    pub long: Option<u64>,
    pub children: SemList,
}

/// The nodes below a semantics node. Contracts see them as their list.
#[cycle(semantics)]
#[derive(Drop)]
pub struct SemList {
    nodes: Vec<SemNode>,
}

impl Model for SemList {
    ghost use Rattle.std.specs.Prelude.{List, map};
    ghost use Rattle.screen_form.specs.Sem.{Sem, total};
    ghost use Rattle.semantics_tree.specs.SemCode.{coded_sems};

    ghost Value = { List Sem };

    ghost coded = { coded_sems };

    ghost use Rattle.semantics_tree.specs.View.{sem_of};

    ghost view = { λ l. map sem_of l.nodes.items };

    ghost size = { total };

    ghost use Rattle.semantics_tree.specs.Lighter.{lighter};

    ghost size_decreases = { λ l h. lighter l.nodes.items };
}

impl SemList {
    /// The list that holds these nodes.
    pub fn of(nodes: Vec<SemNode>) -> SemList
        ensures { result ≡ map sem_of nodes.items }
    {
        SemList { nodes }
    }

    /// The nodes, lent.
    pub fn get(&self) -> &[SemNode]
        ensures { map sem_of result.now ≡ self.now }
    {
        self.nodes.as_slice()
    }
}
