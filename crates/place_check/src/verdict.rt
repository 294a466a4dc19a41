// What is said of a placement.
ghost use Rattle.std.specs.Prelude.{◌≡◌};
ghost use Rattle.place_check.specs.Verdicts as verdicts;

use fd_base::{ItemNo, ListOf, NodeNo};

/// What a good placement keeps for each item on every path, in the order in which a broken one is named.
#[derive(Clone, Copy, PartialEq, Eq)]
pub enum Condition {
    /// Each send has exactly one receive, and the item isn't stolen between them.
    Balanced,
    /// Before it is taken, the item has come and wasn't stolen since.
    Covered,
    /// What is sent is taken, or sent for a loop's sake, before it is stolen.
    Used,
}

/// Nodes in order.
pub type NodeList = ListOf<NodeNo>;

/// A placement is good, or it breaks a condition for an item on a path, which is told by its nodes from Start.
#[derive(Drop)]
pub enum Verdict {
    Good,
    Bad {
        condition: Condition,
        item: ItemNo,
        path: NodeList,
    },
}

impl Verdict {
    /// It names a broken condition.
    pub fn is_bad(&self) -> bool
        ensures { result ≡ verdicts.is_bad self.now }
    {
        match self {
            Verdict::Good => false,
            Verdict::Bad { .. } => true,
        }
    }
}
