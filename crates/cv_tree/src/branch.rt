ghost use Rattle.std.specs.Prelude.{◌≡◌, ◌+◌, ◌∷◌, ◌++◌, max, length, IfOk, MatchOption};
ghost use Rattle.cv_tree.specs.Heights.{IsHeightOf};
ghost use Rattle.cv_tree.specs.Nodes.{IsTop};
ghost use Rattle.cv_tree.specs.Shapes.{AreWithin, no_nodes};

use crate::share::Share;
use cv_base::NoMemory;
use std::alloc::Global;
use std::marker::Model;
use std::sync::Arc;

/// A balanced search tree, without a bound on its keys. Contracts see its entries from left to right, and its height. Nodes
/// are shared, and never written once they are made.
#[cycle(branch)]
#[derive(Drop)]
pub struct Branch<K, V> {
    node: Option<Arc<Fork<K, V>, Global>>,
}

/// A node: an entry between two branches. `height` is how many nodes the longest way down has.
#[cycle(branch)]
#[derive(Drop)]
pub struct Fork<K, V> {
    pub left: Branch<K, V>,
    pub key: K,
    pub value: V,
    height: u64,
    pub right: Branch<K, V>,
}

impl<K, V> Model for Branch<K, V> {
    ghost use Rattle.std.specs.Prelude.{length};
    ghost use Rattle.cv_tree.specs.Shapes.{Shape};

    ghost Value = { Shape K V };

    ghost use Rattle.cv_tree.specs.code.Links.{shape_at, IsBalancedAt};
    ghost use Rattle.std.proofs.Common.{arith, length-append};

    ghost view = { λ b. shape_at b.node };

    ghost invariant = { λ b. IsBalancedAt b.node };

    ghost size = { λ shape. length shape.entries };

    ghost size_decreases = { λ b h. Prim.grind (arith, length-append) };
}

impl<K, V> Branch<K, V> {
    /// The branch without entries. It takes no memory.
    pub fn empty() -> Branch<K, V>
        ensures { result ≡ no_nodes }
    {
        Branch { node: None }
    }

    /// The node at the top.
    pub fn fork(&self) -> Option<&Fork<K, V>>
        ensures { MatchOption result (self.now ≡ no_nodes) (λ fork. IsTop fork.now self.now) }
    {
        match &self.node {
            None => None,
            Some(fork) => Some(fork),
        }
    }

    /// How many nodes the longest way down has.
    pub fn height(&self) -> u64
        ensures value { result ≡ self.now.height }
        ensures bounds { IsHeightOf self.now.height (length self.now.entries) }
    {
        match &self.node {
            None => 0,
            Some(fork) => fork.height,
        }
    }
}

/// One more owner of the node at the top.
impl<K, V> Share for Branch<K, V> {
    fn share(&self) -> Result<Branch<K, V>, NoMemory> {
        match &self.node {
            None => Ok(Branch { node: None }),
            Some(fork) => Ok(Branch {
                node: Some(Arc::try_clone(fork)?),
            }),
        }
    }
}

impl<K: Drop, V: Drop> Branch<K, V> {
    /// A node over two branches. A height past 64 bits is answered as out of memory.
    pub fn of(alloc: Global, left: Self, key: K, value: V, right: Self) -> Result<Self, NoMemory>
        requires balanced { AreWithin 1 left.height right.height }
        ensures entries { IfOk result (λ b. b.entries ≡ left.entries ++ (key, value) ∷ right.entries) }
        ensures height { IfOk result (λ b. b.height ≡ max left.height right.height + 1) }
    {
        let height = height_over(left.height(), right.height())?;
        let fork = Fork {
            left,
            key,
            value,
            height,
            right,
        };
        Ok(Branch {
            node: Some(Arc::new(alloc, fork)?),
        })
    }
}

/// The height of a node over branches of these heights, as far as 64 bits count.
fn height_over(left: u64, right: u64) -> Result<u64, NoMemory>
    ensures { IfOk result (λ height. height ≡ max left right + 1) }
{
    left.max(right).checked_add(1).ok_or(NoMemory)
}
