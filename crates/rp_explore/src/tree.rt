//! Orders of actions, each but the empty one as an earlier order and one action more.

ghost use Rattle.std.specs.Prelude.{◌≡◌, ◌<◌, [], ◌∷◌, ◌++◌, length, slice_index_or, IfOk, OnOk, OnErr};
ghost use Rattle.rp_orders.specs.Orders.{AreRight, AreAmong};
ghost use Rattle.rp_explore.specs.Listed.{order_at, further, AreOrdersOf};

use crate::branch::Branch;
use rp_base::Action;
use std::alloc::{AllocError, Global};
use std::marker::Model;

/// Some orders of the actions that may happen, the empty one first. An order takes the same memory
/// however long it is.
pub struct OrderTree {
    may: Vec<Action>,
    branches: Vec<Branch>,
}

// Not derived, so that to drop it is one step of a proof and not one for each of its parts.
impl Drop for OrderTree {
    fn drop(self) {
        let OrderTree {
            may: _,
            branches: _,
        } = self;
    }
}

impl Model for OrderTree {
    ghost use Rattle.rp_explore.specs.Listed.{Listed, IsTree, orders_of};

    ghost Value = { Listed };

    ghost view = { λ t. record {
      may = t.may.items;
      orders = orders_of t.may.items t.branches.items;
    } };

    ghost invariant = { λ t. IsTree t.may.items t.branches.items };
}

impl OrderTree {
    /// The empty order of the actions that may happen.
    pub fn new(alloc: Global, may: &[Action]) -> Result<Self, AllocError>
        requires { AreRight may.now }
        ensures { IfOk result (λ tree. tree ≡ record { may = may.now; orders = [] ∷ [] }) }
    {
        let mut actions = Vec::with_capacity(alloc, may.len())?;
        actions.extend_from_slice(may)?;
        Ok(OrderTree {
            may: actions,
            branches: Vec::new(alloc),
        })
    }

    /// The actions that may happen.
    pub fn may(&self) -> &[Action]
        ensures value { result.now ≡ self.now.may }
        ensures right { AreRight self.now.may }
    {
        self.may.as_slice()
    }

    /// How many orders there are. The first is the empty one, and each is of right actions that may
    /// happen.
    pub fn len(&self) -> usize
        ensures value { result ≡ length self.now.orders }
        ensures starts { 0 < result }
        ensures empty { order_at self.now.orders 0 ≡ [] }
        ensures among { AreOrdersOf self.now }
        ensures right { AreRight self.now.may }
    {
        self.branches.len() + 1
    }

    /// The order at a place.
    pub fn order(&self, alloc: Global, place: usize) -> Result<Vec<Action>, AllocError>
        requires { place < length self.now.orders }
        ensures value { IfOk result (λ order. order.items ≡ order_at self.now.orders place) }
        ensures among { IfOk result (λ order. AreAmong self.now.may order.items) }
        ensures right { IfOk result (λ order. AreRight order.items) }
    {
        let mut backward = Vec::new(alloc);
        let mut at = place;
        while at > 0 {
            let branch = self.branches[at - 1];
            backward.push(self.may[branch.action])?;
            at = branch.before;
        }
        backward.reverse();
        Ok(backward)
    }

    /// One order more: that at a place, and then the action with this index.
    pub fn push(&mut self, place: usize, action: usize) -> Result<(), AllocError>
        requires place { place < length self.old.orders }
        requires action { action < length self.old.may }
        ensures ok { OnOk result (self.new ≡ record self.old {
          orders = self.old.orders ++ further self.old place action ∷ [];
        }) }
        ensures err { OnErr result (self.new ≡ self.old) }
    {
        self.branches.push(Branch {
            before: place,
            action,
        })?;
        Ok(())
    }
}
