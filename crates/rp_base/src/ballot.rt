//! Ballots, which order the proposals for a position.

ghost use Rattle.std.specs.Prelude.{◌≡◌, ℕ, ◌↔◌, ◌<◌, ◌≤◌, ◌^◌, max, IsSome, IfSome, IfOk, IsErrOf, IsOkUnless};
ghost use Rattle.rp_base.specs.Ballot.{IsBallot, ballot_of, round_of, owner_of, number_of, next_ballot, IsAbove, IsNext};

use crate::fault::Fault;
use crate::number::NodeId;
use std::marker::Model;

/// How far apart the ballots of one node are, from a round to the next.
const ROUND: u64 = 8;

/// A ballot: `8 * round + node`, the round 1 to 2^32 - 1, the node its owner. Ballots are ordered
/// as numbers (Lamport, "Paxos Made Simple", section 2.2, where they are proposal numbers).
#[derive(Clone, Copy, Debug, PartialEq, Eq, PartialOrd, Ord, Hash)]
pub struct Ballot {
    number: u64,
}

impl Model for Ballot {
    ghost Value = { ℕ };

    ghost view = { λ b. b.number };

    ghost invariant = { λ b. IsBallot b.number };

    ghost inverse = { λ n. record { number = n } };
}

impl Ballot {
    /// The ballot of this number, or `None` if no ballot has it: below 9, from 2^35 on, or a
    /// multiple of 8.
    pub fn new(number: u64) -> Option<Self>
        ensures valid { IsSome result ↔ IsBallot number }
        ensures value { IfSome result (λ ballot. ballot ≡ number) }
    {
        if number > ROUND && number < ROUND << 32 && number % ROUND != 0 {
            Some(Ballot { number })
        } else {
            None
        }
    }

    /// Its number.
    pub fn get(self) -> u64
        ensures value { result ≡ self }
        ensures ballot { IsBallot self }
    {
        self.number
    }

    /// The ballot of a round, from 1, and the node that owns it.
    pub fn of(round: u32, node: NodeId) -> Self
        requires { 1 ≤ round }
        ensures { result ≡ ballot_of round node }
    {
        Ballot {
            number: ROUND * u64::from(round) + u64::from(node.get()),
        }
    }

    /// The round, 1 to 2^32 - 1.
    pub fn round(self) -> u32
        ensures { result ≡ round_of self }
    {
        (self.number / ROUND) as u32
    }

    /// The node that owns it.
    pub fn owner(self) -> NodeId
        ensures { result ≡ owner_of self }
    {
        let owner = (self.number % ROUND) as u8;
        NodeId::new(owner).unwrap()
    }

    /// The greater of two ballots, or the one that there is.
    pub fn greater(one: Option<Ballot>, other: Option<Ballot>) -> Option<Ballot>
        ensures { number_of result ≡ max (number_of one) (number_of other) }
    {
        match (one, other) {
            (Some(ballot), Some(higher)) if ballot.get() < higher.get() => other,
            (None, _) => other,
            _ => one,
        }
    }

    /// The least ballot of the node above a ballot, or above none. `BallotsSpent` if the node has
    /// no ballot above it.
    pub fn next_for(node: NodeId, above: Option<Ballot>) -> Result<Self, Fault>
        // claim: A node's next ballot is its least above a given one, or `BallotsSpent` exactly if
        //   there is none
        ensures next { IfOk result (IsNext node (number_of above)) }
        ensures value { IfOk result (λ b. b ≡ next_ballot node (number_of above)) }
        ensures exhausted { IsErrOf result Fault.BallotsSpent ↔ ((b : ℕ)
            → ¬ IsAbove node (number_of above) b) }
        ensures full { IsErrOf result Fault.BallotsSpent
            ↔ (2 ^ 32 ≤ round_of (next_ballot node (number_of above))) }
        ensures only { IsOkUnless result Fault.BallotsSpent }
    {
        let (round, owner) = match above {
            Some(ballot) => (ballot.number / ROUND, ballot.number % ROUND),
            None => (0, ROUND),
        };
        let node_number = u64::from(node.get());
        let next = if owner < node_number {
            round
        } else {
            round + 1
        };
        if next >= 1 << 32 {
            return Err(Fault::BallotsSpent);
        }
        Ok(Ballot {
            number: ROUND * next + node_number,
        })
    }
}
