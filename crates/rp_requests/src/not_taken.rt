//! What a step of a node did not take.

ghost use Rattle.std.specs.Prelude.{◌≡◌};
ghost use Rattle.rp_requests.specs.Nodes.{not_taken};

use rp_model::Dropped;

/// What a node did not take in a step.
#[derive(Clone, Copy, Debug, PartialEq, Eq)]
pub enum NotTaken {
    /// It took what it was given.
    Nothing,
    /// A call, an interrupt or a tick, since 32 of them are pending.
    Full,
    /// A packet for another node, from a node or for a position that the configuration does not
    /// have, or in a ballot that its sender does not own.
    Foreign,
    /// A call that cannot count at this node now: one of its task below it did not count, or its
    /// task waits. The task sends it again later.
    Early,
    /// An interrupt of which this occurrence or a higher one counted.
    Stale,
}

impl NotTaken {
    /// What a step did not take, by what the node's effect dropped and whether an interrupt is over.
    pub(crate) fn of(stale: bool, dropped: Dropped) -> Self
        ensures { result ≡ not_taken stale dropped }
    {
        match dropped {
            Dropped::Full => NotTaken::Full,
            Dropped::Foreign => NotTaken::Foreign,
            Dropped::No => {
                if stale {
                    NotTaken::Stale
                } else {
                    NotTaken::Nothing
                }
            }
        }
    }
}
