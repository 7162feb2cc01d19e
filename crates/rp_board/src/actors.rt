//! Who sits at the table, and the numbers of the actors there: the audit is 0, node n is n, and task
//! t is 7 + t.

ghost use Rattle.std.specs.Prelude.{◌≡◌, ◌<◌};
ghost use Rattle.rp_codec.specs.Message.{Message, IsPacket, IsParty};
ghost use Rattle.rp_codec.specs.Text.{text_of};
ghost use Rattle.rp_board.specs.Parts.{actor_of};

use rp_base::{MOST_NODES, NodeId, TaskId};
use rp_codec::{Party, RECEIVER, party_of};

/// Who sits at a seat: a node or a task, which its number names, or the audit, which has none.
pub trait Sits: Copy + Drop {
    ghost use Rattle.std.specs.Prelude.{ℕ};
    ghost use Rattle.rp_codec.specs.declared.packet.Party.{Party};

    /// Its number among the nodes or the tasks, 0 for the audit.
    ghost number: { Self → ℕ };

    /// The party of that number.
    ghost party: { ℕ → Party };

    /// The party that sits there.
    fn sitting(self) -> Party
        ensures { result ≡ party (number self) };
}

impl Sits for NodeId {
    ghost use Rattle.rp_codec.specs.declared.packet.Party.TheVariants.{Node};

    ghost number = { λ node. node };

    ghost party = { Node };

    fn sitting(self) -> Party {
        Party::Node(self)
    }
}

impl Sits for TaskId {
    ghost use Rattle.rp_codec.specs.declared.packet.Party.TheVariants.{Task};

    ghost number = { λ task. task };

    ghost party = { Task };

    fn sitting(self) -> Party {
        Party::Task(self)
    }
}

impl Sits for () {
    ghost use Rattle.rp_codec.specs.declared.packet.Party.TheVariants.{Audit};

    ghost number = { λ none. 0 };

    ghost party = { λ number. Audit };

    fn sitting(self) -> Party {
        Party::Audit
    }
}

/// The number of a party at the table.
pub(crate) fn actor_of(party: Party) -> usize
    ensures actor { result ≡ actor_of party }
    ensures party { IsParty party }
    ensures small { result < 16 }
{
    match party {
        Party::Node(node) => usize::from(node.get()),
        Party::Task(task) => usize::from(MOST_NODES) + usize::from(task.get()),
        Party::Audit => 0,
    }
}

/// The number of a packet's receiver at the table, read from the packet's text.
pub(crate) fn receiver(text: &[u8]) -> usize
    ensures named { (m : Message) → IsPacket m → text.now ≡ text_of m → result ≡ actor_of m.to }
    ensures small { result < 16 }
{
    match text.get(RECEIVER) {
        Some(byte) => actor_of(party_of(*byte)),
        None => 0,
    }
}
