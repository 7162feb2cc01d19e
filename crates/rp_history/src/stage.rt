//! On which lanes packets are drawn.

ghost use Rattle.std.specs.Prelude.{◌≡◌, map, IfOk};
ghost use Rattle.rp_history.specs.Views.{lane_of, sending_of};

use crate::view::{View, colour_of};
use rp_codec::{Packet, Party};
use rp_drawing::Sending;
use std::alloc::{AllocError, Global};

/// Which lanes there are, and what is drawn on them.
#[derive(Clone, Copy)]
pub struct Stage {
    /// How many tasks there are: their lanes are the first ones.
    pub tasks: u8,
    pub view: View,
}

impl Stage {
    /// The lane of a party: the tasks' are first, then the nodes'.
    pub fn lane_of(&self, party: Party) -> u32
        ensures { result ≡ lane_of self.now.tasks party }
    {
        match party {
            Party::Task(task) => u32::from(task.get()) - 1,
            Party::Node(node) => u32::from(self.tasks) + u32::from(node.get()) - 1,
            Party::Audit => 0,
        }
    }

    /// How a packet is sent: its lanes and its colour, or whether it is drawn at all, which it is
    /// only in a moment that is drawn.
    fn sending_of(&self, packet: &Packet, is_within: bool) -> Sending
        ensures { result ≡ sending_of self.now is_within packet.now }
    {
        Sending {
            from: self.lane_of(packet.from()),
            to: self.lane_of(packet.to()),
            colour: colour_of(packet.body()),
            is_drawn: is_within && self.view.shows(packet),
        }
    }

    /// How packets are sent in a moment.
    pub fn sends_of(
        &self,
        alloc: Global,
        packets: &[Packet],
        is_within: bool,
    ) -> Result<Vec<Sending>, AllocError>
        ensures { IfOk result (λ sends. sends.items
            ≡ map (sending_of self.now is_within) packets.now) }
    {
        let mut sends = Vec::new(alloc);
        for packet in packets {
            sends.push(self.sending_of(packet, is_within))?;
        }
        Ok(sends)
    }
}
