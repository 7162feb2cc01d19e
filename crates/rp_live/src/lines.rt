//! The faulty link of a node or a task.

ghost use Rattle.std.specs.Prelude.{◌≡◌, IfOk, IsOkUnless};
ghost use Rattle.rp_live.specs.Lines.{line_seed, party_line};

use rp_base::Fault;
use rp_codec::{Party, party_number};
use rp_tasks::FaultLine;
use std::alloc::Global;

/// The seed of a party's link.
fn seed_for(seed: u32, party: Party) -> [u8; 32]
    ensures { result ≡ line_seed seed party }
{
    let mut bytes = [0u8; 32];
    let [first, second, third, fourth] = seed.to_be_bytes();
    bytes[0] = first;
    bytes[1] = second;
    bytes[2] = third;
    bytes[3] = fourth;
    bytes[4] = party_number(party);
    bytes
}

/// The link of a party: its words follow from the seed of the run and the party.
pub(crate) fn line_for(alloc: Global, seed: u32, party: Party) -> Result<FaultLine, Fault>
    ensures line { IfOk result (λ line. line ≡ party_line seed party) }
    ensures only { IsOkUnless result Fault.OutOfMemory }
{
    FaultLine::new(alloc, seed_for(seed, party))
}
