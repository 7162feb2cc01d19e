//! No rule for the callers of nodes by handle can be left out, and the rules can be kept.

ghost use Rattle.rp_installations.specs.Breaches.{TwoDiffer, HandsOnUnsynced, GetsForgedPacket};
ghost use Rattle.rp_installations.specs.Breaches.{GetsOtherDevice, TakesOldReply, OpensTaskAgain};
ghost use Rattle.rp_installations.specs.Kept.{AreAnswered, AreNoted};

use rp_requests::{node_requests_are_read_back, task_requests_are_read_back};

/// For each of the three rules there are callers who keep all others, and after whose moves two
/// nodes have applied different actions; and callers who open a task twice, and after whose moves a
/// call has the reply to another one.
pub fn no_rule_can_be_left_out()
    // claim (devices): If packets are handed on before the sync, two nodes may come to differ
    ensures devices { TwoDiffer HandsOnUnsynced }
    // claim (packets): If packets come that nobody sent, two nodes may come to differ
    ensures packets { TwoDiffer GetsForgedPacket }
    // claim (handles): If a node is opened over another node's device, two nodes may come to differ
    ensures handles { TwoDiffer GetsOtherDevice }
    // claim (tasks): If a task is opened again, a later call may get the reply to an earlier one
    ensures tasks { TakesOldReply OpensTaskAgain }
{
    node_requests_are_read_back();
    task_requests_are_read_back();
}

/// The rules can be kept: there are callers who keep all of them and whose task gets its reply, and
/// others whose node notes an interrupt that another node applies.
pub fn the_rules_can_be_kept()
    // claim (replies): Callers who keep the rules get a reply: a task of a tally adds 5 to 0 and
    //   gets 5, and another node than the one that it called applies its call
    ensures replies { AreAnswered }
    // claim (interrupts): An interrupt that a node notes for callers who keep the rules is applied,
    //   also by another node
    ensures interrupts { AreNoted }
{
    node_requests_are_read_back();
    task_requests_are_read_back();
}
