//! Printed lines are read as what they were printed for.

ghost use Rattle.std.specs.Prelude.{◌≡◌, ◌<◌, ◌^◌, ℕ, List, Some, codes};
ghost use Rattle.rp_output.specs.rp_base.specs.declared.fault.Fault.{Fault};
ghost use Rattle.rp_output.specs.rp_base.specs.declared.fault.Fault.TheVariants.{NotRunning, BallotsSpent, LogFull, NoSuchMessage, TaskBusy, NumbersSpent};
ghost use Rattle.rp_output.specs.rp_base.specs.declared.reply.Reply.{Reply};
ghost use Rattle.rp_output.specs.rp_base.specs.Right.{IsReply};
ghost use Rattle.rp_output.specs.rp_codec.specs.declared.packet.Body.{Body};
ghost use Rattle.rp_output.specs.Trace.{trace_line_of};
ghost use Rattle.rp_printed_texts.specs.Packets.{read_packet, stated_of, AreNumbers, IsPartyName};
ghost use Rattle.rp_output.specs.Printed.{reply_line_of, opened_line_of, running_line_of, full_line_of, applied_line_of, stopped_line_of, refused_line_of, limit_line_of, agreed_line};
ghost use Rattle.rp_printed_texts.specs.Reading.{ReplyTaken, NodeOpened, NodeRunning, NodeFull, NodeApplied, NodeStopped, StepRefused, DrainEnded, LogsAgree, read_line, HasNoSpace};

/// The line of a reply is read as that task's reply to that call: its name, its number, and the value,
/// the truth or the exception.
pub fn replies_are_read_back()
    // claim: The printed line of a reply says whose it is, to which call, and what it is
    ensures { (task : List ℕ) (number : ℕ) (reply : Reply)
        → HasNoSpace task → number < 2 ^ 64 → IsReply reply
        → read_line (reply_line_of task number reply) ≡ Some (ReplyTaken task number reply) }
{}

/// The line of a node is read as that node's, in that state.
pub fn lines_of_nodes_are_read_back()
    // claim: The printed line of a node says which node it is and what it did or is
    ensures opened { (node records bytes : ℕ)
        → node < 2 ^ 64 → records < 2 ^ 64 → bytes < 2 ^ 64
        → read_line (opened_line_of node records bytes) ≡ Some (NodeOpened node records bytes) }
    ensures running { (node : ℕ) → node < 2 ^ 64
        → read_line (running_line_of node) ≡ Some (NodeRunning node) }
    ensures full { (node : ℕ) → node < 2 ^ 64
        → read_line (full_line_of node) ≡ Some (NodeFull node) }
    ensures applied { (node applied : ℕ) → node < 2 ^ 64 → applied < 2 ^ 64
        → read_line (applied_line_of node applied) ≡ Some (NodeApplied node applied) }
    ensures stopped { (node : ℕ) → node < 2 ^ 64
        → read_line (stopped_line_of node) ≡ Some (NodeStopped node) }
{}

/// The line of a step that was refused is read as that line of the script, with the code and the name
/// of the fault, as the list of faults has them.
pub fn lines_of_steps_are_read_back()
    // claim: The printed line of a refused step says which line it is, and why it was refused
    ensures not_running { (line : ℕ) → line < 2 ^ 64
        → read_line (refused_line_of line NotRunning)
        ≡ Some (StepRefused line 5 (codes "NotRunning")) }
    ensures ballots_spent { (line : ℕ) → line < 2 ^ 64
        → read_line (refused_line_of line BallotsSpent)
        ≡ Some (StepRefused line 6 (codes "BallotsSpent")) }
    ensures log_full { (line : ℕ) → line < 2 ^ 64
        → read_line (refused_line_of line LogFull) ≡ Some (StepRefused line 7 (codes "LogFull")) }
    ensures no_message { (line : ℕ) → line < 2 ^ 64
        → read_line (refused_line_of line NoSuchMessage)
        ≡ Some (StepRefused line 8 (codes "NoSuchMessage")) }
    ensures task_busy { (line : ℕ) → line < 2 ^ 64
        → read_line (refused_line_of line TaskBusy) ≡ Some (StepRefused line 9 (codes "TaskBusy")) }
    ensures numbers_spent { (line : ℕ) → line < 2 ^ 64
        → read_line (refused_line_of line NumbersSpent)
        ≡ Some (StepRefused line 10 (codes "NumbersSpent")) }
    ensures limit { (line : ℕ) → line < 2 ^ 64
        → read_line (limit_line_of line) ≡ Some (DrainEnded line) }
    ensures agreed { read_line agreed_line ≡ Some LogsAgree }
{}

/// The line of a packet is read as that packet's: its number, its sender and its receiver, its kind,
/// and the numbers that are listed for that kind.
pub fn lines_of_packets_are_read_back()
    // claim: The line of a packet in a trace says its number, its parties, its kind and its numbers
    ensures { (number : ℕ) (from to : List ℕ) (body : Body)
        → number < 2 ^ 64 → IsPartyName from → IsPartyName to → AreNumbers (stated_of body).1
        → read_packet (trace_line_of number from to body)
        ≡ Some (record {
          number = number;
          from = from;
          to = to;
          kind = (stated_of body).0;
          numbers = (stated_of body).1;
        }) }
{}
