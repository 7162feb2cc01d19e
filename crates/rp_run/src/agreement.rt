//! What holds of the output of a script's lines, and of the world after any two of them.

ghost use Rattle.std.specs.Prelude.{All};
ghost use Rattle.rp_run.specs.Agreeing.{RunAgrees, RunIsPrinted};
ghost use Rattle.rp_run.specs.Runs.{run_setting, opening_cluster};
ghost use Rattle.rp_deck.specs.Script.{KeepsRanges};

use crate::options::RunOptions;
use rp_agreement::records_stay_in_the_log;
use rp_deck::{Command, Line};
use rp_machine::Machine;
use rp_world::histories_are_ordered;

/// For all lines of a script: after any number of them one order gives all that they print, and
/// after any two of them nodes agree. It does nothing: its contract is for the callers' proofs.
pub fn scripts_agree<M: Machine>(options: &RunOptions<'_>)
    // claim: For every machine, whatever the lines of a script are, one order gives the states and
    //   the replies that its run prints, and after any two lines nodes agree
    ensures agrees { (program : M.Program) → RunAgrees
        (run_setting M.next M.answers M.begin M.image (opening_cluster options.now.config program)
        options.now) options.now.most options.now.lines.now }
    ensures printed { (program : M.Program) → RunIsPrinted
        (run_setting M.next M.answers M.begin M.image (opening_cluster options.now.config program)
        options.now) options.now.most options.now.lines.now }
{
    histories_are_ordered::<M>();
    records_stay_in_the_log::<M>();
    lines_keep_ranges(options.lines);
}

fn lines_keep_ranges(lines: &[Line])
    ensures { All (λ line. KeepsRanges line.command) lines.now }
{
    for line in lines {
        command_keeps_ranges(&line.command);
    }
}

fn command_keeps_ranges(command: &Command)
    ensures { KeepsRanges command.now }
{
    match command {
        Command::Take(event) => event.keeps_ranges(),
        Command::Lose { .. } | Command::Drain | Command::Show => {}
    }
}
