//! Does what the words of the command line ask for, and reports its faults.

ghost use Rattle.std.specs.Prelude.{◌≡◌, ◌≤◌, [], IfErr, IfOk, Ok, OnErr, length, map};
ghost use Rattle.rp_console.specs.Console.{IsFaultOf, FollowsWords, HasBegun, IsHintOf, Prints, EndsAs, fault_report, reading_of, report_of, search_report, search_status, status_of_run};
ghost use Rattle.rp_bind_run.specs.rp_output.specs.Endings.{status_of};
ghost use Rattle.rp_bind_run.specs.rp_output.specs.FaultMessage.{with_line_feed};
ghost use Rattle.rp_bind_run.specs.rp_output.specs.Stream.{Writes};
ghost use Rattle.rp_bind_run.specs.rp_script.specs.Given.{most_bytes};

use rp_base::Fault;
use rp_bind_run::bind_deck;
use rp_chart::{Outcome, draw_script};
use rp_command_line::{Args, read_args, refuse_words};
use rp_deck::Mode;
use rp_deck_hints::{Hint, Reading, hint_for};
use rp_explore_run::{Verdict, explore_deck};
use rp_live_run::{FiguresLine, LiveRequest, run_live};
use rp_output::{Ending, Streams, fail, report};
use rp_script::{read_whole, run_script};
use std::alloc::Global;
use std::convert::AsStr;
use std::io::{Read, Write};
use std::sync::Wait;
use std::thread::Threads;
use std::time::Clock;

/// What a run without a fault leaves to be reported.
#[derive(Drop)]
pub enum Report {
    /// Nothing.
    Nothing,
    /// The line of the figures of a live run.
    Figures(FiguresLine),
    /// That the drawing is too long, so that there is none.
    TooLong,
    /// What became of a search.
    Searched(Verdict),
    /// Why a deck has no packages.
    Refused(String),
}

/// Why there is no drawing.
const TOO_LONG: &str =
    "error: the drawing has more than 2000 lines: choose a part of it by --from N or --to N";

/// Why there is no deck of an outcome: no outcome has the number.
const NO_OUTCOME: &str = "error: there is no outcome of this number";

/// Why there is none: the order of the outcome is longer than the log.
const FEW_POSITIONS: &str =
    "error: the order of this outcome is longer than the log: give the deck more positions";

/// Why there is none: its run does not show the outcome, which is a mistake of this program.
const NOT_SHOWN: &str = "error: the deck of this outcome does not show it";

/// Runs what the words ask for and reports its fault, or reports why the words are wrong.
pub fn obey<
    T: Threads + Wait + Clock + Sync,
    S: AsStr,
    R: Read + Drop,
    W: Write + Drop,
    E: Write + Drop,
>(rt: &T, alloc: Global, words: &[S], streams: &mut Streams<R, W, E>) -> Ending
    // claim: The program runs what its words ask for (a script, traced or not, a live run, a drawing
    //   of a script's run, a search over every order of a deck, or a deck's packages), and nothing if
    //   they are wrong. The status is 0 if the run ended without a fault, no drawing was too long and
    //   a search is complete with no rule broken or printed the deck of an outcome, or if the words
    //   ask for help or the version; 5 exactly if a search broke a rule, and 6 exactly if it is not
    //   complete and broke none; 7 if the deck of an outcome does not show it; 3 at a bad deck; 2 at
    //   wrong words, if the drawing is too long, if there is no deck of the outcome, or if a name of
    //   the deck is none of Ada, each of which one line reports; and 4 at every other fault. A fault
    //   is reported on standard error by its line, that of a bad deck with the first bad line that the
    //   deck's bytes mean and the first reason on it, after which the line of a hint of these bytes
    //   may follow. If the deck cannot be read, nothing is printed. A live run
    //   without a fault leaves there the line of the figures of the run that it printed, with a time
    //   or without one. A line that could not be written whole is left there as a prefix of it. A
    //   script or a drawing without a fault leaves standard error as it was; wrong words print
    //   nothing, and help reports nothing; if help cannot be printed the fault is `Io`
    ensures obeyed { FollowsWords (map S.text words.now) (R.remaining streams.old.reader)
        (W.contents streams.old.writer) (W.contents streams.new.writer)
        (E.contents streams.old.errors) (E.contents streams.new.errors) result }
{
    match read_args(alloc, words) {
        Ok(args) => run_to_end(rt, alloc, args, streams),
        Err(error) => refuse_words(&error, streams),
    }
}

/// Reads the deck whole, runs what was asked for over it, and reports what became of that: of a bad
/// deck its fault and a hint, unless memory ran out for the hint.
fn run_to_end<T: Threads + Wait + Clock + Sync, R: Read + Drop, W: Write + Drop, E: Write + Drop>(
    rt: &T,
    alloc: Global,
    args: Args,
    streams: &mut Streams<R, W, E>,
) -> Ending
    ensures { EndsAs args (R.remaining streams.old.reader)
        (W.contents streams.old.writer) (W.contents streams.new.writer)
        (E.contents streams.old.errors) (E.contents streams.new.errors) result }
{
    let reading = reading_of(&args);
    match read_whole(alloc, &mut streams.reader) {
        Ok(text) => {
            let ran = run_as(rt, alloc, args, &mut text.as_slice(), &mut streams.writer);
            let hint = hint_of(alloc, &text, reading, &ran);
            end(&mut streams.errors, ran, hint)
        }
        Err(fault) => fail(&mut streams.errors, fault),
    }
}

/// How the deck is read for what was asked for.
fn reading_of(args: &Args) -> Reading
    ensures { result ≡ reading_of args.now }
{
    match args {
        Args::Live { .. } => Reading::Deck(Mode::Live),
        Args::Explore(_) => Reading::Plan,
        _ => Reading::Deck(Mode::Script),
    }
}

/// The hint for a bad deck of this text, if there is one and memory for it.
fn hint_of<'a>(
    alloc: Global,
    text: &'a [u8],
    reading: Reading,
    ran: &Result<Report, Fault>,
) -> Option<Hint<'a>>
    requires { length text.now ≤ most_bytes }
    ensures { IsHintOf reading text.now ran.now result }
{
    match ran {
        Err(Fault::BadDeck { line, reason }) => {
            match hint_for(alloc, text, reading, *line, *reason) {
                Ok(hint) => hint,
                Err(_) => None,
            }
        }
        _ => None,
    }
}

/// Runs the deck that the reader holds, in its script's order or in threads, draws its script's run,
/// explores every order of it, or prints its packages. Returns what is to be reported of it.
fn run_as<T: Threads + Wait + Clock + Sync, R: Read, W: Write>(
    rt: &T,
    alloc: Global,
    args: Args,
    reader: &mut R,
    writer: &mut W,
) -> Result<Report, Fault>
    ensures output { IfOk result (Prints args (R.remaining reader.old)
        (W.contents writer.old) (W.contents writer.new)) }
    ensures begun { OnErr result (HasBegun args (R.remaining reader.old)
        (W.contents writer.old) (W.contents writer.new)) }
    ensures fault { IfErr result (IsFaultOf args (R.remaining reader.old)
        (W.contents writer.old) (W.contents writer.new)) }
{
    match args {
        Args::Script { traced } => match run_script(alloc, reader, traced, writer) {
            Ok(()) => Ok(Report::Nothing),
            Err(fault) => Err(fault),
        },
        Args::Live { seed, turns } => {
            let request = LiveRequest { seed, turns };
            match run_live(rt, alloc, reader, request, writer) {
                Ok(figures) => Ok(Report::Figures(figures)),
                Err(fault) => Err(fault),
            }
        }
        Args::Chart(request) => match draw_script(alloc, reader, request, writer) {
            Ok(Outcome::Drawn) => Ok(Report::Nothing),
            Ok(Outcome::TooLong) => Ok(Report::TooLong),
            Err(fault) => Err(fault),
        },
        Args::Explore(request) => match explore_deck(alloc, reader, request, writer) {
            Ok(verdict) => Ok(Report::Searched(verdict)),
            Err(fault) => Err(fault),
        },
        Args::Bind(language) => match bind_deck(alloc, reader, language, writer) {
            Ok(None) => Ok(Report::Nothing),
            Ok(Some(line)) => Ok(Report::Refused(line)),
            Err(fault) => Err(fault),
        },
    }
}

/// Reports a run's figures, that its drawing is too long, why there is no deck of an outcome, or its
/// fault with its hint, if it has any.
fn end<E: Write>(errors: &mut E, ran: Result<Report, Fault>, hint: Option<Hint<'_>>) -> Ending
    ensures status { result.status ≡ status_of_run ran }
    ensures reported { Writes (E.contents errors.old) (E.contents errors.new)
        (report_of ran hint.entry) result.reported }
    ensures silent { report_of ran hint.entry ≡ [] → E.contents errors.new ≡ E.contents errors.old }
{
    match ran {
        Ok(Report::Nothing) => Ending {
            status: 0,
            reported: Ok(()),
        },
        Ok(Report::Figures(figures)) => Ending {
            status: 0,
            reported: report(errors, figures),
        },
        Ok(Report::TooLong) => Ending {
            status: 2,
            reported: report(errors, TOO_LONG),
        },
        Ok(Report::Searched(verdict)) => end_search(errors, verdict),
        Ok(Report::Refused(line)) => refused(errors, 2, &line),
        Err(fault) => fail_with(errors, fault, hint),
    }
}

/// Reports a fault, and then a hint, if there is one.
fn fail_with<E: Write>(errors: &mut E, fault: Fault, hint: Option<Hint<'_>>) -> Ending
    ensures status { result.status ≡ status_of fault }
    ensures reported { Writes (E.contents errors.old) (E.contents errors.new)
        (fault_report fault hint.entry) result.reported }
{
    let ending = fail(errors, fault);
    let Some(hint) = hint else {
        return ending;
    };
    if ending.reported.is_err() {
        return ending;
    }
    Ending {
        status: ending.status,
        reported: report(errors, hint),
    }
}

/// Reports why there is no deck of an outcome, if it was asked for and there is none.
fn end_search<E: Write>(errors: &mut E, verdict: Verdict) -> Ending
    ensures status { result.status ≡ search_status verdict }
    ensures reported { Writes (E.contents errors.old) (E.contents errors.new)
        (search_report verdict) result.reported }
    ensures silent { search_report verdict ≡ [] → E.contents errors.new ≡ E.contents errors.old }
{
    match verdict {
        Verdict::Complete | Verdict::Shown => silent(0),
        Verdict::Broken => silent(5),
        Verdict::Incomplete => silent(6),
        Verdict::NoOutcome => refused(errors, 2, NO_OUTCOME),
        Verdict::TooLong => refused(errors, 2, FEW_POSITIONS),
        Verdict::NotShown => refused(errors, 7, NOT_SHOWN),
    }
}

/// Nothing is reported.
fn silent(status: u8) -> Ending
    ensures { result ≡ record { status = status; reported = Ok tt } }
{
    Ending {
        status,
        reported: Ok(()),
    }
}

/// This line is reported.
fn refused<E: Write>(errors: &mut E, status: u8, line: &str) -> Ending
    ensures status { result.status ≡ status }
    ensures reported { Writes (E.contents errors.old) (E.contents errors.new)
        (with_line_feed line.now) result.reported }
{
    Ending {
        status,
        reported: report(errors, line),
    }
}
