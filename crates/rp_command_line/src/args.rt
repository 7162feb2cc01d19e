//! What the words of the command line ask for.

ghost use Rattle.std.specs.Prelude.{◌≡◌, ℕ, None, Some, true, false, codes, IfOk, map, option_map};
ghost use Rattle.clap.specs.Words.{app_of, rule_of, subcommand_of, fault_of, found_of, one_text, FailsBy};
ghost use Rattle.clap.specs.declared.builder.command.Command.TheViews.{out-Command};
ghost use Rattle.rp_command_line.specs.CommandLine.{ada_option, bind, bind_option, c_option, chart, chart_option, console, count_option, explore, explore_option, hide_self_option, html_option, live, local_option, subcommand_word, position_option, script, seed, seed_of, states, trace_of, turns, turns_of, IsChartRequest, IsLanguage, IsRequest, IsView, ReadsAs};

use crate::words::VERSION;
use clap::{Arg, ArgAction, ArgMatches, Command, Error, value_parser};
use rp_base::Position;
use rp_bind::Language;
use rp_explore_deck::ExploreRequest;
use rp_history::{ChartRequest, Form, View};
use std::alloc::{AllocError, Global};
use std::convert::AsStr;

/// What the program is asked to do.
#[derive(Clone, Copy)]
pub enum Args {
    /// Runs the script of the deck on standard input.
    Script {
        /// Whether each packet that is sent is printed.
        traced: bool,
    },
    /// Runs the deck on standard input in threads.
    Live {
        /// The seed: it determines which packets are lost, duplicated and reordered.
        seed: u32,
        /// How many turns each node and each task makes at most.
        turns: u32,
    },
    /// Draws this part of the run of the script of the deck on standard input, or makes its page.
    Chart(ChartRequest),
    /// Explores every order of the program of the deck on standard input.
    Explore(ExploreRequest),
    /// Prints the packages of the deck on standard input.
    Bind(Language),
}

/// The program's command line.
pub fn command<'a>(alloc: Global) -> Result<Command<'a>, AllocError>
    ensures { IfOk result (λ command. app_of command ≡ console) }
{
    let script = script_command(alloc)?;
    let live = live_command(alloc)?;
    let chart = chart_command(alloc)?;
    let explore = explore_command(alloc)?;
    let bind = bind_command(alloc)?;
    Command::new(alloc, "rp_console")
        .about("Runs a program of tasks and objects on a cluster of nodes in memory")
        .after_help("Example: rp_console script < DECK; decks are described in docs/DECK.md")
        .version(VERSION)
        .subcommand_required(true)
        .disable_help_subcommand(true)
        .subcommand(script)?
        .subcommand(live)?
        .subcommand(chart)?
        .subcommand(explore)?
        .subcommand(bind)
}

/// The subcommand `script`.
fn script_command<'a>(alloc: Global) -> Result<Command<'a>, AllocError>
    ensures app { IfOk result (λ command. app_of command ≡ script) }
    ensures local { IfOk result (λ command. (out-Command command).has_globals ≡ false) }
{
    let trace = Arg::new(alloc, "trace")
        .long("trace")
        .help("Prints each packet that is sent")
        .action(ArgAction::SetTrue);
    Command::new(alloc, "script")
        .about("Reads a deck from standard input and runs its script")
        .override_usage("rp_console script [OPTIONS] < DECK")
        .arg(trace)
}

/// The subcommand `live`.
fn live_command<'a>(alloc: Global) -> Result<Command<'a>, AllocError>
    ensures app { IfOk result (λ command. app_of command ≡ live) }
    ensures local { IfOk result (λ command. (out-Command command).has_globals ≡ false) }
{
    Command::new(alloc, "live")
        .about("Reads a deck from standard input and runs its nodes and tasks as threads")
        .override_usage("rp_console live [OPTIONS] < DECK")
        .arg(seed_option(alloc))?
        .arg(turns_option(alloc))
}

/// The subcommand `chart`.
fn chart_command<'a>(alloc: Global) -> Result<Command<'a>, AllocError>
    ensures app { IfOk result (λ command. app_of command ≡ chart) }
    ensures local { IfOk result (λ command. (out-Command command).has_globals ≡ false) }
{
    Command::new(alloc, "chart")
        .about(
            "Reads a deck from standard input, runs its script and prints a drawing of what happens",
        )
        .override_usage("rp_console chart [OPTIONS] < DECK")
        .arg(position_option(alloc))?
        .arg(hide_self_option(alloc))?
        .arg(count_option(
            alloc,
            "from",
            "Draws only the moments from number N on, 1 to 4294967295",
        ))?
        .arg(count_option(
            alloc,
            "to",
            "Draws only the moments up to number N, 1 to 4294967295",
        ))?
        .arg(html_option(alloc))
}

/// The subcommand `explore`.
fn explore_command<'a>(alloc: Global) -> Result<Command<'a>, AllocError>
    ensures app { IfOk result (λ command. app_of command ≡ explore) }
    ensures local { IfOk result (λ command. (out-Command command).has_globals ≡ false) }
{
    Command::new(alloc, "explore")
        .about(
            "Reads a deck from standard input and explores every order of what its script asks for",
        )
        .override_usage("rp_console explore [OPTIONS] < DECK")
        .arg(states_option(alloc))?
        .arg(count_option(
            alloc,
            "deck",
            "Prints a deck for script that shows outcome N, 1 to 4294967295",
        ))
}

/// The subcommand `bind`.
fn bind_command<'a>(alloc: Global) -> Result<Command<'a>, AllocError>
    ensures app { IfOk result (λ command. app_of command ≡ bind) }
    ensures local { IfOk result (λ command. (out-Command command).has_globals ≡ false) }
{
    Command::new(alloc, "bind")
        .about(
            "Reads a deck from standard input and prints its objects as packages of Ada or as a header of C",
        )
        .override_usage("rp_console bind [OPTIONS] < DECK")
        .arg(ada_option(alloc))?
        .arg(local_option(alloc))?
        .arg(c_option(alloc))
}

/// The option `--seed`.
fn seed_option<'a>(alloc: Global) -> Arg<'a>
    ensures rule { rule_of result ≡ seed }
    ensures local { result.global ≡ false }
{
    Arg::new(alloc, "seed")
        .long("seed")
        .value_name("S")
        .help(
            "Seed that determines which packets are lost, duplicated and reordered, 0 to 4294967295",
        )
        .value_parser(value_parser!(u32))
        .default_value("0")
}

/// The option `--turns`.
fn turns_option<'a>(alloc: Global) -> Arg<'a>
    ensures rule { rule_of result ≡ turns }
    ensures local { result.global ≡ false }
{
    Arg::new(alloc, "turns")
        .long("turns")
        .value_name("T")
        .help("At most how many turns each node and each task makes, 1 to 1000000")
        .value_parser(value_parser!(u32).range(1..=1_000_000))
        .default_value("10000")
}

/// The option `--states`.
fn states_option<'a>(alloc: Global) -> Arg<'a>
    ensures rule { rule_of result ≡ states }
    ensures local { result.global ≡ false }
{
    Arg::new(alloc, "states")
        .long("states")
        .value_name("S")
        .help("At most how many states are found, 1 to 10000000")
        .value_parser(value_parser!(u32).range(1..=10_000_000))
        .default_value("1000000")
}

/// The option `--position`.
fn position_option<'a>(alloc: Global) -> Arg<'a>
    ensures rule { rule_of result ≡ position_option }
    ensures local { result.global ≡ false }
{
    Arg::new(alloc, "position")
        .long("position")
        .value_name("P")
        .help("Draws only what names this position, 1 to 65535")
        .value_parser(value_parser!(u16).range(1..))
}

/// The option `--hide-self`.
fn hide_self_option<'a>(alloc: Global) -> Arg<'a>
    ensures rule { rule_of result ≡ hide_self_option }
    ensures local { result.global ≡ false }
{
    Arg::new(alloc, "hide-self")
        .long("hide-self")
        .help("Draws no arrow from a node to itself")
        .action(ArgAction::SetTrue)
}

/// The option `--html`.
fn html_option<'a>(alloc: Global) -> Arg<'a>
    ensures rule { rule_of result ≡ html_option }
    ensures local { result.global ≡ false }
{
    Arg::new(alloc, "html")
        .long("html")
        .help("Prints a page with the drawing and the state after each moment")
        .action(ArgAction::SetTrue)
}

/// The option `--ada`.
fn ada_option<'a>(alloc: Global) -> Arg<'a>
    ensures rule { rule_of result ≡ ada_option }
    ensures local { result.global ≡ false }
{
    Arg::new(alloc, "ada")
        .long("ada")
        .help("Prints packages of Ada, as without an option")
        .action(ArgAction::SetTrue)
}

/// The option `--local`.
fn local_option<'a>(alloc: Global) -> Arg<'a>
    ensures rule { rule_of result ≡ local_option }
    ensures local { result.global ≡ false }
{
    Arg::new(alloc, "local")
        .long("local")
        .help("Prints the body of the package whose objects are on this machine alone")
        .action(ArgAction::SetTrue)
}

/// The option `--c`.
fn c_option<'a>(alloc: Global) -> Arg<'a>
    ensures rule { rule_of result ≡ c_option }
    ensures local { result.global ≡ false }
{
    Arg::new(alloc, "c")
        .long("c")
        .help("Prints a header of C")
        .action(ArgAction::SetTrue)
}

/// An option that takes a number from 1 on.
fn count_option<'a>(alloc: Global, name: &'a str, help: &'a str) -> Arg<'a>
    ensures rule { rule_of result ≡ count_option name.now }
    ensures local { result.global ≡ false }
{
    Arg::new(alloc, name)
        .long(name)
        .value_name("N")
        .help(help)
        .value_parser(value_parser!(u32).range(1..))
}

/// Reads the words, of which the first is the program's name. An error carries the text for the
/// user.
pub fn read_args<S: AsStr>(alloc: Global, words: &[S]) -> Result<Args, Error>
    // claim: The words of the command line name a subcommand and its options, or are refused as
    //   clap's rules say. For a drawing they choose a position, whether packets from a node to
    //   itself are drawn, the first and the last moment that is drawn, and whether a page is made of
    //   it; for a search how many
    //   states it may find, and whether it is to print the deck of an outcome, and of which; and for
    //   packages their language
    ensures named { IfOk result (λ args. option_map (λ found. found.0)
        (subcommand_of console (map S.text words.now)) ≡ Some (subcommand_word args)) }
    ensures traced { IfOk result (λ args. trace_of (map S.text words.now) ≡ Some (codes "true")
        → args ≡ Args.Script true) }
    ensures quiet { IfOk result (λ args. trace_of (map S.text words.now) ≡ Some (codes "false")
        → args ≡ Args.Script false) }
    ensures live { IfOk result (λ args. (seed turns : ℕ)
        → ReadsAs 32 (seed_of (map S.text words.now)) seed
        → ReadsAs 32 (turns_of (map S.text words.now)) turns
        → args ≡ Args.Live seed turns) }
    ensures chart { IfOk result (λ args. (request : ChartRequest) → args ≡ Args.Chart request
        → IsChartRequest (chart_option (map S.text words.now)) request) }
    ensures explore { IfOk result (λ args. (request : ExploreRequest)
        → args ≡ Args.Explore request
        → IsRequest (explore_option (map S.text words.now)) request) }
    ensures bind { IfOk result (λ args. (language : Language) → args ≡ Args.Bind language
        → IsLanguage (bind_option (map S.text words.now)) language) }
    ensures refused { FailsBy (fault_of console (map S.text words.now)) result }
{
    let matches = command(alloc)?.try_get_matches_from(words)?;
    if let Some(found) = matches.subcommand_matches("script") {
        let traced = found.get_flag("trace");
        return Ok(Args::Script { traced });
    }
    if let Some(found) = matches.subcommand_matches("live") {
        return Ok(Args::Live {
            seed: number_of(found, "seed"),
            turns: number_of(found, "turns"),
        });
    }
    if let Some(found) = matches.subcommand_matches("chart") {
        return Ok(Args::Chart(chart_of(found)));
    }
    if let Some(found) = matches.subcommand_matches("explore") {
        return Ok(Args::Explore(request_of(found)));
    }
    match matches.subcommand_matches("bind") {
        Some(found) => Ok(Args::Bind(language_of(found))),
        None => unreachable!(),
    }
}

/// The language that the options of `bind` choose.
fn language_of(found: &ArgMatches<'_>) -> Language
    ensures { IsLanguage (one_text (found_of found.now)) result }
{
    if found.get_flag("c") {
        Language::C
    } else if found.get_flag("local") {
        Language::Local
    } else {
        Language::Ada
    }
}

/// What the options of `chart` ask for.
fn chart_of(found: &ArgMatches<'_>) -> ChartRequest
    ensures { IsChartRequest (one_text (found_of found.now)) result }
{
    let form = if found.get_flag("html") {
        Form::Page
    } else {
        Form::Drawing
    };
    ChartRequest {
        view: view_of(found),
        form,
    }
}

/// The part of a run that the options of `chart` choose.
fn view_of(found: &ArgMatches<'_>) -> View
    ensures { IsView (one_text (found_of found.now)) result }
{
    View {
        position: Position::new(position_of(found, "position")),
        hides_self: found.get_flag("hide-self"),
        from: count_of(found, "from"),
        to: count_of(found, "to"),
    }
}

/// The search that the options of `explore` ask for.
fn request_of(found: &ArgMatches<'_>) -> ExploreRequest
    ensures { IsRequest (one_text (found_of found.now)) result }
{
    ExploreRequest {
        states: number_of(found, "states"),
        deck: count_of(found, "deck"),
    }
}

/// The value of an option that takes a number, 0 if it has none.
fn number_of(found: &ArgMatches<'_>, id: &str) -> u32
    ensures { (number : ℕ) → ReadsAs 32 (one_text (found_of found.now) id.now) number
        → result ≡ number }
{
    found.get_one::<u32>(id).unwrap_or(0)
}

/// The value of an option that takes a number from 1 on, if it has one.
fn count_of(found: &ArgMatches<'_>, id: &str) -> Option<u32>
    ensures none { one_text (found_of found.now) id.now ≡ None → result ≡ None }
    ensures number { (number : ℕ) → ReadsAs 32 (one_text (found_of found.now) id.now) number
        → result ≡ Some number }
{
    found.get_one::<u32>(id)
}

/// The value of an option that takes a position, 0 if it has none.
fn position_of(found: &ArgMatches<'_>, id: &str) -> u16
    ensures none { one_text (found_of found.now) id.now ≡ None → result ≡ 0 }
    ensures number { (number : ℕ) → ReadsAs 16 (one_text (found_of found.now) id.now) number
        → result ≡ number }
{
    found.get_one::<u16>(id).unwrap_or(0)
}
