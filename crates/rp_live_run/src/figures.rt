//! The line of figures that a run in threads reports.

ghost use Rattle.std.specs.Prelude.{Some};
ghost use Rattle.rp_live_run.specs.Figures.{figures_line_of, figures_text};

use rp_live::Figures;
use std::time::{Clock, Instant};
use std::{fmt, io};

/// How a run in threads went, for a person to read.
#[derive(Clone, Copy)]
pub struct FiguresLine {
    pub figures: Figures,
    /// How long the threads and the audit took, if the clock could be read.
    pub milliseconds: Option<u64>,
}

impl fmt::Display for FiguresLine {
    ghost output = { λ f. Some (figures_line_of f) };

    fn fmt<W: fmt::Write>(&self, f: &mut fmt::Formatter<W>) -> fmt::Result {
        let calls = CallsLine {
            figures: self.figures,
        };
        match self.milliseconds {
            Some(milliseconds) => write!(f, "{calls}, {milliseconds} ms"),
            None => write!(f, "{calls}"),
        }
    }
}

/// The line without the time.
#[derive(Clone, Copy)]
struct CallsLine {
    figures: Figures,
}

impl fmt::Display for CallsLine {
    ghost output = { λ l. Some (figures_text l.figures) };

    fn fmt<W: fmt::Write>(&self, f: &mut fmt::Formatter<W>) -> fmt::Result {
        let Figures {
            asked,
            answered,
            last_reply,
            lost,
            led,
        } = self.figures;
        write!(
            f,
            "{answered} of {asked} calls by turn {last_reply}, {lost} packets lost, {led} ballots"
        )
    }
}

/// How many milliseconds have passed, if the clock could be read.
pub fn milliseconds_since<C: Clock>(clock: &C, begun: io::Result<Instant>) -> Option<u64> {
    let took = begun.ok()?.elapsed(clock).ok()?;
    u64::try_from(took.as_millis()).ok()
}
