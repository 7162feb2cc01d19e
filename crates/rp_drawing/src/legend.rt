//! What the signs of a drawing mean, at its head.

ghost use Rattle.std.specs.Prelude.{◌≡◌};
ghost use Rattle.rp_drawing.specs.Legend.{legend_text};

/// The legend: three columns of four signs, each with what it means at its right.
const LEGEND: &str = "\
    <path class='s0' d='M4 12h22'/><text x='34' y='16'>a packet that is delivered</text>\n\
    <path class='k4' d='M300 12h8'/><text x='320' y='16'>an actor acts, and no record is made</text>\n\
    <path class='k7' d='M584 12h8'/><text x='606' y='16'>a node stops</text>\n\
    <path class='s1' d='M4 27h22'/><text x='34' y='31'>a packet to a stopped node</text>\n\
    <path class='k5' d='M300 27h8'/><text x='320' y='31'>a node writes a record</text>\n\
    <path class='k9' d='M584 27h8'/><text x='606' y='31'>a node starts again</text>\n\
    <path class='s2' d='M4 42h22'/><text x='34' y='46'>a packet that is lost</text>\n\
    <path class='k6' d='M300 42h8'/><text x='320' y='46'>a node stops within a record</text>\n\
    <path class='k8' d='M578 42h22'/><path class='k11' d='M578 42h22'/><text x='606' y='46'>the lane of a stopped node</text>\n\
    <path class='s3' d='M4 57h22'/><text x='34' y='61'>a packet still on its way at the end</text>\n\
    <path class='k10' d='M300 57h8'/><text x='320' y='61'>a node is shown</text>\n\
    <path class='c1 k5' d='M577 57h6'/><path class='c2 k5' d='M586 57h6'/><path class='c3 k5' d='M595 57h6'/><text x='606' y='61'>a colour: the owner of the ballot</text>\n";

/// The text of the legend.
pub fn legend_text() -> &'static str
    ensures { result.now ≡ legend_text }
{
    LEGEND
}
