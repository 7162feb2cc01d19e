//! What to write in place of a word that is at fault.

ghost use Rattle.std.specs.Prelude.{◌≡◌};
ghost use Rattle.rp_deck_hints.specs.Advice.{advice_text};

/// What to write in place of a word, by what is to be there.
#[derive(Clone, Copy)]
pub enum Advice {
    /// N of `nodes N`.
    Nodes,
    /// P of `positions P`.
    Positions,
    /// COUNT of `tally COUNT`.
    Tally,
    /// PRIORITY of a task.
    Priority,
    /// CEILING of an object.
    Ceiling,
    /// INIT of an integer component.
    FirstValue,
    /// L of `queue L`.
    Queue,
    /// NODE of a line of the script.
    Node,
    /// The number of a packet.
    Packet,
    /// A position of the log.
    Position,
    /// COUNT of a range.
    Count,
    /// OCCURRENCE of an interrupt.
    Occurrence,
    /// NOW of a tick.
    Now,
    /// KEPT of a cut.
    Kept,
    /// The fourth word of a cut.
    CutWhere,
    /// Any other number.
    Number,
    /// A name.
    Name,
    /// The name of a component.
    ComponentName,
    /// An operation of an object.
    Dotted,
    /// A name that was declared before.
    Declared,
    /// A name that is declared nowhere, or of another kind.
    Unknown,
    /// A component of `put`.
    PutBoolean,
    /// A component of `set`.
    SetInteger,
    /// BOOL of an entry.
    Barrier,
    /// A line before `nodes`.
    FirstLine,
    /// A byte order mark.
    ByteOrderMark,
    /// A line that live mode does not take.
    Live,
    /// `nodes` below the first line.
    OnceNodes,
    /// `positions` elsewhere.
    OncePositions,
    /// `profile` elsewhere.
    OnceProfile,
    /// `task` elsewhere.
    Task,
    /// `tally` elsewhere.
    OneTally,
    /// `object`, `interrupt` or `timer` elsewhere.
    Object,
    /// A line of an object elsewhere.
    OfObject,
    /// A statement elsewhere.
    Statement,
    /// `else` elsewhere.
    Else,
    /// `end` elsewhere.
    End,
    /// A line of the script elsewhere.
    OfScript,
    /// `script` elsewhere.
    Script,
    /// A rule elsewhere.
    Rule,
    /// A guard elsewhere.
    Guard,
    /// PROFILE.
    Profile,
    /// INIT of a Boolean component.
    Truth,
    /// The kind of a function.
    Function,
    /// `when` of an entry.
    When,
    /// `queue` of an entry.
    Longest,
    /// The step of a cut.
    CutStep,
}

impl Advice {
    /// Its words, as they are printed.
    pub fn text(self) -> &'static str
        ensures { result.now ≡ advice_text self }
    {
        match self {
            Advice::Nodes => "nodes is 3 to 7",
            Advice::Positions => "positions is 1 to 65535",
            Advice::Tally => "a tally has 1 to 8 objects",
            Advice::Priority => "a priority is 1 to 30",
            Advice::Ceiling => "a ceiling is 1 to 30",
            Advice::FirstValue => "a first value is from LOW to HIGH",
            Advice::Queue => "a queue is 1 to 8 calls long",
            Advice::Node => "a node is 1 to the number after nodes",
            Advice::Packet => "packets are numbered from 1",
            Advice::Position => "a position is 1 to 65535",
            Advice::Count => "a range has 1 to 64 positions",
            Advice::Occurrence => "an occurrence is 1 to 4294967295",
            Advice::Now => "the time of a tick is 0 to 4294967295",
            Advice::Kept => "the bytes that are kept are 0 or more",
            Advice::CutWhere => {
                "a node is 1 to the number after nodes, and packets are numbered from 1"
            }
            Advice::Number => {
                "a number is decimal digits, after a - if it is negative, within 64 bits"
            }
            Advice::Name => "a name is a letter and at most 15 letters, digits or _",
            Advice::ComponentName => {
                "a component's name is a letter, at most 15 letters, digits or _, and no word of expressions"
            }
            Advice::Dotted => "write OBJECT.OPERATION, two names with a dot between them",
            Advice::Declared => "it is declared above: choose another name",
            Advice::Unknown => "nothing of this name and kind is declared above",
            Advice::PutBoolean => {
                "put takes a Boolean component that is declared above, and set an integer one"
            }
            Advice::SetInteger => {
                "set takes an integer component that is declared above, and put a Boolean one"
            }
            Advice::Barrier => {
                "a barrier is the name of a Boolean component: put the condition into that"
            }
            Advice::FirstLine => "the first line is nodes N, with N from 3 to 7",
            Advice::ByteOrderMark => "the text begins with a byte order mark: save it without one",
            Advice::Live => "live and explore take call, arm, disarm, irq and tick alone",
            Advice::OnceNodes => "nodes stands once, in the first line",
            Advice::OncePositions => "positions stands once, right after nodes",
            Advice::OnceProfile => "profile stands once, right after nodes or positions",
            Advice::Task => "a task is declared above script, and in no body",
            Advice::OneTally => "a tally is declared once, above script, and beside no object",
            Advice::Object => "it is declared above script, in no body, and beside no tally",
            Advice::OfObject => {
                "it belongs to the object above it: above script, in no body, and beside no tally"
            }
            Advice::Statement => {
                "a statement is in the body of a procedure or an entry, above script"
            }
            Advice::Else => "else stands once in an if",
            Advice::End => "end closes an if or a body, and stands nowhere else",
            Advice::OfScript => "it is a line of the script, and stands after script",
            Advice::Script => "script stands once, after the end of each body",
            Advice::Rule => "a rule is for explore, and stands right before script",
            Advice::Guard => "a guard is for explore, and stands after script",
            Advice::Profile => "a profile is ravenscar or jorvik",
            Advice::Truth => "a first value here is true or false",
            Advice::Function => "write function NAME value EXPR or function NAME truth COND",
            Advice::When => "write entry NAME when BOOL",
            Advice::Longest => "write entry NAME when BOOL queue L",
            Advice::CutStep => "a cut takes lead, range or deliver",
        }
    }
}
