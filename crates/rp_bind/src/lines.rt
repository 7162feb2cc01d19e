//! The lines of packages.

ghost use Rattle.std.specs.Prelude.{Some};
ghost use Rattle.rp_bind.specs.Texts.{ada_lines, c_lines, inline_body, inline_function, inline_head, object_end, object_head, operation_lines, subprogram, task_constant, timer_lines, timer_subprogram};

use std::fmt;

/// What is printed of a deck.
#[derive(Clone, Copy)]
pub enum Language {
    /// The specification of a package of Ada.
    Ada,
    /// Its body whose objects are protected objects of one machine.
    Local,
    /// A header of C.
    C,
}

/// What an operation is, and what a function returns.
#[derive(Clone, Copy)]
pub enum Kind {
    /// A function that returns a number.
    Value,
    /// A function that returns a Boolean.
    Truth,
    Procedure,
    Entry,
}

/// A task or an object, by its name and its number.
#[derive(Clone, Copy)]
pub struct Party<'a> {
    pub language: Language,
    pub name: &'a str,
    pub number: usize,
}

/// The number of a task.
#[derive(Clone, Copy)]
pub struct TaskLine<'a> {
    pub task: Party<'a>,
}

impl fmt::Display for TaskLine<'_> {
    ghost output = { λ l. Some (task_constant l.task.language l.task.name.now l.task.number) };

    fn fmt<W: fmt::Write>(&self, f: &mut fmt::Formatter<W>) -> fmt::Result {
        let Party { name, number, .. } = self.task;
        match self.task.language {
            Language::Ada | Language::Local => writeln!(f, "      {name} : constant := {number};"),
            Language::C => writeln!(f, "  task__{name} = {number},"),
        }
    }
}

/// A timing event of this number, whose handler is a procedure of the object of that number.
#[derive(Clone, Copy)]
pub struct TimerLines<'a> {
    pub name: &'a str,
    pub object: u8,
    pub number: usize,
}

impl fmt::Display for TimerLines<'_> {
    ghost output = { λ l. Some (timer_lines l.name.now l.object l.number) };

    fn fmt<W: fmt::Write>(&self, f: &mut fmt::Formatter<W>) -> fmt::Result {
        let TimerLines {
            name,
            object,
            number,
        } = *self;
        let set = TimerSubprogram {
            head: "procedure Set is new Calls_Of_This_Deck.Set_A_Timing_Event",
            object,
            number,
        };
        let cancel = TimerSubprogram {
            head: "function Cancel is new Calls_Of_This_Deck.Cancel_A_Timing_Event",
            object,
            number,
        };
        write!(
            f,
            "      package {name} is\n{set}{cancel}      end {name};\n"
        )
    }
}

/// A subprogram of a timing event, which begins with this.
#[derive(Clone, Copy)]
struct TimerSubprogram<'a> {
    head: &'a str,
    object: u8,
    number: usize,
}

impl fmt::Display for TimerSubprogram<'_> {
    ghost output = { λ l. Some (timer_subprogram l.head.now l.object l.number) };

    fn fmt<W: fmt::Write>(&self, f: &mut fmt::Formatter<W>) -> fmt::Result {
        let TimerSubprogram {
            head,
            object,
            number,
        } = *self;
        writeln!(
            f,
            "         {head}\n           (Object => {object}, Index => {number});"
        )
    }
}

/// What begins an object.
#[derive(Clone, Copy)]
pub struct ObjectHead<'a> {
    pub object: Party<'a>,
}

impl fmt::Display for ObjectHead<'_> {
    ghost output = { λ l. Some (object_head l.object.language l.object.name.now) };

    fn fmt<W: fmt::Write>(&self, f: &mut fmt::Formatter<W>) -> fmt::Result {
        let name = self.object.name;
        match self.object.language {
            Language::Ada | Language::Local => write!(f, "\n   package {name} is\n"),
            Language::C => write!(f, "\n/* The object {name}. */\n"),
        }
    }
}

/// What ends an object.
#[derive(Clone, Copy)]
pub struct ObjectEnd<'a> {
    pub object: Party<'a>,
}

impl fmt::Display for ObjectEnd<'_> {
    ghost output = { λ l. Some (object_end l.object.language l.object.name.now) };

    fn fmt<W: fmt::Write>(&self, f: &mut fmt::Formatter<W>) -> fmt::Result {
        let name = self.object.name;
        match self.object.language {
            Language::Ada | Language::Local => writeln!(f, "   end {name};"),
            Language::C => Ok(()),
        }
    }
}

/// An operation of an object.
#[derive(Clone, Copy)]
pub struct OperationLines<'a> {
    pub object: Party<'a>,
    pub name: &'a str,
    pub kind: Kind,
    pub index: u8,
}

impl fmt::Display for OperationLines<'_> {
    ghost output = { λ l. Some (operation_lines l.object.language l.object.name.now l.object.number
        l.name.now l.kind l.index) };

    fn fmt<W: fmt::Write>(&self, f: &mut fmt::Formatter<W>) -> fmt::Result {
        let operation = *self;
        match self.object.language {
            Language::Ada | Language::Local => {
                let lines = AdaLines { operation };
                write!(f, "{lines}")
            }
            Language::C => {
                let lines = CLines { operation };
                write!(f, "{lines}")
            }
        }
    }
}

/// The subprograms of an operation in a package of Ada: a procedure or an entry is there with its
/// result and without it.
#[derive(Clone, Copy)]
struct AdaLines<'a> {
    operation: OperationLines<'a>,
}

impl fmt::Display for AdaLines<'_> {
    ghost output = { λ l. Some (ada_lines l.operation.kind l.operation.object.number
        l.operation.name.now l.operation.index) };

    fn fmt<W: fmt::Write>(&self, f: &mut fmt::Formatter<W>) -> fmt::Result {
        let operation = self.operation;
        match operation.kind {
            Kind::Value => {
                let function = Subprogram {
                    word: "function",
                    calls: "Value_Function",
                    operation,
                };
                write!(f, "{function}")
            }
            Kind::Truth => {
                let function = Subprogram {
                    word: "function",
                    calls: "Truth_Function",
                    operation,
                };
                write!(f, "{function}")
            }
            Kind::Procedure => {
                let whole = Subprogram {
                    word: "procedure",
                    calls: "A_Procedure",
                    operation,
                };
                let alone = Subprogram {
                    word: "procedure",
                    calls: "A_Procedure_Alone",
                    operation,
                };
                write!(f, "{whole}{alone}")
            }
            Kind::Entry => {
                let whole = Subprogram {
                    word: "procedure",
                    calls: "An_Entry",
                    operation,
                };
                let alone = Subprogram {
                    word: "procedure",
                    calls: "An_Entry_Alone",
                    operation,
                };
                write!(f, "{whole}{alone}")
            }
        }
    }
}

/// The inline function of an operation in a header of C.
#[derive(Clone, Copy)]
struct CLines<'a> {
    operation: OperationLines<'a>,
}

impl fmt::Display for CLines<'_> {
    ghost output = { λ l. Some (c_lines l.operation.kind l.operation.object.name.now
        l.operation.object.number l.operation.name.now l.operation.index) };

    fn fmt<W: fmt::Write>(&self, f: &mut fmt::Formatter<W>) -> fmt::Result {
        let (result, calls) = match self.operation.kind {
            Kind::Value => ("int64_t", "rp_call_value_function"),
            Kind::Truth => ("bool", "rp_call_truth_function"),
            Kind::Procedure => ("int64_t", "rp_call_procedure"),
            Kind::Entry => ("int64_t", "rp_call_entry"),
        };
        let function = Inline {
            result,
            calls,
            operation: self.operation,
        };
        write!(f, "{function}")
    }
}

/// A subprogram of a package of Ada: an instance of this generic one.
#[derive(Clone, Copy)]
struct Subprogram<'a> {
    word: &'a str,
    calls: &'a str,
    operation: OperationLines<'a>,
}

impl fmt::Display for Subprogram<'_> {
    ghost output = { λ l. Some (subprogram l.word.now l.calls.now l.operation.object.number
        l.operation.name.now l.operation.index) };

    fn fmt<W: fmt::Write>(&self, f: &mut fmt::Formatter<W>) -> fmt::Result {
        let Subprogram {
            word,
            calls,
            operation,
        } = *self;
        let OperationLines {
            object,
            name,
            index,
            ..
        } = operation;
        let number = object.number;
        writeln!(
            f,
            "      {word} {name} is new Calls_Of_This_Deck.{calls}\n        (Object => {number}, Index => {index});"
        )
    }
}

/// An inline function of C, which calls this one.
#[derive(Clone, Copy)]
struct Inline<'a> {
    result: &'a str,
    calls: &'a str,
    operation: OperationLines<'a>,
}

impl fmt::Display for Inline<'_> {
    ghost output = { λ l. Some (inline_function l.result.now l.calls.now l.operation.object.name.now
        l.operation.object.number l.operation.name.now l.operation.index) };

    fn fmt<W: fmt::Write>(&self, f: &mut fmt::Formatter<W>) -> fmt::Result {
        let head = InlineHead { inline: *self };
        let body = InlineBody { inline: *self };
        write!(f, "{head} {{\n{body}\n}}\n")
    }
}

/// What it is called with.
#[derive(Clone, Copy)]
struct InlineHead<'a> {
    inline: Inline<'a>,
}

impl fmt::Display for InlineHead<'_> {
    ghost output = { λ l. Some (inline_head l.inline.result.now
        l.inline.operation.object.name.now l.inline.operation.name.now) };

    fn fmt<W: fmt::Write>(&self, f: &mut fmt::Formatter<W>) -> fmt::Result {
        let result = self.inline.result;
        let name = self.inline.operation.name;
        let owner = self.inline.operation.object.name;
        write!(
            f,
            "static inline uint8_t {owner}__{name}(const rp_caller *caller, int64_t argument, {result} *result)"
        )
    }
}

/// What it calls.
#[derive(Clone, Copy)]
struct InlineBody<'a> {
    inline: Inline<'a>,
}

impl fmt::Display for InlineBody<'_> {
    ghost output = { λ l. Some (inline_body l.inline.calls.now
        l.inline.operation.object.number l.inline.operation.index) };

    fn fmt<W: fmt::Write>(&self, f: &mut fmt::Formatter<W>) -> fmt::Result {
        let calls = self.inline.calls;
        let number = self.inline.operation.object.number;
        let index = self.inline.operation.index;
        write!(
            f,
            "  return {calls}(caller, {number}, {index}, argument, result);"
        )
    }
}
