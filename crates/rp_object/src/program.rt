//! What is declared before anything runs.

ghost use Rattle.std.specs.Prelude.{◌≡◌, ◌↔◌, true, IsTrue, IsSome, IfSome, IfOk};
ghost use Rattle.std.specs.Arc.{arc_value};
ghost use Rattle.std.specs.List.{All};
ghost use Rattle.rp_object.specs.Program.{has_operation, object_has, is_offered, is_declared, is_within_ceiling, is_handler, IsPriority, EndsFit, DeclarationFits, KeepsProfile, operations_of, IsProgram};
ghost use Rattle.rp_object.specs.OneProof.{one_proof};
ghost use Rattle.rp_entry.specs.rp_body.specs.Ranges.{IsInRange};

use rp_base::{MOST_OBJECTS, MOST_OPERATIONS, MOST_SOURCES, MOST_TASKS, Operation, TaskId};
use rp_body::{Components, MOST_OF_A_KIND};
use rp_entry::{Entry, Operations, of_index};
use std::alloc::{AllocError, Global};
use std::sync::Arc;

/// The most timing events that a program has, each of which a call names by an operation's index.
pub const MOST_TIMERS: u8 = MOST_OPERATIONS;

/// What runs at an interrupt, or when the time of a timing event has come: a procedure of an
/// object, both counted from 1 (Ada Reference Manual, sections C.3 and D.15).
#[derive(Clone, Copy)]
pub struct Handler {
    pub object: u8,
    pub procedure: u8,
}

/// What a program may declare.
#[derive(Clone, Copy, PartialEq, Eq)]
pub enum Profile {
    /// An object has one entry at most, at which one call waits at most (section D.13).
    Ravenscar,
    /// An object has up to 4 entries, at each of which up to 8 calls wait.
    Jorvik,
}

/// A protected object: its components are named by their places in the lists of names, and have
/// their first values.
#[derive(Drop)]
pub struct ObjectDeclaration {
    pub name: String,
    /// The ceiling priority, 1 to 30 (section D.3).
    pub ceiling: u8,
    /// The names of the whole-number components.
    pub ints: Vec<String>,
    /// The names of the Boolean components.
    pub bools: Vec<String>,
    pub components: Components,
    /// The names of the entries.
    pub entries: Vec<String>,
    pub operations: Arc<Operations, Global>,
}

/// A timing event.
#[derive(Drop)]
pub struct TimingEvent {
    pub name: String,
    pub handler: Handler,
}

/// What is declared, each kind numbered from 1 in this order.
#[derive(Drop)]
pub struct Declarations {
    pub profile: Profile,
    /// The base priorities of the tasks, 1 to 30.
    pub priorities: Vec<u8>,
    pub objects: Vec<ObjectDeclaration>,
    /// The handlers of the interrupts.
    pub interrupts: Vec<Handler>,
    pub timers: Vec<TimingEvent>,
}

/// Declarations that keep the limits. They are shared by all who run the program.
#[derive(Drop)]
pub struct Program {
    declarations: Arc<Declarations, Global>,
    ghost right: { IsProgram (arc_value declarations) } by { one_proof (arc_value declarations) },
}

impl Program {
    /// The program of these declarations, or `None` where they do not keep the limits: at most 8 of
    /// each kind, priorities and ceilings 1 to 30, a name for each component and each entry, first
    /// values in their ranges, operations that fit the components and keep the profile, and
    /// handlers that are there. It takes no memory.
    pub fn new(declarations: Arc<Declarations, Global>) -> Option<Self>
        // claim: A program is accepted exactly if it keeps its limits
        ensures right { IsSome result ↔ IsProgram (arc_value declarations) }
        ensures same { IfSome result (λ program. program.declarations ≡ declarations) }
    {
        if declarations.is_program() {
            Some(Program { declarations })
        } else {
            None
        }
    }

    /// What is declared, shared with whoever runs the program.
    pub(crate) fn share(&self) -> Result<Arc<Declarations, Global>, AllocError>
        ensures shared { IfOk result (λ declarations. arc_value declarations
            ≡ arc_value self.now.declarations) }
    {
        self.declarations.clone()
    }

    /// What is declared.
    pub fn declarations(&self) -> &Declarations
        ensures { result.now ≡ arc_value self.now.declarations }
    {
        &self.declarations
    }
}

impl ObjectDeclaration {
    /// Whether it keeps the limits.
    fn fits(&self) -> bool
        ensures { IsTrue result ↔ DeclarationFits self.now }
    {
        let limits = self.components.limits();
        is_priority(self.ceiling)
            && self.ints.len() <= MOST_OF_A_KIND
            && self.bools.len() <= MOST_OF_A_KIND
            && self.ints.len() == usize::from(limits.ints)
            && self.bools.len() == usize::from(limits.bools)
            && self.entries.len() == self.operations.entries.len()
            && is_in_range(&self.components)
            && self.operations.fit(&limits)
    }
}

/// The highest priority of a task, and the highest ceiling of an object.
pub const MOST_PRIORITY: u8 = 30;

/// Whether a priority or a ceiling is 1 to 30.
fn is_priority(number: u8) -> bool
    ensures { IsTrue result ↔ IsPriority number }
{
    matches!(number, 1..=MOST_PRIORITY)
}

/// Whether each whole number lies in its range.
fn is_in_range(components: &Components) -> bool
    ensures in_range { IsTrue result ↔ IsInRange components.now }
    ensures ends { IsTrue result → EndsFit components.now }
{
    for name in 0..components.limits().ints {
        if let Some(component) = components.int(name) {
            if component.value < component.low || component.high < component.value {
                return false;
            }
        }
    }
    true
}

/// Whether each is 1 to 30.
fn are_priorities(priorities: &[u8]) -> bool
    ensures { IsTrue result ↔ All IsPriority priorities.now }
{
    for priority in priorities {
        if !is_priority(*priority) {
            return false;
        }
    }
    true
}

/// Whether each object keeps the limits.
fn objects_fit(objects: &[ObjectDeclaration]) -> bool
    ensures { IsTrue result ↔ All DeclarationFits objects.now }
{
    for object in objects {
        if !object.fits() {
            return false;
        }
    }
    true
}

/// Whether the operations of each object keep the profile.
fn objects_keep(profile: Profile, objects: &[ObjectDeclaration]) -> bool
    ensures { IsTrue result
        ↔ All (λ declared. KeepsProfile profile (operations_of declared)) objects.now }
{
    for object in objects {
        if !keeps_profile(profile, &object.operations) {
            return false;
        }
    }
    true
}

/// Whether the operations keep the profile.
fn keeps_profile(profile: Profile, operations: &Operations) -> bool
    ensures { IsTrue result ↔ KeepsProfile profile operations.now }
{
    match profile {
        Profile::Ravenscar => operations.entries.len() <= 1 && are_single(&operations.entries),
        Profile::Jorvik => true,
    }
}

/// Whether at each entry one call waits at most.
fn are_single(entries: &[Entry]) -> bool
    ensures { IsTrue result ↔ All (λ entry. entry.longest ≡ 1) entries.now }
{
    for entry in entries {
        if entry.longest != 1 {
            return false;
        }
    }
    true
}

impl Declarations {
    /// Whether they keep the limits.
    fn is_program(&self) -> bool
        ensures { IsTrue result ↔ IsProgram self.now }
    {
        self.priorities.len() <= usize::from(MOST_TASKS)
            && self.objects.len() <= usize::from(MOST_OBJECTS)
            && self.interrupts.len() <= usize::from(MOST_SOURCES)
            && self.timers.len() <= usize::from(MOST_TIMERS)
            && are_priorities(&self.priorities)
            && objects_fit(&self.objects)
            && objects_keep(self.profile, &self.objects)
            && self.interrupts_are_handled()
            && self.timers_are_handled()
    }

    /// Whether the handler's object has the procedure.
    fn has_handler(&self, handler: Handler) -> bool
        ensures { result ≡ is_handler self.now handler }
    {
        self.object_has(handler.object, Operation::Procedure(handler.procedure))
    }

    /// Whether each interrupt has its handler.
    fn interrupts_are_handled(&self) -> bool
        ensures { IsTrue result ↔ All (λ handler. is_handler self.now handler ≡ true)
            self.now.interrupts.items }
    {
        for handler in &self.interrupts {
            if !self.has_handler(*handler) {
                return false;
            }
        }
        true
    }

    /// Whether each timing event has its handler.
    fn timers_are_handled(&self) -> bool
        ensures { IsTrue result ↔ All (λ timer. is_handler self.now timer.handler ≡ true)
            self.now.timers.items }
    {
        for timer in &self.timers {
            if !self.has_handler(timer.handler) {
                return false;
            }
        }
        true
    }

    /// Whether the task is declared, and the object has what it calls.
    pub(crate) fn declares(&self, task: TaskId, object: u8, operation: Operation) -> bool
        ensures { result ≡ is_declared self.now task object operation }
    {
        of_index(&self.priorities, task.get()).is_some() && self.offers(object, operation)
    }

    /// Whether the object has what is called: an operation, or a timing event whose handler is its.
    fn offers(&self, object: u8, operation: Operation) -> bool
        ensures { result ≡ is_offered self.now object operation }
    {
        match operation {
            Operation::SetTimer(number) | Operation::CancelTimer(number) => {
                match of_index(&self.timers, number) {
                    Some(timer) => timer.handler.object == object,
                    None => false,
                }
            }
            _ => self.object_has(object, operation),
        }
    }

    /// Whether the object has the function, the procedure or the entry.
    fn object_has(&self, object: u8, operation: Operation) -> bool
        ensures { result ≡ object_has self.now object operation }
    {
        match of_index(&self.objects, object) {
            Some(declared) => has_operation(&declared.operations, operation),
            None => false,
        }
    }

    /// Whether the task's base priority is not above the object's ceiling (Ada Reference Manual,
    /// section D.3).
    pub(crate) fn is_within_ceiling(&self, task: TaskId, object: u8) -> bool
        ensures { result ≡ is_within_ceiling self.now task object }
    {
        match (
            of_index(&self.priorities, task.get()),
            of_index(&self.objects, object),
        ) {
            (Some(priority), Some(declared)) => *priority <= declared.ceiling,
            _ => false,
        }
    }
}

/// Whether the function, the procedure or the entry is among these operations.
fn has_operation(operations: &Operations, operation: Operation) -> bool
    ensures { result ≡ has_operation operation operations.now }
{
    match operation {
        Operation::Function(index) => of_index(&operations.functions, index).is_some(),
        Operation::Procedure(index) => of_index(&operations.procedures, index).is_some(),
        Operation::Entry(index) => of_index(&operations.entries, index).is_some(),
        Operation::SetTimer(_) | Operation::CancelTimer(_) => false,
    }
}
