//! What a deck declares so far, and what each further line adds to it.

ghost use Rattle.std.specs.Prelude.{◌≡◌, ◌≤◌, ◌<◌, ◌∷◌, ◌++◌, [], All, Some, true, false, length, option_map, IfSome, IfOk, IfErr, OnOk};
ghost use Rattle.rp_words.specs.indexmap.specs.IndexMap.{index_map_len};
ghost use Rattle.rp_words.specs.indexmap.specs.IndexSet.{index_set_len};
ghost use Rattle.rp_words.specs.Ahead.{text_of};
ghost use Rattle.rp_deck_declarations.specs.DraftViews.{draft_text};
ghost use Rattle.rp_deck_declarations.specs.Drafts.{DraftText, is_new, empty_draft, profile_of, last_object, is_in_body, allows, kind_of, profile_named, positions_line, profile_line, task_line, tally_name, tally_names, tally_line, object_line, procedure_of, handler_at, handled_at, interrupt_line, timer_line, declaration_line, script_line};
ghost use Rattle.rp_deck_declarations.specs.Declaring.{object_line_of, declaring_line, ends_declarations, missing};
ghost use Rattle.rp_words.specs.Reading.{Gives, Makes};
ghost use Rattle.rp_words.specs.Tables.{is_declared, place_of, find, key_names, set_names};
ghost use Rattle.rp_object.specs.rp_base.specs.declared.action.Operation.TheVariants.{Procedure};
ghost use Rattle.rp_object.specs.Program.{has_operation};
ghost use Rattle.rp_deck_objects.specs.ObjectViews.{object_text};
ghost use Rattle.rp_words.specs.Words.{unread};
ghost use Rattle.rp_deck_declarations.specs.Declarations.{IsNodeCount, IsNameSet, procedure_counts, IsHandled, IsDraft, IsFinishable};
ghost use Rattle.rp_deck_objects.specs.ObjectLimits.{IsObject};

use crate::deck_program::{DeckProgram, Task};
use crate::declarations::Declared;
use indexmap::{IndexMap, IndexSet};
use rp_base::{DeckReason, MOST_OBJECTS, MOST_SOURCES, MOST_TASKS, Position};
use rp_deck_objects::{Index, ObjectDraft, OperationName, OperationNames};
use rp_object::{Handler, MOST_PRIORITY, MOST_TIMERS, Profile};
use rp_words::{
    LineError, TextLine, Words, insert_in_map, insert_in_set, is_word, named, read_dotted,
    take_name_new_to_map, take_name_new_to_set,
};
use std::alloc::Global;

/// The most interrupts, and the most timing events.
const MOST_HANDLERS: usize = MOST_SOURCES as usize;

const _: () = prove!(MOST_TIMERS == MOST_SOURCES);

/// The most positions that a log has.
pub const MOST_POSITIONS: u64 = 65_535;

/// The first words of declarations that belong to no object.
const KINDS: [(&[u8], Kind); 7] = [
    (b"positions", Kind::Positions),
    (b"profile", Kind::Profile),
    (b"task", Kind::Task),
    (b"tally", Kind::Tally),
    (b"object", Kind::Object),
    (b"interrupt", Kind::Interrupt),
    (b"timer", Kind::Timer),
];

/// What is declared so far, each kind in declared order.
pub struct Draft {
    /// 3 to 7.
    pub nodes: u8,
    /// The most positions, where the deck says so.
    pub positions: Option<Position>,
    /// What the program may declare, where the deck says so.
    pub profile: Option<Profile>,
    /// Whether the objects are those of a tally.
    pub is_tally: bool,
    pub tasks: IndexMap<String, Task>,
    pub objects: IndexSet<String>,
    /// What the objects have, those of a tally aside.
    pub drafts: Vec<ObjectDraft>,
    pub interrupts: IndexMap<String, Handler>,
    pub timers: IndexMap<String, Handler>,
}

// Not derived, so that to drop it is one step of a proof and not one for each of its parts.
impl Drop for Draft {
    fn drop(self) {
        let Draft {
            nodes: _,
            positions: _,
            profile: _,
            is_tally: _,
            tasks: _,
            objects: _,
            drafts: _,
            interrupts: _,
            timers: _,
        } = self;
    }
}

/// A declaration of the deck's own, which belongs to no object.
#[derive(Clone, Copy)]
pub enum Kind {
    Positions,
    Profile,
    Task,
    Tally,
    Object,
    Interrupt,
    Timer,
}

impl Draft {
    /// Nothing but the nodes.
    pub fn new(alloc: Global, nodes: u8) -> Self
        requires { IsNodeCount nodes }
        ensures draft { IsDraft result }
        ensures empty { draft_text result ≡ empty_draft nodes }
    {
        Draft {
            nodes,
            positions: None,
            profile: None,
            is_tally: false,
            tasks: IndexMap::new(alloc),
            objects: IndexSet::new(alloc),
            drafts: Vec::new(alloc),
            interrupts: IndexMap::new(alloc),
            timers: IndexMap::new(alloc),
        }
    }

    /// Whether no profile, task or object is declared.
    fn is_new(&self) -> bool
        ensures { result ≡ is_new (draft_text self.now) }
    {
        self.profile.is_none() && self.tasks.is_empty() && self.objects.is_empty()
    }

    /// The profile of the program: Ravenscar where the deck says nothing of it.
    pub fn profile(&self) -> Profile
        ensures { result ≡ profile_of (draft_text self.now) }
    {
        self.profile.unwrap_or(Profile::Ravenscar)
    }

    /// Whether the next line belongs to a body.
    pub fn is_in_body(&self) -> bool
        ensures { result ≡ is_in_body (draft_text self.now) }
    {
        match self.drafts.last() {
            Some(object) => object.is_in_body(),
            None => false,
        }
    }

    /// Whether the line ends the declarations.
    pub fn is_ended_by(&self, line: &TextLine<'_>) -> bool
        ensures { result ≡ ends_declarations (draft_text self.now) (text_of line.now) }
    {
        !self.is_in_body() && is_word(line.first, b"script")
    }

    /// What is missing where no line is left.
    pub fn missing(&self) -> DeckReason
        ensures { result ≡ missing (draft_text self.now) }
    {
        if self.is_in_body() {
            DeckReason::EndExpected
        } else {
            DeckReason::ScriptExpected
        }
    }

    /// Reads a line before `script`.
    #[tactic(auto, unfolding(crate::specs::Declaring::declaring_line))]
    pub fn read_line(&mut self, alloc: Global, line: TextLine<'_>) -> Result<(), LineError>
        requires { IsDraft self.old }
        ensures read { Makes (λ _. draft_text self.new) result
            (declaring_line (draft_text self.old) (text_of line.entry)) }
        ensures draft { OnOk result (IsDraft self.new × (self.new.nodes ≡ self.old.nodes)) }
    {
        match self.kind_of(line.first) {
            Some(kind) => self.read_declaration(alloc, kind, line.words),
            None => self.read_object_line(alloc, line),
        }
    }

    /// Whether a declaration of this kind is allowed here.
    fn allows(&self, kind: Kind) -> bool
        ensures { result ≡ allows (draft_text self.now) kind }
    {
        match kind {
            Kind::Positions => self.positions.is_none() && self.is_new(),
            Kind::Profile => self.is_new(),
            Kind::Task => true,
            Kind::Tally => !self.is_tally && self.objects.is_empty(),
            Kind::Object | Kind::Interrupt | Kind::Timer => !self.is_tally,
        }
    }

    /// The declaration that begins with this word, where it is one of the deck's own that is
    /// allowed here.
    fn kind_of(&self, first: &[u8]) -> Option<Kind>
        ensures kind { result ≡ kind_of (draft_text self.now) first.now }
        ensures allowed { IfSome result (λ kind. allows (draft_text self.now) kind ≡ true) }
    {
        if self.is_in_body() {
            return None;
        }
        let kind = named(&KINDS, first)?;
        if self.allows(kind) { Some(kind) } else { None }
    }

    /// Reads a declaration of this kind, after its first word.
    #[tactic(auto, using(rp_words::proofs::TablesLemmas::map_last), unfolding(crate::specs::Drafts::interrupt_line, crate::specs::Drafts::timer_line))]
    fn read_declaration(
        &mut self,
        alloc: Global,
        kind: Kind,
        words: Words<'_>,
    ) -> Result<(), LineError>
        requires { IsDraft self.old × (allows (draft_text self.old) kind ≡ true) }
        ensures read { Makes (λ _. draft_text self.new) result
            (declaration_line (draft_text self.old) kind (unread words.entry)) }
        ensures draft { OnOk result (IsDraft self.new × (self.new.nodes ≡ self.old.nodes)) }
    {
        match kind {
            Kind::Positions => self.read_positions(words),
            Kind::Profile => self.read_profile(words),
            Kind::Task => self.read_task(alloc, words),
            Kind::Tally => self.read_tally(alloc, words),
            Kind::Object => self.read_object(alloc, words),
            // The rest of `interrupt NAME OBJECT.PROCEDURE`.
            Kind::Interrupt => {
                let (name, handler) = self.take_handled(words, &self.interrupts)?;
                insert_in_map(alloc, &mut self.interrupts, name, handler)?;
                Ok(())
            }
            // The rest of `timer NAME OBJECT.PROCEDURE`.
            Kind::Timer => {
                let (name, handler) = self.take_handled(words, &self.timers)?;
                insert_in_map(alloc, &mut self.timers, name, handler)?;
                Ok(())
            }
        }
    }

    /// Reads the rest of `positions P`.
    #[tactic(auto, using(rp_words::proofs::TablesLemmas::map_last), unfolding(crate::specs::Drafts::positions_line))]
    fn read_positions(&mut self, mut words: Words<'_>) -> Result<(), LineError>
        requires { IsDraft self.old }
        ensures read { Makes (λ _. draft_text self.new) result
            (positions_line (draft_text self.old) (unread words.entry)) }
        ensures draft { OnOk result (IsDraft self.new × (self.new.nodes ≡ self.old.nodes)) }
    {
        let positions = words.take_number(1, MOST_POSITIONS)?;
        words.end()?;
        self.positions = Position::new(positions as u16);
        Ok(())
    }

    /// Reads the rest of `profile PROFILE`.
    fn read_profile(&mut self, words: Words<'_>) -> Result<(), LineError>
        requires { IsDraft self.old × (is_new (draft_text self.old) ≡ true) }
        ensures read { Makes (λ _. draft_text self.new) result
            (profile_line (draft_text self.old) (unread words.entry)) }
        ensures draft { OnOk result (IsDraft self.new × (self.new.nodes ≡ self.old.nodes)) }
    {
        self.profile = Some(take_profile(words)?);
        Ok(())
    }

    /// Reads the rest of `task NAME PRIORITY`.
    #[tactic(auto, using(rp_words::proofs::TablesLemmas::map_last))]
    fn read_task(&mut self, alloc: Global, words: Words<'_>) -> Result<(), LineError>
        requires { IsDraft self.old }
        ensures read { Makes (λ _. draft_text self.new) result
            (task_line (draft_text self.old) (unread words.entry)) }
        ensures draft { OnOk result (IsDraft self.new × (self.new.nodes ≡ self.old.nodes)) }
    {
        let (name, task) = self.take_task(words)?;
        insert_in_map(alloc, &mut self.tasks, name, task)
    }

    /// The rest of the line, a name that no task has and a priority.
    #[tactic(auto, unfolding(crate::specs::Drafts::task_line))]
    fn take_task<'w>(&self, mut words: Words<'w>) -> Result<(&'w str, Task), DeckReason>
        ensures few { OnOk result (index_map_len self.now.tasks < 8) }
        ensures new { IfOk result (λ new.
            is_declared new.0.now (key_names self.now.tasks) ≡ false) }
        ensures read { Gives (λ new. record (draft_text self.now) {
          tasks = (draft_text self.now).tasks ++ new.0.now ∷ [];
          priorities = (draft_text self.now).priorities ++ new.1.priority ∷ [];
        }) result (task_line (draft_text self.now) (unread words.entry)) }
    {
        if self.tasks.len() >= usize::from(MOST_TASKS) {
            return Err(DeckReason::TooMany);
        }
        let name = take_name_new_to_map(&mut words, &self.tasks)?;
        let priority = words.take_number(1, u64::from(MOST_PRIORITY))? as u8;
        words.end()?;
        Ok((name, Task { priority }))
    }

    /// Reads the rest of `tally COUNT`.
    #[tactic(auto, unfolding(crate::specs::Drafts::tally_line))]
    fn read_tally(&mut self, alloc: Global, mut words: Words<'_>) -> Result<(), LineError>
        requires { IsDraft self.old × (index_set_len self.old.objects ≡ 0) }
        ensures read { Makes (λ _. draft_text self.new) result
            (tally_line (draft_text self.old) (unread words.entry)) }
        ensures draft { OnOk result (IsDraft self.new × (self.new.nodes ≡ self.old.nodes)) }
    {
        let count = words.take_number(1, u64::from(MOST_OBJECTS))?;
        words.end()?;
        self.objects = tally_objects(alloc, count as u8)?;
        self.is_tally = true;
        Ok(())
    }

    /// The place of the object of this name.
    fn place_of(&self, name: &str) -> Option<usize>
        ensures place { result ≡ place_of name.now (set_names self.now.objects) }
        ensures within { IfSome result (λ place. place < index_set_len self.now.objects) }
    {
        self.objects.get_index_of(name)
    }

    /// Reads the rest of `object NAME CEILING`.
    fn read_object(&mut self, alloc: Global, mut words: Words<'_>) -> Result<(), LineError>
        requires { IsDraft self.old × (self.old.is_tally ≡ false) }
        ensures read { Makes (λ _. draft_text self.new) result
            (object_line (draft_text self.old) (unread words.entry)) }
        ensures draft { OnOk result (IsDraft self.new × (self.new.nodes ≡ self.old.nodes)) }
    {
        if self.objects.len() >= usize::from(MOST_OBJECTS) {
            return Err(LineError::Bad(DeckReason::TooMany));
        }
        let name = take_name_new_to_set(&mut words, &self.objects)?;
        let ceiling = words.take_number(1, u64::from(MOST_PRIORITY))? as u8;
        words.end()?;
        insert_in_set(alloc, &mut self.objects, name)?;
        let name = String::from_str(alloc, name)?;
        self.drafts.push(ObjectDraft::new(alloc, name, ceiling))?;
        Ok(())
    }

    /// Reads a line that belongs to the last object.
    #[tactic(auto, using(crate::proofs::DeclaringLemmas::object_lines))]
    fn read_object_line(&mut self, alloc: Global, line: TextLine<'_>) -> Result<(), LineError>
        requires { IsDraft self.old }
        ensures read { Makes (λ _. draft_text self.new) result
            (object_line_of (last_object (draft_text self.old)) (draft_text self.old)
            (text_of line.entry)) }
        ensures draft { OnOk result (IsDraft self.new × (self.new.nodes ≡ self.old.nodes)) }
    {
        let profile = self.profile();
        let Some(last) = self.drafts.len().checked_sub(1) else {
            return Err(LineError::Bad(DeckReason::UnknownWord));
        };
        let object = &mut self.drafts[last];
        object.read_line(alloc, profile, line)?;
        Ok(())
    }

    /// The rest of the line, a name that the table does not have and a procedure of an object.
    #[tactic(auto, unfolding(crate::specs::Drafts::handled_at))]
    fn take_handled<'w>(
        &self,
        mut words: Words<'w>,
        table: &IndexMap<String, Handler>,
    ) -> Result<(&'w str, Handler), DeckReason>
        requires { IsNameSet self.now.objects }
        ensures few { OnOk result (index_map_len table.now < 8) }
        ensures new { IfOk result (λ new. is_declared new.0.now (key_names table.now) ≡ false) }
        ensures handled { (profile : Profile) → All (IsObject profile) self.now.drafts.items
            → IfOk result (λ new. IsHandled (procedure_counts self.now.drafts.items) new.1) }
        ensures read { Gives (λ new. (new.0.now, new.1)) result
            (handled_at (draft_text self.now) (key_names table.now) (unread words.entry)) }
    {
        if table.len() >= MOST_HANDLERS {
            return Err(DeckReason::TooMany);
        }
        let name = take_name_new_to_map(&mut words, table)?;
        let handler = self.take_handler(&mut words)?;
        words.end()?;
        Ok((name, handler))
    }

    /// The next word, a procedure of an object.
    #[tactic(auto, unfolding(crate::specs::Drafts::handler_at))]
    fn take_handler(&self, words: &mut Words<'_>) -> Result<Handler, DeckReason>
        requires { IsNameSet self.now.objects }
        ensures handled { (profile : Profile) → All (IsObject profile) self.now.drafts.items
            → IfOk result (λ handler. IsHandled (procedure_counts self.now.drafts.items) handler) }
        ensures read { Gives (λ handler. (handler, unread words.new)) result
            (handler_at (draft_text self.now) (unread words.old)) }
    {
        let (object, procedure) = read_dotted(words.take()?)?;
        let place = self.place_of(object).ok_or(DeckReason::UnknownName)?;
        let Some(draft) = self.drafts.get(place) else {
            return Err(DeckReason::UnknownName);
        };
        let Some(index) = procedure_named(draft, procedure) else {
            return Err(DeckReason::UnknownName);
        };
        Ok(Handler {
            object: place as u8 + 1,
            procedure: index.number,
        })
    }

    /// Ends the declarations, at `script`.
    #[tactic(auto, unfolding(crate::specs::Drafts::script_line))]
    pub fn complete(&self, words: &mut Words<'_>) -> Result<(), DeckReason>
        requires { IsDraft self.now }
        ensures read { Gives (λ _. tt) result
            (script_line (draft_text self.now) (unread words.old)) }
        ensures finishable { OnOk result (IsFinishable self.now) }
    {
        if self.tasks.is_empty() {
            return Err(DeckReason::TaskExpected);
        }
        if self.objects.is_empty() {
            return Err(DeckReason::ObjectExpected);
        }
        words.end()
    }

    /// All that is declared, with the program and the operations of its objects.
    pub fn into_declared(self, program: DeckProgram, operations: Vec<OperationNames>) -> Declared
        ensures { result ≡ record {
          nodes = self.nodes;
          positions = self.positions;
          program = program;
          tasks = self.tasks;
          objects = self.objects;
          operations = operations;
          interrupts = self.interrupts;
          timers = self.timers;
        } }
    {
        let Draft {
            nodes,
            positions,
            profile: _,
            is_tally: _,
            tasks,
            objects,
            drafts: _,
            interrupts,
            timers,
        } = self;
        Declared {
            nodes,
            positions,
            program,
            tasks,
            objects,
            operations,
            interrupts,
            timers,
        }
    }
}

/// The number of the object's procedure of this name.
fn procedure_named(object: &ObjectDraft, name: &str) -> Option<Index>
    ensures number { option_map (λ index. index.number) result
        ≡ procedure_of (find name.now (object_text object.now).operation_names
        (object_text object.now).operations) }
    ensures handled { IfSome result (λ index. (profile : Profile) → IsObject profile object.now
        → has_operation (Procedure index.number) object.now.operations ≡ true) }
{
    match object.operation(name)? {
        OperationName::Procedure(index) => Some(index),
        _ => None,
    }
}

/// The rest of the line, a profile.
#[tactic(auto, unfolding(crate::specs::Drafts::profile_line))]
fn take_profile(mut words: Words<'_>) -> Result<Profile, DeckReason>
    ensures read { (d : DraftText) → Gives (λ profile. record d { profile = Some profile }) result
        (profile_line d (unread words.entry)) }
{
    let profile = profile_named(words.take()?).ok_or(DeckReason::UnknownWord)?;
    words.end()?;
    Ok(profile)
}

/// The profile that the word names.
fn profile_named(word: &[u8]) -> Option<Profile>
    ensures { result ≡ profile_named word.now }
{
    if is_word(word, b"ravenscar") {
        Some(Profile::Ravenscar)
    } else if is_word(word, b"jorvik") {
        Some(Profile::Jorvik)
    } else {
        None
    }
}

/// The name of a tally's object, by its number.
fn tally_name(number: u8) -> &'static str
    requires { (1 ≤ number) × (number ≤ 8) }
    ensures { result.now ≡ tally_name number }
{
    match number {
        1 => "o1",
        2 => "o2",
        3 => "o3",
        4 => "o4",
        5 => "o5",
        6 => "o6",
        7 => "o7",
        _ => "o8",
    }
}

/// The names of a tally's objects: o1, o2 and so on.
fn tally_objects(alloc: Global, count: u8) -> Result<IndexSet<String>, LineError>
    requires { count ≤ 8 }
    ensures names { IfOk result (λ objects. set_names objects ≡ tally_names count) }
    ensures objects { IfOk result (λ objects. IsNameSet objects
        × (index_set_len objects ≤ count)) }
    ensures memory { IfErr result (λ error. error ≡ LineError.OutOfMemory) }
{
    let mut objects = IndexSet::new(alloc);
    for number in 0..count {
        insert_in_set(alloc, &mut objects, tally_name(number + 1))?;
    }
    Ok(objects)
}
