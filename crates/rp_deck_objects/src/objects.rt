//! Reads the lines that belong to an object.

ghost use Rattle.std.specs.Prelude.{◌≡◌, ◌≤◌, ◌<◌, ◌+◌, ◌∷◌, ◌++◌, [], Some, true, false, length, map, string_bytes, IfSome, IfOk, IfErr, OnOk};
ghost use Rattle.std.specs.FinMap.{len};
ghost use Rattle.rp_object.specs.Program.{has_operation, operations_of, DeclarationFits, KeepsProfile};
ghost use Rattle.rp_words.specs.Ahead.{text_of};
ghost use Rattle.rp_deck_bodies.specs.indexmap.specs.IndexMap.{values};
ghost use Rattle.rp_object.specs.rp_body.specs.Store.{is_within};
ghost use Rattle.rp_object.specs.rp_entry.specs.Operations.{FunctionFits};
ghost use Rattle.rp_deck_bodies.specs.Counted.{WhereCounted};
ghost use Rattle.rp_deck_objects.specs.ObjectLimits.{AreNamed};
ghost use Rattle.rp_deck_objects.specs.Objects.{ranged_at, function_named, most_entries, longest_at, queue_at};
ghost use Rattle.rp_words.specs.Reading.{Gives, Makes};
ghost use Rattle.rp_words.specs.Words.{unread};

use crate::names::{EntryIndex, Index, OperationName, OperationNames};
use indexmap::IndexMap;
use rp_base::{DeckReason, MOST_ENTRIES, MOST_OPERATIONS};
use rp_body::{Components, MOST_OF_A_KIND, Ranged};
use rp_deck_bodies::{
    BodyDraft, Component, ComponentNames, bool_named, is_of_expressions, read_cond, read_expr,
};
use rp_entry::{Entry, Function, LONGEST_QUEUE, Operations};
use rp_object::{ObjectDeclaration, Profile};
use rp_words::{
    LineError, TextLine, Words, insert_in_map, insert_string_in_map, is_word, map_has_name, named,
    take_name_new_to_map, truth_named,
};
use std::alloc::{AllocError, Global};
use std::mem;
use std::sync::Arc;

/// The first words of the lines that belong to an object.
const PARTS: [(&[u8], Part); 5] = [
    (b"int", Part::Int),
    (b"bool", Part::Bool),
    (b"function", Part::Function),
    (b"procedure", Part::Procedure),
    (b"entry", Part::Entry),
];

/// What a line declares that belongs to an object.
#[derive(Clone, Copy)]
pub enum Part {
    Int,
    Bool,
    Function,
    Procedure,
    Entry,
}

/// The words that say what a function answers.
const FUNCTION_KINDS: [(&[u8], FunctionKind); 2] = [
    (b"value", FunctionKind::Value),
    (b"truth", FunctionKind::Truth),
];

/// What a function answers.
#[derive(Clone, Copy)]
enum FunctionKind {
    Value,
    Truth,
}

impl FunctionKind {
    /// The one that the word names.
    fn named(word: &[u8]) -> Option<FunctionKind>
        ensures { result ≡ function_named word.now }
    {
        named(&FUNCTION_KINDS, word)
    }
}

/// What an operation with a body is.
#[derive(Clone, Copy)]
pub enum Head {
    Procedure,
    /// Its barrier is the Boolean component at this place, and at most n calls wait.
    Entry { barrier: u8, longest: u8 },
}

/// An operation whose body has not ended.
#[derive(Drop)]
struct OperationDraft {
    name: String,
    head: Head,
    body: BodyDraft,
}

/// An object that is being declared.
pub struct ObjectDraft {
    name: String,
    ceiling: u8,
    components: Components,
    component_names: ComponentNames,
    int_names: Vec<String>,
    bool_names: Vec<String>,
    operations: Operations,
    operation_names: OperationNames,
    entry_names: Vec<String>,
    open_operation: Option<OperationDraft>,
}

// Not derived, so that to drop it is one step of a proof and not one for each of its parts.
impl Drop for ObjectDraft {
    fn drop(self) {
        let ObjectDraft {
            name: _,
            ceiling: _,
            components: _,
            component_names: _,
            int_names: _,
            bool_names: _,
            operations: _,
            operation_names: _,
            entry_names: _,
            open_operation: _,
        } = self;
    }
}

impl ObjectDraft {
    ghost use Rattle.std.specs.Prelude.{option_map, is_some};
    ghost use Rattle.rp_deck_objects.specs.ObjectViews.{function_text, operation_text, object_text, operation_of, protected_text, protected_of, object_operations, own_operations};
    ghost use Rattle.rp_deck_objects.specs.Objects.{empty_object, component_name_at, with_int, int_line, with_bool, bool_line, function_of, with_function, function_line, procedure_line, entry_line, begun_line, completed_as, operation_line, part_line, object_step};
    ghost use Rattle.rp_deck_objects.specs.ObjectLimits.{MayBegin, IsOpenIn, IsObject, MayDeclare, KeepsProcedures, KeepsObject};
    ghost use Rattle.rp_deck_bodies.specs.BodyViews.{body_draft_text};
    ghost use Rattle.rp_words.specs.Tables.{find, is_declared, key_names};

    /// An object that has nothing yet.
    pub fn new(alloc: Global, name: String, ceiling: u8) -> Self
        requires { (1 ≤ ceiling) × (ceiling ≤ 30) }
        ensures text { object_text result ≡ empty_object (string_bytes name) ceiling }
        ensures object { (profile : Profile) → IsObject profile result }
    {
        ObjectDraft {
            name,
            ceiling,
            components: Components::new(),
            component_names: IndexMap::new(alloc),
            int_names: Vec::new(alloc),
            bool_names: Vec::new(alloc),
            operations: no_operations(alloc),
            operation_names: IndexMap::new(alloc),
            entry_names: Vec::new(alloc),
            open_operation: None,
        }
    }

    /// The operation of this name.
    pub fn operation(&self, name: &str) -> Option<OperationName>
        ensures has { IfSome result (λ name. AreNamed self.now.operations self.now.operation_names
            → has_operation (operation_of name) self.now.operations ≡ true) }
        ensures named { option_map operation_of result
            ≡ find name.now (object_text self.now).operation_names
            (object_text self.now).operations }
    {
        self.operation_names.get(name).copied()
    }

    /// Whether the next line belongs to a body.
    pub fn is_in_body(&self) -> bool
        ensures { result ≡ is_some (object_text self.now).open_operation }
    {
        self.open_operation.is_some()
    }

    /// What the program has of it, and the names of its operations.
    pub fn finish(
        mut self,
        alloc: Global,
    ) -> Result<(ObjectDeclaration, OperationNames), AllocError>
        ghost profile: { Profile }
        requires { IsObject profile self }
        ensures named { IfOk result (λ made. AreNamed (operations_of made.0) made.1) }
        ensures fits { IfOk result (λ made. DeclarationFits made.0) }
        ensures keeps { IfOk result (λ made. KeepsProfile profile (operations_of made.0)) }
        ensures object { IfOk result (λ made.
            protected_text made.0 ≡ protected_of (object_text self)) }
        ensures operations { IfOk result (λ made.
            own_operations made.1 ≡ object_operations (object_text self)) }
    {
        let taken = mem::replace(&mut self.operations, no_operations(alloc));
        let operations = Arc::new(alloc, taken)?;
        let ObjectDraft {
            name,
            ceiling,
            components,
            component_names: _,
            int_names: ints,
            bool_names: bools,
            operations: _,
            operation_names,
            entry_names: entries,
            open_operation: _,
        } = self;
        let declaration = ObjectDeclaration {
            name,
            ceiling,
            ints,
            bools,
            components,
            entries,
            operations,
        };
        Ok((declaration, operation_names))
    }

    /// Reads a line of the object, or of its body.
    pub fn read_line(
        &mut self,
        alloc: Global,
        profile: Profile,
        line: TextLine<'_>,
    ) -> Result<(), LineError>
        requires { IsObject profile self.old }
        ensures read { Makes (λ _. object_text self.new) result
            (object_step profile (object_text self.old) (text_of line.entry)) }
        ensures object { OnOk result (IsObject profile self.new) }
        ensures grows { OnOk result (KeepsProcedures self.old self.new) }
    {
        match self.open_operation.take() {
            Some(operation) => self.read_body_line(alloc, profile, operation, line),
            None => {
                let part = named(&PARTS, line.first);
                self.read_part(alloc, profile, part, line.words)
            }
        }
    }

    /// Reads a line of the body of an operation.
    #[tactic(auto, unfolding(crate::specs::Objects::operation_line))]
    fn read_body_line(
        &mut self,
        alloc: Global,
        profile: Profile,
        mut operation: OperationDraft,
        line: TextLine<'_>,
    ) -> Result<(), LineError>
        requires object { MayDeclare profile self.old }
        requires operation { IsOpenIn profile self.old operation }
        ensures read { Makes (λ _. object_text self.new) result
            (operation_line (object_text self.old) (operation_text operation)
            (text_of line.entry)) }
        ensures object { OnOk result (IsObject profile self.new) }
        ensures grows { OnOk result (KeepsProcedures self.old self.new) }
    {
        if operation
            .body
            .read_line(alloc, line, &self.component_names)?
        {
            return self.complete(alloc, profile, operation);
        }
        self.open_operation = Some(operation);
        Ok(())
    }

    /// Reads the rest of a line that is not of a body, after its first word.
    fn read_part(
        &mut self,
        alloc: Global,
        profile: Profile,
        part: Option<Part>,
        words: Words<'_>,
    ) -> Result<(), LineError>
        requires { MayDeclare profile self.old }
        ensures read { Makes (λ _. object_text self.new) result
            (part_line profile (object_text self.old) part (unread words.entry)) }
        ensures object { OnOk result (IsObject profile self.new) }
        ensures grows { OnOk result (KeepsProcedures self.old self.new) }
    {
        match part {
            Some(Part::Int) => self.read_int(alloc, words),
            Some(Part::Bool) => self.read_bool(alloc, words),
            Some(Part::Function) => self.read_function(alloc, words),
            Some(Part::Procedure) => self.read_procedure(alloc, words),
            Some(Part::Entry) => self.read_entry(alloc, profile, words),
            None => Err(LineError::Bad(DeckReason::UnknownWord)),
        }
    }

    /// The next word, a name for a component.
    #[tactic(auto, unfolding(crate::specs::Objects::component_name_at))]
    fn take_component_name<'w>(&self, words: &mut Words<'w>) -> Result<&'w str, DeckReason>
        ensures read { Gives (λ name. (name.now, unread words.new)) result
            (component_name_at (object_text self.now).component_names (unread words.old)) }
        ensures new { IfOk result (λ name.
            is_declared name.now (key_names self.now.component_names) ≡ false) }
    {
        let name = words.take_name()?;
        if is_of_expressions(name) {
            return Err(DeckReason::BadName);
        }
        if map_has_name(&self.component_names, name) {
            return Err(DeckReason::DuplicateName);
        }
        Ok(name)
    }

    /// Reads the rest of `int NAME LOW HIGH INIT`.
    #[tactic(auto, unfolding(crate::specs::Objects::int_line))]
    fn read_int(&mut self, alloc: Global, mut words: Words<'_>) -> Result<(), LineError>
        ensures read { Makes (λ _. object_text self.new) result
            (int_line (object_text self.old) (unread words.entry)) }
        ensures object { KeepsObject self.old self.new result }
    {
        if usize::from(self.components.limits().ints) >= MOST_OF_A_KIND {
            return Err(LineError::Bad(DeckReason::TooMany));
        }
        let name = self.take_component_name(&mut words)?;
        let component = take_ranged(&mut words)?;
        words.end()?;
        self.add_int(alloc, name, component)
    }

    /// Reads the rest of `bool NAME INIT`.
    #[tactic(auto, unfolding(crate::specs::Objects::bool_line))]
    fn read_bool(&mut self, alloc: Global, mut words: Words<'_>) -> Result<(), LineError>
        ensures read { Makes (λ _. object_text self.new) result
            (bool_line (object_text self.old) (unread words.entry)) }
        ensures object { KeepsObject self.old self.new result }
    {
        if usize::from(self.components.limits().bools) >= MOST_OF_A_KIND {
            return Err(LineError::Bad(DeckReason::TooMany));
        }
        let name = self.take_component_name(&mut words)?;
        let value = truth_named(words.take()?).ok_or(DeckReason::UnknownWord)?;
        words.end()?;
        self.add_bool(alloc, name, value)
    }

    /// Adds a whole number.
    #[tactic(auto, using(rp_words::proofs::TablesLemmas::map_last))]
    fn add_int(&mut self, alloc: Global, name: &str, component: Ranged) -> Result<(), LineError>
        requires new { is_declared name.now (key_names self.old.component_names) ≡ false }
        requires room { len self.old.components.ints < 8 }
        requires in_range { is_within component.low component.high component.value ≡ true }
        ensures text { OnOk result
            (object_text self.new ≡ with_int (object_text self.old) name.now component) }
        ensures memory { IfErr result (λ error. error ≡ LineError.OutOfMemory) }
        ensures object { KeepsObject self.old self.new result }
    {
        let named = Component::Int(self.components.limits().ints);
        insert_in_map(alloc, &mut self.component_names, name, named)?;
        push_name(alloc, &mut self.int_names, name)?;
        self.components.add_int(component);
        Ok(())
    }

    /// Adds a Boolean.
    #[tactic(auto, using(rp_words::proofs::TablesLemmas::map_last))]
    fn add_bool(&mut self, alloc: Global, name: &str, value: bool) -> Result<(), LineError>
        requires new { is_declared name.now (key_names self.old.component_names) ≡ false }
        requires room { len self.old.components.bools < 8 }
        ensures text { OnOk result
            (object_text self.new ≡ with_bool (object_text self.old) name.now value) }
        ensures memory { IfErr result (λ error. error ≡ LineError.OutOfMemory) }
        ensures object { KeepsObject self.old self.new result }
    {
        let named = Component::Bool(self.components.limits().bools);
        insert_in_map(alloc, &mut self.component_names, name, named)?;
        push_name(alloc, &mut self.bool_names, name)?;
        self.components.add_bool(value);
        Ok(())
    }

    /// Reads the rest of `function NAME value EXPR` or `function NAME truth COND`.
    fn read_function(&mut self, alloc: Global, mut words: Words<'_>) -> Result<(), LineError>
        ensures read { Makes (λ _. object_text self.new) result
            (function_line (object_text self.old) (unread words.entry)) }
        ensures object { KeepsObject self.old self.new result }
    {
        if self.operations.functions.len() >= usize::from(MOST_OPERATIONS) {
            return Err(LineError::Bad(DeckReason::TooMany));
        }
        let name = take_name_new_to_map(&mut words, &self.operation_names)?;
        let kind = FunctionKind::named(words.take()?);
        let function = self.take_function(alloc, kind, words)?;
        self.add_function(alloc, name, function)
    }

    /// Adds a function.
    #[tactic(auto, using(rp_words::proofs::TablesLemmas::map_last))]
    fn add_function(
        &mut self,
        alloc: Global,
        name: &str,
        function: Function,
    ) -> Result<(), LineError>
        requires new { is_declared name.now (key_names self.old.operation_names) ≡ false }
        requires room { length self.old.operations.functions.items < 8 }
        requires fits { WhereCounted (values self.old.component_names)
            (λ limits. FunctionFits limits function) }
        ensures text { OnOk result (object_text self.new
            ≡ with_function (object_text self.old) name.now (function_text function)) }
        ensures memory { IfErr result (λ error. error ≡ LineError.OutOfMemory) }
        ensures object { KeepsObject self.old self.new result }
    {
        let index = Index::after(self.operations.functions.len()).unwrap();
        push_item(&mut self.operations.functions, function)?;
        let named = OperationName::Function(index);
        insert_in_map(alloc, &mut self.operation_names, name, named)
    }

    /// The rest of the line, the expression or the condition of a function.
    fn take_function(
        &self,
        alloc: Global,
        kind: Option<FunctionKind>,
        words: Words<'_>,
    ) -> Result<Function, LineError>
        ensures read { Makes function_text result
            (function_of (object_text self.now) kind (unread words.entry)) }
        ensures fits { IfOk result (λ function. WhereCounted (values self.now.component_names)
            (λ limits. FunctionFits limits function)) }
    {
        match kind {
            Some(FunctionKind::Value) => {
                let value = read_expr(alloc, words, &self.component_names)?;
                Ok(Function::Value(value))
            }
            Some(FunctionKind::Truth) => {
                let truth = read_cond(alloc, words, &self.component_names)?;
                Ok(Function::Truth(truth))
            }
            None => Err(LineError::Bad(DeckReason::UnknownWord)),
        }
    }

    /// Reads the rest of `procedure NAME`.
    #[tactic(auto, unfolding(crate::specs::Objects::procedure_line))]
    fn read_procedure(&mut self, alloc: Global, mut words: Words<'_>) -> Result<(), LineError>
        ensures read { Makes (λ _. object_text self.new) result
            (procedure_line (object_text self.old) (unread words.entry)) }
        ensures object { KeepsObject self.old self.new result }
    {
        if self.operations.procedures.len() >= usize::from(MOST_OPERATIONS) {
            return Err(LineError::Bad(DeckReason::TooMany));
        }
        let name = take_name_new_to_map(&mut words, &self.operation_names)?;
        self.begin(alloc, words, name, Head::Procedure)
    }

    /// Reads the rest of `entry NAME when BOOL`, or of `entry NAME when BOOL queue LONGEST`.
    fn read_entry(
        &mut self,
        alloc: Global,
        profile: Profile,
        mut words: Words<'_>,
    ) -> Result<(), LineError>
        requires { MayDeclare profile self.old }
        ensures read { Makes (λ _. object_text self.new) result
            (entry_line profile (object_text self.old) (unread words.entry)) }
        ensures object { OnOk result (IsObject profile self.new) }
        ensures grows { OnOk result (KeepsProcedures self.old self.new) }
    {
        if self.operations.entries.len() >= most_entries(profile) {
            return Err(LineError::Bad(DeckReason::TooMany));
        }
        let name = take_name_new_to_map(&mut words, &self.operation_names)?;
        if !is_word(words.take()?, b"when") {
            return Err(LineError::Bad(DeckReason::UnknownWord));
        }
        let barrier = bool_named(words.take()?, &self.component_names)?;
        let longest = take_longest(profile, &mut words)?;
        self.begin(alloc, words, name, Head::Entry { barrier, longest })
    }

    /// Ends the line that declares an operation with a body, which begins.
    #[tactic(auto, unfolding(crate::specs::Objects::begun_line))]
    fn begin(
        &mut self,
        alloc: Global,
        words: Words<'_>,
        name: &str,
        head: Head,
    ) -> Result<(), LineError>
        ensures read { Makes (λ _. object_text self.new) result
            (begun_line (object_text self.old) name.now head (unread words.entry)) }
        ensures object { (profile : Profile) → MayDeclare profile self.old
            → MayBegin profile self.old name.now head → OnOk result (IsObject profile self.new) }
        ensures grows { OnOk result (KeepsProcedures self.old self.new) }
    {
        words.end()?;
        let name = String::from_str(alloc, name)?;
        let body = BodyDraft::new(alloc);
        self.open_operation = Some(OperationDraft { name, head, body });
        Ok(())
    }

    /// Adds an operation whose body has ended.
    fn complete(
        &mut self,
        alloc: Global,
        profile: Profile,
        operation: OperationDraft,
    ) -> Result<(), LineError>
        requires object { MayDeclare profile self.old }
        requires operation { IsOpenIn profile self.old operation }
        ensures read { OnOk result (object_text self.new ≡ completed_as operation.head
            (string_bytes operation.name) (body_draft_text operation.body).statements
            (object_text self.old)) }
        ensures memory { IfErr result (λ error. error ≡ LineError.OutOfMemory) }
        ensures object { OnOk result (IsObject profile self.new) }
        ensures grows { OnOk result (KeepsProcedures self.old self.new) }
    {
        match operation.head {
            Head::Procedure => self.complete_procedure(profile, operation),
            Head::Entry { barrier, longest } => {
                self.complete_entry(alloc, profile, operation, (barrier, longest))
            }
        }
    }

    /// Adds a procedure whose body has ended.
    fn complete_procedure(
        &mut self,
        profile: Profile,
        operation: OperationDraft,
    ) -> Result<(), LineError>
        requires object { MayDeclare profile self.old }
        requires operation { IsOpenIn profile self.old operation }
        requires head { operation.head ≡ Head.Procedure }
        ensures read { OnOk result (object_text self.new ≡ completed_as operation.head
            (string_bytes operation.name) (body_draft_text operation.body).statements
            (object_text self.old)) }
        ensures memory { IfErr result (λ error. error ≡ LineError.OutOfMemory) }
        ensures object { OnOk result (IsObject profile self.new) }
        ensures grows { OnOk result (KeepsProcedures self.old self.new) }
    {
        let index = Index::after(self.operations.procedures.len()).unwrap();
        let body = operation.body.into_statements();
        push_item(&mut self.operations.procedures, body)?;
        let named = OperationName::Procedure(index);
        insert_string_in_map(&mut self.operation_names, operation.name, named)
    }

    /// Adds an entry with this barrier and longest queue, whose body has ended.
    fn complete_entry(
        &mut self,
        alloc: Global,
        profile: Profile,
        operation: OperationDraft,
        head: (u8, u8),
    ) -> Result<(), LineError>
        requires object { MayDeclare profile self.old }
        requires operation { IsOpenIn profile self.old operation }
        requires head { operation.head ≡ Head.Entry head.0 head.1 }
        ensures read { OnOk result (object_text self.new ≡ completed_as operation.head
            (string_bytes operation.name) (body_draft_text operation.body).statements
            (object_text self.old)) }
        ensures memory { IfErr result (λ error. error ≡ LineError.OutOfMemory) }
        ensures object { OnOk result (IsObject profile self.new) }
        ensures grows { OnOk result (KeepsProcedures self.old self.new) }
    {
        let (barrier, longest) = head;
        let index = EntryIndex::after(self.operations.entries.len()).unwrap();
        push_name(alloc, &mut self.entry_names, &operation.name)?;
        let entry = Entry {
            barrier,
            longest,
            body: operation.body.into_statements(),
        };
        push_item(&mut self.operations.entries, entry)?;
        let named = OperationName::Entry(index);
        insert_string_in_map(&mut self.operation_names, operation.name, named)
    }
}

/// No operations.
fn no_operations(alloc: Global) -> Operations
    ensures functions { result.functions.items ≡ [] }
    ensures procedures { result.procedures.items ≡ [] }
    ensures entries { result.entries.items ≡ [] }
{
    Operations {
        functions: Vec::new(alloc),
        procedures: Vec::new(alloc),
        entries: Vec::new(alloc),
    }
}

/// Adds an item after these. Of whatever type, so that to drop it, where there is no memory, is one
/// step of a proof and not one for each of its parts.
fn push_item<T: Drop>(items: &mut Vec<T>, item: T) -> Result<(), AllocError>
    ensures items { OnOk result (items.new.items ≡ items.old.items ++ item ∷ []) }
    ensures len { OnOk result (length items.new.items ≡ length items.old.items + 1) }
{
    items.push(item)?;
    Ok(())
}

/// Adds a name after these.
fn push_name(alloc: Global, names: &mut Vec<String>, name: &str) -> Result<(), AllocError>
    ensures names { OnOk result (map (λ name. string_bytes name) names.new.items
        ≡ map (λ name. string_bytes name) names.old.items ++ name.now ∷ []) }
    ensures len { OnOk result (length names.new.items ≡ length names.old.items + 1) }
{
    push_item(names, String::from_str(alloc, name)?)
}

/// How many entries an object has at most.
fn most_entries(profile: Profile) -> usize
    ensures { result ≡ most_entries profile }
{
    match profile {
        Profile::Ravenscar => 1,
        Profile::Jorvik => usize::from(MOST_ENTRIES),
    }
}

/// How many calls wait at an entry at most: under Jorvik the rest of the line may say.
fn take_longest(profile: Profile, words: &mut Words<'_>) -> Result<u8, DeckReason>
    ensures read { Gives (λ longest. (longest, unread words.new)) result
        (longest_at profile (unread words.old)) }
    ensures in_range { IfOk result (λ longest. (1 ≤ longest) × (longest ≤ 8)) }
    ensures single { IfOk result (λ longest. profile ≡ Profile.Ravenscar → longest ≡ 1) }
{
    if profile == Profile::Ravenscar || words.is_at_end() {
        return Ok(1);
    }
    take_queue(words)
}

/// Takes `queue LONGEST`.
#[tactic(auto, unfolding(crate::specs::Objects::queue_at))]
fn take_queue(words: &mut Words<'_>) -> Result<u8, DeckReason>
    ensures read { Gives (λ longest. (longest, unread words.new)) result
        (queue_at (unread words.old)) }
    ensures in_range { IfOk result (λ longest. (1 ≤ longest) × (longest ≤ 8)) }
{
    if !is_word(words.take()?, b"queue") {
        return Err(DeckReason::UnknownWord);
    }
    let longest = words.take_number(1, u64::from(LONGEST_QUEUE))?;
    Ok(longest as u8)
}

/// Takes `LOW HIGH INIT`.
#[tactic(auto, unfolding(crate::specs::Objects::ranged_at))]
fn take_ranged(words: &mut Words<'_>) -> Result<Ranged, DeckReason>
    ensures read { Gives (λ component. (component, unread words.new)) result
        (ranged_at (unread words.old)) }
    ensures in_range { IfOk result (λ component.
        is_within component.low component.high component.value ≡ true) }
{
    let low = words.take_integer()?;
    let high = words.take_integer()?;
    let value = words.take_integer()?;
    if !is_within(low, high, value) {
        return Err(DeckReason::BadNumber);
    }
    Ok(Ranged { low, high, value })
}

/// Whether the number is from low to high.
fn is_within(low: i64, high: i64, number: i64) -> bool
    ensures { result ≡ is_within low high number }
{
    low <= number && number <= high
}
