//! Reads the bodies of operations.

ghost use Rattle.std.specs.Prelude.{◌≡◌, ◌+◌, ◌∷◌, ◌++◌, ◌==◌, [], List, max, length, IsTrue, OnOk, IfOk};
ghost use Rattle.rp_words.specs.indexmap.specs.IndexMap.{values};
ghost use Rattle.rp_words.specs.Ahead.{text_of};
ghost use Rattle.rp_deck_bodies.specs.Bodies.{BodyText, Empty, If, first_part, second_part, begun_body, body_word_named, may_turn, may_follow, body_word, one_more, with_else, closed, statement_line, body_line_of, body_line};
ghost use Rattle.rp_deck_bodies.specs.ExpressionViews.{cond_text};
ghost use Rattle.rp_body.specs.Check.{cond_fits, stmt_count, statement_count, stmt_depth, depth_of, stmt_fits, body_fits, KeepsLimits};
ghost use Rattle.rp_body.specs.declared.components.Limits.{Limits};
ghost use Rattle.rp_deck_bodies.specs.declared.names.Component.{Component};
ghost use Rattle.rp_deck_bodies.specs.BodyLimits.{part_count, part_depth, part_fits, IsBody};
ghost use Rattle.rp_deck_bodies.specs.Counted.{WhereCounted};
ghost use Rattle.rp_deck_bodies.specs.BodyViews.{and_then, body_text, part_text, within, body_draft_text};
ghost use Rattle.rp_words.specs.Reading.{Gives, Makes};
ghost use Rattle.rp_words.specs.Tables.{key_names};
ghost use Rattle.rp_words.specs.Words.{unread};

use crate::expressions::{bool_named, int_named, read_cond, read_expr};
use crate::names::ComponentNames;
use rp_base::DeckReason;
use rp_body::{Cond, MOST_DEPTH, MOST_STATEMENTS, Stmt};
use rp_words::{LineError, TextLine, Words, named};
use std::alloc::{AllocError, Global};
use std::mem;

/// The words by which a line in a body begins.
const BODY_WORDS: [(&[u8], BodyWord); 6] = [
    (b"set", BodyWord::Statement(StatementWord::Set)),
    (b"put", BodyWord::Statement(StatementWord::Put)),
    (b"out", BodyWord::Statement(StatementWord::Out)),
    (b"if", BodyWord::Statement(StatementWord::If)),
    (b"else", BodyWord::Else),
    (b"end", BodyWord::End),
];

/// The first word of a line in a body.
#[derive(Clone, Copy)]
pub enum BodyWord {
    Statement(StatementWord),
    Else,
    End,
}

/// The first word of a statement.
#[derive(Clone, Copy)]
pub enum StatementWord {
    Set,
    Put,
    Out,
    If,
}

impl BodyWord {
    /// The one that the word is.
    fn named(first: &[u8]) -> Option<BodyWord>
        ensures { result ≡ body_word_named first.now }
    {
        named(&BODY_WORDS, first)
    }
}

/// An `if` whose `end` was not read yet.
#[derive(Drop)]
struct OpenIf {
    cond: Cond,
    /// The statements before it.
    before: Vec<Stmt>,
    /// Once its `else` was read, the statements up to there.
    first: Option<Vec<Stmt>>,
}

/// A body whose `end` was not read yet.
pub struct BodyDraft {
    /// The `if`s that it is in, the innermost last.
    ifs: Vec<OpenIf>,
    /// The statements of the innermost part.
    statements: Vec<Stmt>,
    /// How many more statements there may be.
    left: u8,
}

// Not derived, so that to drop it is one step of a proof and not one for each of its parts.
impl Drop for BodyDraft {
    fn drop(self) {
        let BodyDraft {
            ifs: _,
            statements: _,
            left: _,
        } = self;
    }
}

impl BodyDraft {
    /// A body that has no line yet.
    pub fn new(alloc: Global) -> Self
        ensures text { body_draft_text result ≡ begun_body }
        ensures limits { (declared : List Component) → IsBody declared 0 result }
    {
        BodyDraft {
            ifs: Vec::new(alloc),
            statements: Vec::new(alloc),
            left: MOST_STATEMENTS,
        }
    }

    /// Reads a line of the body. Whether the line ends it.
    #[tactic(auto, unfolding(crate::specs::Bodies::body_line))]
    pub fn read_line(
        &mut self,
        alloc: Global,
        line: TextLine<'_>,
        names: &ComponentNames,
    ) -> Result<bool, LineError>
        requires { IsBody (values names.now) 0 self.old }
        ensures limits { OnOk result (IsBody (values names.now) 0 self.new) }
        ensures read { Makes (λ ends. (body_draft_text self.new, ends)) result
            (body_line (key_names names.now) (values names.now) (body_draft_text self.old)
            (text_of line.entry)) }
    {
        let word = self.word(line.first)?;
        self.read_rest(alloc, word, line.words, names)
    }

    /// What the first word of a line is, where it is allowed here.
    #[tactic(auto, unfolding(crate::specs::Bodies::body_word))]
    fn word(&self, first: &[u8]) -> Result<BodyWord, DeckReason>
        ensures { Gives (λ word. word) result (body_word (body_draft_text self.now) first.now) }
    {
        let word = BodyWord::named(first).ok_or(DeckReason::UnknownWord)?;
        if !self.may_follow(word) {
            return Err(DeckReason::UnknownWord);
        }
        Ok(word)
    }

    /// Whether a line with this first word is allowed here.
    fn may_follow(&self, word: BodyWord) -> bool
        ensures { result ≡ may_follow (body_draft_text self.now) word }
    {
        match word {
            BodyWord::Else => self.may_turn(),
            BodyWord::Statement(_) | BodyWord::End => true,
        }
    }

    /// Whether an `else` is allowed here: after the first statements of an `if`.
    fn may_turn(&self) -> bool
        ensures { result ≡ may_turn (body_draft_text self.now).ifs }
    {
        match self.ifs.last() {
            Some(innermost) => innermost.first.is_none(),
            None => false,
        }
    }

    /// Reads the rest of a line, after its first word. Whether the line ends the body.
    #[tactic(auto, unfolding(crate::specs::Bodies::body_line_of))]
    fn read_rest(
        &mut self,
        alloc: Global,
        word: BodyWord,
        words: Words<'_>,
        names: &ComponentNames,
    ) -> Result<bool, LineError>
        requires { IsBody (values names.now) 0 self.old }
        ensures limits { OnOk result (IsBody (values names.now) 0 self.new) }
        ensures read { Makes (λ ends. (body_draft_text self.new, ends)) result
            (body_line_of (key_names names.now) (values names.now) (body_draft_text self.old) word
            (unread words.entry)) }
    {
        match word {
            BodyWord::Statement(word) => {
                self.count()?;
                self.read_statement(alloc, word, words, names)?;
                Ok(false)
            }
            BodyWord::Else => {
                words.end()?;
                self.turn(alloc)?;
                Ok(false)
            }
            BodyWord::End => {
                words.end()?;
                Ok(self.close(alloc)?)
            }
        }
    }

    /// The statements of a body that has ended.
    pub fn into_statements(self) -> Vec<Stmt>
        ensures text { body_text result.items ≡ (body_draft_text self).statements }
        ensures limits { (declared : List Component) → IsBody declared 0 self
            → WhereCounted declared (λ limits. KeepsLimits limits result.items) }
    {
        let BodyDraft {
            ifs: _,
            statements,
            left: _,
        } = self;
        statements
    }

    /// Counts a statement more, before it is read.
    #[tactic(auto, using(crate::proofs::BodyLemmas::ifs_len), unfolding(crate::specs::Bodies::one_more))]
    fn count(&mut self) -> Result<(), DeckReason>
        ensures read { Gives (λ _. body_draft_text self.new) result
            (one_more (body_draft_text self.old)) }
        ensures limits { OnOk result ((declared : List Component) → IsBody declared 0 self.old
            → IsBody declared 1 self.new) }
    {
        if self.ifs.len() >= usize::from(MOST_DEPTH) {
            return Err(DeckReason::TooMany);
        }
        self.left = self.left.checked_sub(1).ok_or(DeckReason::TooMany)?;
        Ok(())
    }

    /// Reads a statement, after its first word. Of an `if` it reads the condition.
    fn read_statement(
        &mut self,
        alloc: Global,
        word: StatementWord,
        words: Words<'_>,
        names: &ComponentNames,
    ) -> Result<(), LineError>
        requires { IsBody (values names.now) 1 self.old }
        ensures limits { OnOk result (IsBody (values names.now) 0 self.new) }
        ensures read { Makes (λ _. body_draft_text self.new) result
            (statement_line (key_names names.now) (values names.now) (body_draft_text self.old) word
            (unread words.entry)) }
    {
        match word {
            StatementWord::Set => self.read_set(alloc, words, names),
            StatementWord::Put => self.read_put(alloc, words, names),
            StatementWord::Out => self.read_out(alloc, words, names),
            StatementWord::If => self.read_if(alloc, words, names),
        }
    }

    /// Reads the rest of a `set`.
    #[tactic(auto, unfolding(crate::specs::Bodies::statement_line))]
    fn read_set(
        &mut self,
        alloc: Global,
        mut words: Words<'_>,
        names: &ComponentNames,
    ) -> Result<(), LineError>
        requires { IsBody (values names.now) 1 self.old }
        ensures limits { OnOk result (IsBody (values names.now) 0 self.new) }
        ensures read { Makes (λ _. body_draft_text self.new) result
            (statement_line (key_names names.now) (values names.now) (body_draft_text self.old) StatementWord.Set
            (unread words.entry)) }
    {
        let place = int_named(words.take()?, names)?;
        let value = read_expr(alloc, words, names)?;
        Ok(self.add(Stmt::Set(place, value))?)
    }

    /// Reads the rest of a `put`.
    #[tactic(auto, unfolding(crate::specs::Bodies::statement_line))]
    fn read_put(
        &mut self,
        alloc: Global,
        mut words: Words<'_>,
        names: &ComponentNames,
    ) -> Result<(), LineError>
        requires { IsBody (values names.now) 1 self.old }
        ensures limits { OnOk result (IsBody (values names.now) 0 self.new) }
        ensures read { Makes (λ _. body_draft_text self.new) result
            (statement_line (key_names names.now) (values names.now) (body_draft_text self.old) StatementWord.Put
            (unread words.entry)) }
    {
        let place = bool_named(words.take()?, names)?;
        let value = read_cond(alloc, words, names)?;
        Ok(self.add(Stmt::Put(place, value))?)
    }

    /// Reads the rest of an `out`.
    #[tactic(auto, unfolding(crate::specs::Bodies::statement_line))]
    fn read_out(
        &mut self,
        alloc: Global,
        words: Words<'_>,
        names: &ComponentNames,
    ) -> Result<(), LineError>
        requires { IsBody (values names.now) 1 self.old }
        ensures limits { OnOk result (IsBody (values names.now) 0 self.new) }
        ensures read { Makes (λ _. body_draft_text self.new) result
            (statement_line (key_names names.now) (values names.now) (body_draft_text self.old) StatementWord.Out
            (unread words.entry)) }
    {
        let value = read_expr(alloc, words, names)?;
        Ok(self.add(Stmt::Out(value))?)
    }

    /// Reads the condition of an `if`.
    #[tactic(auto, unfolding(crate::specs::Bodies::statement_line))]
    fn read_if(
        &mut self,
        alloc: Global,
        words: Words<'_>,
        names: &ComponentNames,
    ) -> Result<(), LineError>
        requires { IsBody (values names.now) 1 self.old }
        ensures limits { OnOk result (IsBody (values names.now) 0 self.new) }
        ensures read { Makes (λ _. body_draft_text self.new) result
            (statement_line (key_names names.now) (values names.now) (body_draft_text self.old) StatementWord.If
            (unread words.entry)) }
    {
        let cond = read_cond(alloc, words, names)?;
        Ok(self.begin_if(alloc, cond)?)
    }

    /// Adds a statement.
    fn add(&mut self, statement: Stmt) -> Result<(), AllocError>
        ensures items { OnOk result
            (self.new.statements.items ≡ self.old.statements.items ++ statement ∷ []) }
        ensures same { OnOk result
            ((self.new.ifs ≡ self.old.ifs) × (self.new.left ≡ self.old.left)) }
        ensures text { OnOk result (body_draft_text self.new ≡ record (body_draft_text self.old) {
          statements = and_then statement (body_draft_text self.old).statements;
        }) }
    {
        self.statements.push(statement)?;
        Ok(())
    }

    /// Begins an `if`.
    fn begin_if(&mut self, alloc: Global, cond: Cond) -> Result<(), AllocError>
        ensures limits { OnOk result ((declared : List Component) → IsBody declared 1 self.old
            → WhereCounted declared (λ limits. IsTrue (cond_fits limits cond))
            → IsBody declared 0 self.new) }
        ensures text { OnOk result (body_draft_text self.new ≡ record (body_draft_text self.old) {
          ifs = record {
            condition = cond_text cond;
            before = (body_draft_text self.old).statements;
            first = None;
          } ∷ (body_draft_text self.old).ifs;
          statements = Empty;
        }) }
    {
        let before = mem::replace(&mut self.statements, Vec::new(alloc));
        self.ifs.push(OpenIf {
            cond,
            before,
            first: None,
        })?;
        Ok(())
    }

    /// Goes on with the second statements of the innermost `if`.
    fn turn(&mut self, alloc: Global) -> Result<(), AllocError>
        ensures limits { OnOk result ((declared : List Component) → IsBody declared 0 self.old
            → IsBody declared 0 self.new) }
        ensures text { OnOk result
            (body_draft_text self.new ≡ with_else (body_draft_text self.old)) }
    {
        if let Some(mut innermost) = self.ifs.pop() {
            let first = mem::replace(&mut self.statements, Vec::new(alloc));
            innermost.first = Some(first);
            self.ifs.push(innermost)?;
        }
        Ok(())
    }

    /// Ends the innermost `if`. Where there is none, the body ends, and it says so.
    fn close(&mut self, alloc: Global) -> Result<bool, AllocError>
        ensures limits { OnOk result ((declared : List Component) → IsBody declared 0 self.old
            → IsBody declared 0 self.new) }
        ensures text { OnOk result (body_draft_text self.new ≡ closed (body_draft_text self.old)) }
        ensures ends { IfOk result (λ ends. ends
            ≡ (length (body_draft_text self.old).ifs == 0)) }
    {
        let Some(
            OpenIf {
                cond,
                before,
                first,
            },
        ) = self.ifs.pop()
        else {
            return Ok(true);
        };
        let last = mem::replace(&mut self.statements, before);
        self.add(if_statement(alloc, cond, first, last))?;
        Ok(false)
    }
}

/// The `if` with these last statements. Those before its `else`, if it has one, are the first.
fn if_statement(alloc: Global, cond: Cond, first: Option<Vec<Stmt>>, last: Vec<Stmt>) -> Stmt
    ensures count { stmt_count result ≡ 1 + part_count first + statement_count last.items }
    ensures depth { stmt_depth result ≡ 1 + max (part_depth first) (depth_of last.items) }
    ensures fits { (limits : Limits) → IsTrue (cond_fits limits cond)
        → IsTrue (part_fits limits first) → IsTrue (body_fits limits last.items)
        → IsTrue (stmt_fits limits result) }
    ensures text { (before : BodyText) → and_then result before ≡ If before (cond_text cond)
        (first_part (part_text first) (body_text last.items))
        (second_part (part_text first) (body_text last.items)) }
{
    match first {
        Some(first) => Stmt::If(cond, first, last),
        None => Stmt::If(cond, last, Vec::new(alloc)),
    }
}
