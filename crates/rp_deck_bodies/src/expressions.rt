//! Reads the expressions and conditions of a deck.

ghost use Rattle.std.specs.Prelude.{◌≡◌, ◌≤◌, ◌<◌, ◌+◌, IsTrue, OnOk, IfOk};
ghost use Rattle.rp_body.specs.Check.{expr_nodes, cond_nodes, expr_fits, cond_fits};
ghost use Rattle.rp_deck_bodies.specs.Counted.{IsCounted, WhereCounted};
ghost use Rattle.rp_words.specs.indexmap.specs.IndexMap.{values};
ghost use Rattle.rp_deck_bodies.specs.ExpressionViews.{expr_text, cond_text};
ghost use Rattle.rp_deck_bodies.specs.Expressions.{expression_words, component_of, int_of, bool_of, next_node_read, expr_from, expr_line, two_at, ExprText, CondText, cond_of, cond_from, cond_line};
ghost use Rattle.rp_words.specs.Reading.{Gives, Makes, end_at};
ghost use Rattle.rp_words.specs.Tables.{is_declared, find, key_names};
ghost use Rattle.rp_words.specs.Words.{begins_as_number, unread};

use crate::names::{Component, ComponentNames};
use rp_base::DeckReason;
use rp_body::{Cond, Expr, MOST_EXPRESSION_NODES};
use rp_words::{LineError, Words, named, read_name, read_number};
use std::alloc::Global;

/// The words by which an expression begins, but for a number and a component's name.
const EXPR_WORDS: [(&[u8], ExprWord); 4] = [
    (b"arg", ExprWord::Arg),
    (b"out", ExprWord::Out),
    (b"add", ExprWord::Add),
    (b"sub", ExprWord::Sub),
];

/// The words by which a condition begins, but for a component's name.
const COND_WORDS: [(&[u8], CondWord); 8] = [
    (b"true", CondWord::True),
    (b"false", CondWord::False),
    (b"lt", CondWord::Less),
    (b"le", CondWord::LessOrEqual),
    (b"eq", CondWord::Equal),
    (b"not", CondWord::Not),
    (b"and", CondWord::And),
    (b"or", CondWord::Or),
];

/// Whether the word has a meaning of its own in expressions and conditions, so that no component
/// may be named by it.
pub fn is_of_expressions(word: &str) -> bool
    ensures { result ≡ is_declared word.now expression_words }
{
    matches!(
        word,
        "arg" | "out" | "add" | "sub" | "true" | "false" | "lt" | "le" | "eq" | "not" | "and" | "or"
    )
}

/// Whether the word is read as a number: it begins with a digit or `-`.
fn begins_as_number(word: &[u8]) -> bool
    ensures { result ≡ begins_as_number word.now }
{
    match word {
        [] => false,
        [first, ..] => *first == b'-' || first.is_ascii_digit(),
    }
}

/// The component of this name, if it is declared.
fn find_component(names: &ComponentNames, name: &str) -> Option<Component>
    ensures { result ≡ find name.now (key_names names.now) (values names.now) }
{
    names.get(name).copied()
}

/// The component of this name.
#[tactic(auto, unfolding(crate::specs::Expressions::component_of))]
fn component_named(word: &[u8], names: &ComponentNames) -> Result<Component, DeckReason>
    ensures read { Gives (λ component. component) result
        (component_of (key_names names.now) (values names.now) word.now) }
    ensures counted { IfOk result (λ component.
        WhereCounted (values names.now) (λ limits. IsCounted limits component)) }
{
    let name = read_name(word)?;
    find_component(names, name).ok_or(DeckReason::UnknownName)
}

/// The whole-number component of this name.
#[tactic(auto, unfolding(crate::specs::Expressions::int_of))]
pub fn int_named(word: &[u8], names: &ComponentNames) -> Result<u8, DeckReason>
    ensures counted { IfOk result (λ place.
        WhereCounted (values names.now) (λ limits. place < limits.ints)) }
    ensures read { Gives (λ place. place) result
        (int_of (key_names names.now) (values names.now) word.now) }
{
    match component_named(word, names)? {
        Component::Int(place) => Ok(place),
        Component::Bool(_) => Err(DeckReason::UnknownName),
    }
}

/// The Boolean component of this name.
#[tactic(auto, unfolding(crate::specs::Expressions::bool_of))]
pub fn bool_named(word: &[u8], names: &ComponentNames) -> Result<u8, DeckReason>
    ensures counted { IfOk result (λ place.
        WhereCounted (values names.now) (λ limits. place < limits.bools)) }
    ensures read { Gives (λ place. place) result
        (bool_of (key_names names.now) (values names.now) word.now) }
{
    match component_named(word, names)? {
        Component::Bool(place) => Ok(place),
        Component::Int(_) => Err(DeckReason::UnknownName),
    }
}

/// The first word of an expression, but for a number and a component's name.
#[derive(Clone, Copy)]
enum ExprWord {
    Arg,
    Out,
    Add,
    Sub,
}

/// The first word of a condition, but for a component's name.
#[derive(Clone, Copy)]
pub enum CondWord {
    True,
    False,
    Less,
    LessOrEqual,
    Equal,
    Not,
    And,
    Or,
}

/// Reads an expression, after which no word is left.
#[tactic(auto, unfolding(crate::specs::Expressions::tree_line))]
pub fn read_expr(alloc: Global, words: Words<'_>, names: &ComponentNames) -> Result<Expr, LineError>
    ensures read { Makes expr_text result
        (expr_line (key_names names.now) (values names.now) (unread words.entry)) }
    ensures fits { IfOk result (λ expr.
        WhereCounted (values names.now) (λ limits. IsTrue (expr_fits limits expr))) }
{
    let mut nodes = Nodes::new(alloc, words, names);
    let expr = nodes.expr(MOST_EXPRESSION_NODES)?;
    nodes.complete(expr)
}

/// Reads a condition, after which no word is left.
#[tactic(auto, unfolding(crate::specs::Expressions::tree_line))]
pub fn read_cond(alloc: Global, words: Words<'_>, names: &ComponentNames) -> Result<Cond, LineError>
    ensures read { Makes cond_text result
        (cond_line (key_names names.now) (values names.now) (unread words.entry)) }
    ensures fits { IfOk result (λ cond.
        WhereCounted (values names.now) (λ limits. IsTrue (cond_fits limits cond))) }
{
    let mut nodes = Nodes::new(alloc, words, names);
    let cond = nodes.cond(MOST_EXPRESSION_NODES)?;
    nodes.complete(cond)
}

/// The nodes of an expression or a condition that are still to be read, a word each, those of a
/// node after it.
struct Nodes<'w, 'n> {
    alloc: Global,
    words: Words<'w>,
    names: &'n ComponentNames,
    /// How many more there may be.
    left: u8,
}

// Not derived, so that to drop it is one step of a proof and not one for each of its parts.
impl<'w, 'n> Drop for Nodes<'w, 'n> {
    fn drop(self) {
        let Nodes {
            alloc: _,
            words: _,
            names: _,
            left: _,
        } = self;
    }
}

impl<'w, 'n> Nodes<'w, 'n> {
    ghost use Rattle.rp_deck_bodies.specs.NodeReads.{Reads, expr_of, ReadsExpr, ReadsCond, expr_in, cond_in, IsExprCounted, IsCondCounted};

    /// The nodes of a line: at most 32.
    fn new(alloc: Global, words: Words<'w>, names: &'n ComponentNames) -> Self
        ensures words { result.words ≡ words.entry }
        ensures names { result.names ≡ names.entry }
        ensures left { result.left ≡ 32 }
    {
        Nodes {
            alloc,
            words,
            names,
            left: MOST_EXPRESSION_NODES,
        }
    }

    /// Returns the tree of the nodes, after which no word is left. Of whatever type, so that to drop
    /// it, where a word is left, is one step of a proof and not one for each of its parts.
    fn complete<T: Drop>(&self, tree: T) -> Result<T, LineError>
        ensures read { Makes (λ _. tt) result (end_at (unread self.now.words)) }
        ensures tree { IfOk result (λ whole. whole ≡ tree) }
    {
        self.words.end()?;
        Ok(tree)
    }

    /// The word of the next node.
    #[tactic(auto, unfolding(crate::specs::Expressions::next_node_read))]
    fn next(&mut self) -> Result<&'w [u8], DeckReason>
        ensures read { Gives (λ word. (word.now, self.new.left, unread self.new.words)) result
            (next_node_read self.old.left (unread self.old.words)) }
        ensures names { self.new.names ≡ self.old.names }
        ensures left { OnOk result (self.new.left + 1 ≡ self.old.left) }
    {
        let word = self.words.take()?;
        self.left = self.left.checked_sub(1).ok_or(DeckReason::BadExpression)?;
        Ok(word)
    }

    /// Reads an expression that is at most so deep.
    #[cycle(expr)]
    #[tactic(auto, using(crate::proofs::ExpressionsLemmas::tree_refused, crate::proofs::ExpressionsLemmas::tree_too_deep, crate::proofs::ExpressionsLemmas::tree_deeper))]
    fn expr(&mut self, depth: u8) -> Result<Expr, LineError>
        ensures read { ReadsExpr (expr_in self.old depth) self.old self.new result }
        ensures nodes { IfOk result (λ expr. self.new.left + expr_nodes expr ≡ self.old.left) }
        ensures counted { IfOk result (λ expr. IsExprCounted self.old expr) }
    {
        let word = self.next()?;
        let inner = depth.checked_sub(1).ok_or(DeckReason::BadExpression)?;
        self.expr_from(word, inner)
    }

    /// Reads the rest of an expression, after its first word. Its parts are at most so deep.
    #[cycle(expr)]
    #[tactic(auto, using(crate::proofs::ExpressionsLemmas::expr_by_word))]
    fn expr_from(&mut self, word: &[u8], depth: u8) -> Result<Expr, LineError>
        ensures read { ReadsExpr (expr_from (key_names self.old.names.now)
            (values self.old.names.now) (expr_in self.old depth) word.now)
            self.old self.new result }
        ensures nodes { IfOk result (λ expr. self.new.left + expr_nodes expr ≡ self.old.left + 1) }
        ensures counted { IfOk result (λ expr. IsExprCounted self.old expr) }
    {
        let first = named(&EXPR_WORDS, word);
        self.expr_of(first, word, depth)
    }

    /// The same, where the word names `first`.
    #[cycle(expr)]
    #[tactic(auto, unfolding(crate::specs::NodeReads::expr_of))]
    fn expr_of(
        &mut self,
        first: Option<ExprWord>,
        word: &[u8],
        depth: u8,
    ) -> Result<Expr, LineError>
        ensures read { ReadsExpr (expr_of (key_names self.old.names.now)
            (values self.old.names.now) (expr_in self.old depth) first word.now)
            self.old self.new result }
        ensures nodes { IfOk result (λ expr. self.new.left + expr_nodes expr ≡ self.old.left + 1) }
        ensures counted { IfOk result (λ expr. IsExprCounted self.old expr) }
    {
        match first {
            Some(ExprWord::Arg) => Ok(Expr::Arg),
            Some(ExprWord::Out) => Ok(Expr::Out),
            Some(ExprWord::Add) => {
                let (first, second) = self.two_exprs(depth)?;
                Ok(Expr::Add(first, second))
            }
            Some(ExprWord::Sub) => {
                let (first, second) = self.two_exprs(depth)?;
                Ok(Expr::Sub(first, second))
            }
            None if begins_as_number(word) => {
                Ok(Expr::Number(read_number(word).ok_or(DeckReason::BadNumber)?))
            }
            None => Ok(Expr::Int(int_named(word, self.names)?)),
        }
    }

    /// Reads an expression that is at most so deep, into a box.
    #[cycle(expr)]
    fn boxed_expr(&mut self, depth: u8) -> Result<Box<Expr>, LineError>
        ensures read { Reads (λ expr. expr_text expr.value) (expr_in self.old depth)
            self.old self.new result }
        ensures nodes { IfOk result (λ expr.
            self.new.left + expr_nodes expr.value ≡ self.old.left) }
        ensures counted { IfOk result (λ expr. IsExprCounted self.old expr.value) }
    {
        let expr = self.expr(depth)?;
        Ok(Box::new(self.alloc, expr)?)
    }

    /// Reads two expressions, one after the other, that are each at most so deep.
    #[cycle(expr)]
    fn two_exprs(&mut self, depth: u8) -> Result<(Box<Expr>, Box<Expr>), LineError>
        ensures read { (make : ExprText → ExprText → ExprText)
            → Reads (λ both. make (expr_text both.0.value) (expr_text both.1.value))
            (two_at (expr_in self.old depth) make) self.old self.new result }
        ensures nodes { IfOk result (λ both. self.new.left
            + (expr_nodes both.0.value + expr_nodes both.1.value) ≡ self.old.left) }
        ensures counted { IfOk result (λ both. IsExprCounted self.old both.0.value
            × IsExprCounted self.old both.1.value) }
    {
        let first = self.boxed_expr(depth)?;
        let second = self.boxed_expr(depth)?;
        Ok((first, second))
    }

    /// Reads the two expressions that a condition compares.
    fn operands(&mut self) -> Result<(Expr, Expr), LineError>
        ensures read { (make : ExprText → ExprText → CondText)
            → Reads (λ both. make (expr_text both.0) (expr_text both.1))
            (two_at (expr_in self.old 32) make) self.old self.new result }
        ensures nodes { IfOk result (λ both. self.new.left
            + (expr_nodes both.0 + expr_nodes both.1) ≡ self.old.left) }
        ensures counted { IfOk result (λ both. IsExprCounted self.old both.0
            × IsExprCounted self.old both.1) }
    {
        let first = self.expr(MOST_EXPRESSION_NODES)?;
        let second = self.expr(MOST_EXPRESSION_NODES)?;
        Ok((first, second))
    }

    /// Reads a condition that is at most so deep.
    #[cycle(cond)]
    #[tactic(auto, using(crate::proofs::ExpressionsLemmas::tree_refused, crate::proofs::ExpressionsLemmas::tree_too_deep, crate::proofs::ExpressionsLemmas::tree_deeper))]
    fn cond(&mut self, depth: u8) -> Result<Cond, LineError>
        ensures read { ReadsCond (cond_in self.old depth) self.old self.new result }
        ensures nodes { IfOk result (λ cond. self.new.left + cond_nodes cond ≡ self.old.left) }
        ensures counted { IfOk result (λ cond. IsCondCounted self.old cond) }
    {
        let word = self.next()?;
        let inner = depth.checked_sub(1).ok_or(DeckReason::BadExpression)?;
        self.cond_from(word, inner)
    }

    /// Reads the rest of a condition, after its first word. The conditions in it are at most so
    /// deep.
    #[cycle(cond)]
    fn cond_from(&mut self, word: &[u8], depth: u8) -> Result<Cond, LineError>
        ensures read { ReadsCond (cond_from (key_names self.old.names.now)
            (values self.old.names.now) (cond_in self.old depth) word.now)
            self.old self.new result }
        ensures nodes { IfOk result (λ cond. self.new.left + cond_nodes cond ≡ self.old.left + 1) }
        ensures counted { IfOk result (λ cond. IsCondCounted self.old cond) }
    {
        let first = named(&COND_WORDS, word);
        self.cond_of(first, word, depth)
    }

    /// The same, where the word names `first`.
    #[cycle(cond)]
    #[tactic(auto, unfolding(crate::specs::Expressions::cond_of))]
    fn cond_of(
        &mut self,
        first: Option<CondWord>,
        word: &[u8],
        depth: u8,
    ) -> Result<Cond, LineError>
        ensures read { ReadsCond (cond_of (key_names self.old.names.now)
            (values self.old.names.now) (cond_in self.old depth) first word.now) self.old self.new
            result }
        ensures nodes { IfOk result (λ cond. self.new.left + cond_nodes cond ≡ self.old.left + 1) }
        ensures counted { IfOk result (λ cond. IsCondCounted self.old cond) }
    {
        match first {
            Some(CondWord::True) => Ok(Cond::Constant(true)),
            Some(CondWord::False) => Ok(Cond::Constant(false)),
            Some(CondWord::Less) => {
                let (first, second) = self.operands()?;
                Ok(Cond::Less(first, second))
            }
            Some(CondWord::LessOrEqual) => {
                let (first, second) = self.operands()?;
                Ok(Cond::LessOrEqual(first, second))
            }
            Some(CondWord::Equal) => {
                let (first, second) = self.operands()?;
                Ok(Cond::Equal(first, second))
            }
            Some(CondWord::Not) => Ok(Cond::Not(self.boxed_cond(depth)?)),
            Some(CondWord::And) => {
                let (first, second) = self.two_conds(depth)?;
                Ok(Cond::And(first, second))
            }
            Some(CondWord::Or) => {
                let (first, second) = self.two_conds(depth)?;
                Ok(Cond::Or(first, second))
            }
            None => Ok(Cond::Bool(bool_named(word, self.names)?)),
        }
    }

    /// Reads a condition that is at most so deep, into a box.
    #[cycle(cond)]
    fn boxed_cond(&mut self, depth: u8) -> Result<Box<Cond>, LineError>
        ensures read { Reads (λ cond. cond_text cond.value) (cond_in self.old depth)
            self.old self.new result }
        ensures nodes { IfOk result (λ cond.
            self.new.left + cond_nodes cond.value ≡ self.old.left) }
        ensures counted { IfOk result (λ cond. IsCondCounted self.old cond.value) }
    {
        let cond = self.cond(depth)?;
        Ok(Box::new(self.alloc, cond)?)
    }

    /// Reads two conditions, one after the other, that are each at most so deep.
    #[cycle(cond)]
    fn two_conds(&mut self, depth: u8) -> Result<(Box<Cond>, Box<Cond>), LineError>
        ensures read { (make : CondText → CondText → CondText)
            → Reads (λ both. make (cond_text both.0.value) (cond_text both.1.value))
            (two_at (cond_in self.old depth) make) self.old self.new result }
        ensures nodes { IfOk result (λ both. self.new.left
            + (cond_nodes both.0.value + cond_nodes both.1.value) ≡ self.old.left) }
        ensures counted { IfOk result (λ both. IsCondCounted self.old both.0.value
            × IsCondCounted self.old both.1.value) }
    {
        let first = self.boxed_cond(depth)?;
        let second = self.boxed_cond(depth)?;
        Ok((first, second))
    }
}
