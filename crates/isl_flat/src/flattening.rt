//! Expressions in which what is chosen once gets a name of its own.

ghost use Rattle.std.specs.Prelude.{◌≡◌, ◌++◌, ◌∷◌, [], IfOk};
ghost use Rattle.isl_flat.specs.Flat as spec;
ghost use Rattle.isl_flat.specs.Flat.{Leaves, LeavesPostfix, LeavesPostfixes, LeavesRow, dollar, flat, partial};

use crate::partial::{Row, is_gist, is_gist_alone, reversed};
use isl_space::Name;
use isl_tree::statement::{Binary, Expr, Link, Postfix, Prefix, Stmt};
use isl_tree::words::row_of;
use sqlite_items::{Boxed, Items};
use std::alloc::{AllocError, Global};
use std::marker::Model;

/// Where an expression stands in a statement.
#[derive(Clone, Copy)]
pub enum Standing {
    /// It is what the statement binds or shows.
    Outermost,
    /// It is an operand.
    Inside,
}

impl Standing {
    // Whether the word wants a name as its operand.
    fn names_operand(self, word: Prefix) -> bool
        ensures { result ≡ spec.names_operand self word }
    {
        let row = row_of(word);
        row.chooses || (row.joins && matches!(self, Standing::Outermost))
    }
}

// `$1`, `$2`, ..
fn dollar(alloc: Global, number: usize) -> Result<Name, AllocError>
    ensures { IfOk result (λ name. name ≡ dollar number) }
{
    let text = format!(in alloc; "${number}")?;
    Name::new(alloc, text.as_str())
}

fn is_name(expr: &Expr) -> bool
    ensures { result ≡ spec.is_name expr.now }
{
    matches!(expr, Expr::Name(_))
}

// Whether the value is chosen once.
#[tactic(auto, using(crate::proofs::FlatLaws::chosen))]
fn is_chosen(expr: &Expr) -> bool
    ensures { result ≡ spec.is_chosen expr.now }
{
    match expr {
        Expr::Row(_, links) => is_gist_alone(links.as_slice()),
        Expr::Prefix(word, _) => row_of(*word).chooses,
        Expr::Name(_) | Expr::Literal(_) | Expr::Any(..) | Expr::Last(..) | Expr::Post(..) => false,
    }
}

/// A statement as flattening leaves it: its names may be `$1`, `$2`, ..
pub type SimpleStmt = Stmt;

// The statements that were made so far.
#[derive(Drop)]
struct Flattening {
    alloc: Global,
    statements: Vec<Stmt>,
}

impl Model for Flattening {
    ghost use Rattle.std.specs.Prelude.{List};
    ghost use Rattle.isl_tree.specs.declared.statement.Stmt as trees;
    ghost use Rattle.isl_tree.specs.contracts.statement.Stmt as coding;
    ghost use Rattle.std.specs.Coded.{codes};

    ghost Value = { List trees.Stmt };

    ghost coded = { Prim.hlevel (codes, coding.the_row.coded) };

    ghost view = { λ f. f.statements.items };
}

impl Flattening {
    // Binds the next name to the expression, and answers the name.
    fn bind(&mut self, value: Expr) -> Result<Expr, AllocError>
        ensures { Leaves (spec.bound (self.old, value)) result self.new }
    {
        let name = dollar(self.alloc, self.statements.len() + 1)?;
        self.statements.push(Stmt::Bind(name.copy()?, value))?;
        Ok(Expr::Name(name))
    }

    // An operand that is no name gets one.
    fn named(&mut self, operand: Expr) -> Result<Expr, AllocError>
        ensures { Leaves (spec.named (self.old, operand)) result self.new }
    {
        if is_name(&operand) {
            Ok(operand)
        } else {
            self.bind(operand)
        }
    }

    // What is chosen once and stands inside an expression gets a name.
    fn settled(&mut self, value: Expr) -> Result<Expr, AllocError>
        ensures { Leaves (spec.settled (self.old, value)) result self.new }
    {
        if is_chosen(&value) {
            self.bind(value)
        } else {
            Ok(value)
        }
    }

    // A row that is the left operand of what comes next.
    fn settled_row(&mut self, row: Row) -> Result<Row, AllocError>
        ensures { LeavesRow (spec.settled_row (partial self.old row)) result self.new }
    {
        if !row.is_gist() {
            return Ok(row);
        }
        let whole = row.whole(self.alloc)?;
        let first = self.bind(whole)?;
        Ok(Row {
            first,
            links: Items::new(self.alloc),
        })
    }

    // `%` between two names.
    #[tactic(auto, using(crate::proofs::FlatLaws::gist_of))]
    fn gist(&mut self, left: Expr, right: Expr) -> Result<Row, AllocError>
        ensures { LeavesRow (spec.gist left right self.old) result self.new }
    {
        let first = self.named(left)?;
        let operand = self.named(right)?;
        let mut links = Items::new(self.alloc);
        links.push(Link {
            operator: Binary::Gist,
            operand,
        })?;
        Ok(Row { first, links })
    }

    // An operator and its operand, which is flattened, come behind the row.
    fn with_link(&mut self, row: Row, operator: Binary, operand: Expr) -> Result<Row, AllocError>
        ensures { LeavesRow (spec.with_link operator (partial self.old row) (self.old, operand)) result self.new }
    {
        if is_gist(operator) {
            let left = row.whole(self.alloc)?;
            return self.gist(left, operand);
        }
        let Row { first, mut links } = row;
        links.push(Link { operator, operand })?;
        Ok(Row { first, links })
    }

    #[cycle(flat)]
    #[tactic(auto, using(crate::proofs::SizeLaws::sizes))]
    fn past_link(&mut self, row: Row, link: Link) -> Result<Row, AllocError>
        ensures { LeavesRow (spec.past_link (partial self.old row) link) result self.new }
    {
        let row = self.settled_row(row)?;
        let Link { operator, operand } = link;
        let operand = self.nested(operand)?;
        self.with_link(row, operator, operand)
    }

    #[cycle(flat)]
    #[tactic(auto, using(crate::proofs::SizeLaws::sizes))]
    fn row(&mut self, first: Expr, links: Items<Link>) -> Result<Expr, AllocError>
        ensures { Leaves (spec.ended (spec.past_row (spec.begun (spec.nested self.old first)) links)) result self.new }
    {
        let first = self.nested(first)?;
        let mut row = Row {
            first,
            links: Items::new(self.alloc),
        };
        let mut rest = reversed(self.alloc, links)?;
        while let Some(link) = rest.pop() {
            row = self.past_link(row, link)?;
        }
        row.whole(self.alloc)
    }

    #[cycle(flat)]
    #[tactic(auto, using(crate::proofs::SizeLaws::sizes))]
    fn postfix(&mut self, postfix: Postfix) -> Result<Postfix, AllocError>
        ensures { LeavesPostfix (spec.nested_postfix self.old postfix) result self.new }
    {
        match postfix {
            Postfix::Inverse => Ok(Postfix::Inverse),
            Postfix::Apply(argument) => Ok(Postfix::Apply(self.nested(argument)?)),
            Postfix::Item(number) => Ok(Postfix::Item(number)),
        }
    }

    #[cycle(flat)]
    #[tactic(auto, using(crate::proofs::SizeLaws::sizes))]
    fn postfixes(&mut self, postfixes: Items<Postfix>) -> Result<Items<Postfix>, AllocError>
        ensures { LeavesPostfixes (spec.past_post (spec.unfollowed self.old) postfixes) result self.new }
    {
        let mut kept = Items::new(self.alloc);
        let mut rest = reversed(self.alloc, postfixes)?;
        while let Some(postfix) = rest.pop() {
            kept.push(self.postfix(postfix)?)?;
        }
        Ok(kept)
    }

    #[cycle(flat)]
    #[tactic(auto, using(crate::proofs::SizeLaws::sizes))]
    fn post(&mut self, operand: Expr, postfixes: Items<Postfix>) -> Result<Expr, AllocError>
        ensures { Leaves (spec.followed (spec.nested self.old operand) postfixes) result self.new }
    {
        let operand = self.nested(operand)?;
        let kept = self.postfixes(postfixes)?;
        Ok(Expr::Post(Boxed::new(self.alloc, operand)?, kept))
    }

    // The operand of a word.
    #[cycle(flat)]
    #[tactic(auto, using(crate::proofs::SizeLaws::sizes))]
    fn operand(
        &mut self,
        operand: Expr,
        word: Prefix,
        standing: Standing,
    ) -> Result<Expr, AllocError>
        ensures { Leaves (spec.operand_of standing word (spec.nested self.old operand)) result self.new }
    {
        let operand = self.nested(operand)?;
        if standing.names_operand(word) {
            self.named(operand)
        } else {
            Ok(operand)
        }
    }

    // What an expression is inside another.
    #[cycle(flat)]
    #[tactic(auto, using(crate::proofs::SizeLaws::sizes))]
    fn nested(&mut self, expr: Expr) -> Result<Expr, AllocError>
        ensures { Leaves (spec.nested self.old expr) result self.new }
    {
        let value = self.flattened(expr, Standing::Inside)?;
        self.settled(value)
    }

    // An expression in which what is chosen inside it has names, and so have the operands of what it chooses.
    #[cycle(flat)]
    #[tactic(auto, using(crate::proofs::SizeLaws::sizes))]
    fn flattened(&mut self, expr: Expr, standing: Standing) -> Result<Expr, AllocError>
        ensures { Leaves (spec.flattened standing self.old expr) result self.new }
    {
        match expr {
            Expr::Name(name) => Ok(Expr::Name(name)),
            Expr::Literal(literal) => Ok(Expr::Literal(literal)),
            Expr::Row(first, links) => self.row(first.into_inner(), links),
            Expr::Prefix(word, operand) => {
                let operand = self.operand(operand.into_inner(), word, standing)?;
                Ok(Expr::Prefix(word, Boxed::new(self.alloc, operand)?))
            }
            Expr::Any(source, sink, schedule) => {
                let source = Boxed::new(self.alloc, self.nested(source.into_inner())?)?;
                let sink = Boxed::new(self.alloc, self.nested(sink.into_inner())?)?;
                let schedule = Boxed::new(self.alloc, self.nested(schedule.into_inner())?)?;
                Ok(Expr::Any(source, sink, schedule))
            }
            Expr::Last(source, sink, schedule) => {
                let source = Boxed::new(self.alloc, self.nested(source.into_inner())?)?;
                let sink = Boxed::new(self.alloc, self.nested(sink.into_inner())?)?;
                let schedule = Boxed::new(self.alloc, self.nested(schedule.into_inner())?)?;
                Ok(Expr::Last(source, sink, schedule))
            }
            Expr::Post(operand, postfixes) => self.post(operand.into_inner(), postfixes),
        }
    }
}

// The statements that were made, and a last one.
fn ended_by(flattening: Flattening, last: Stmt) -> Result<Vec<Stmt>, AllocError>
    ensures { IfOk result (λ made. made.items ≡ flattening ++ last ∷ []) }
{
    let Flattening { mut statements, .. } = flattening;
    statements.push(last)?;
    Ok(statements)
}

/// The simple statements of a statement: each nested `%` and `sample`, the innermost and leftmost first, is bound to `$1`, `$2`, ..;
/// so is, before it, each operand of a `%` or `sample`, and of a `coalesce` that stands outermost, that is no name.
pub fn flatten(alloc: Global, stmt: Stmt) -> Result<Vec<SimpleStmt>, AllocError>
    ensures { IfOk result (λ made. made.items ≡ flat stmt) }
{
    let mut flattening = Flattening {
        alloc,
        statements: Vec::new(alloc),
    };
    match stmt {
        Stmt::Empty => ended_by(flattening, Stmt::Empty),
        Stmt::Bind(name, expr) => {
            let value = flattening.flattened(expr, Standing::Outermost)?;
            ended_by(flattening, Stmt::Bind(name, value))
        }
        Stmt::Show(expr) => {
            let value = flattening.flattened(expr, Standing::Outermost)?;
            ended_by(flattening, Stmt::Show(value))
        }
        Stmt::Assume(set) => ended_by(flattening, Stmt::Assume(set)),
    }
}
