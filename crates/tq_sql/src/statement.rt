// The parts of a statement, without brackets and spaces.

use sqlite_items::Boxed;
use tq_base::{List, Name, Text};

/// A column: `column` or `source.column`. Names are folded.
#[derive(Drop, Debug)]
pub struct ColumnRef {
    pub source: Option<Name>,
    pub column: Name,
}

/// The kind of an output item: a column, `COUNT(*)`, or `SUM(column)`.
#[derive(Drop, Debug)]
pub enum What {
    Column(ColumnRef),
    Count,
    Sum(ColumnRef),
}

/// An output item, and the name after AS.
#[derive(Drop, Debug)]
pub struct Item {
    pub what: What,
    pub alias: Option<Name>,
}

/// A table in FROM, and its alias.
#[derive(Drop, Debug)]
pub struct SourceRef {
    pub table: Name,
    pub alias: Option<Name>,
}

/// A comparison operator: `=`, `<>`, `<`, `<=`, `>` or `>=`.
#[derive(Clone, Copy, PartialEq, Eq, Debug)]
pub enum Sign {
    Eq,
    Ne,
    Lt,
    Le,
    Gt,
    Ge,
}

/// An operand of a comparison: a column, a number, or a text in which `''` has become one quote.
#[derive(Drop, Debug)]
pub enum Term {
    Column(ColumnRef),
    Int(i64),
    Text(Text),
}

/// A condition. Brackets are not recorded; a chain of AND or of OR nests to the left.
#[derive(Debug)]
pub enum Cond {
    Is { left: Term, sign: Sign, right: Term },
    And(Boxed<Cond>, Boxed<Cond>),
    Or(Boxed<Cond>, Boxed<Cond>),
    Not(Boxed<Cond>),
}

impl Drop for Cond {
    // A chain nests as deep as it is long, so a loop drops the left parts.
    fn drop(mut self) {
        loop {
            match self {
                Cond::Is {
                    left: _,
                    sign: _,
                    right: _,
                } => return,
                Cond::And(left, right) => {
                    let _right = right.into_inner();
                    self = left.into_inner();
                }
                Cond::Or(left, right) => {
                    let _right = right.into_inner();
                    self = left.into_inner();
                }
                Cond::Not(inner) => self = inner.into_inner(),
            }
        }
    }
}

/// A query: its items, its sources, the condition after WHERE, and the columns after GROUP BY. `group` is empty if
/// there is no GROUP BY.
#[derive(Drop, Debug)]
pub struct Query {
    pub items: List<Item>,
    pub sources: List<SourceRef>,
    pub cond: Option<Cond>,
    pub group: List<ColumnRef>,
}

/// A statement: the text after PERIOD, the query, and the query after EXCEPT ALL.
#[derive(Drop, Debug)]
pub struct Statement {
    pub window: Option<Text>,
    pub left: Query,
    pub right: Option<Query>,
}
