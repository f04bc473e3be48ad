//! Conditions on a row.

use sqlite_items::Boxed;
use tt_value::{Ident, Value};

/// How two values are compared.
#[derive(Clone, Copy, Debug, PartialEq, Eq)]
pub enum Op {
    Eq,
    Ne,
    Lt,
    Le,
    Gt,
    Ge,
}

/// What a column is compared with.
#[derive(Debug, Drop)]
pub enum Operand {
    Literal(Value),
    Column(Ident),
}

/// A condition. `IsNull` with `not` is `is not null`.
#[derive(Drop)]
pub enum Cond {
    Compare {
        column: Ident,
        op: Op,
        right: Operand,
    },
    IsNull {
        column: Ident,
        not: bool,
    },
    Not(Boxed<Cond>),
    And(Boxed<Cond>, Boxed<Cond>),
    Or(Boxed<Cond>, Boxed<Cond>),
}
