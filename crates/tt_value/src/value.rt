//! Values, rows and cells, and what a column takes.

ghost use Rattle.std.specs.Prelude.{◌≡◌, IfOk};

use crate::duplicate::Duplicate;
use crate::list::List;
use crate::text::Text;
use std::alloc::{AllocError, Global};

/// A value of a column. A `Number` stands for its units over ten to the power of its scale.
#[derive(Debug, Drop)]
pub enum Value {
    Null,
    Int(i64),
    Number { scale: u8, units: i64 },
    Text(Text),
}

/// The values of a row, in the order of the table's columns.
#[derive(Debug, Drop)]
pub struct Row {
    pub values: List<Value>,
}

/// What lies at a place: nothing, or a row of the table with that id, which isn't 0.
#[derive(Debug, Drop, PartialEq, Eq)]
pub enum Cell {
    Empty,
    Full { table: u32, row: Row },
}

/// What a column takes: whole numbers; texts of at most so many bytes; numbers of a scale.
#[derive(Clone, Copy, Debug, PartialEq, Eq)]
pub enum ColumnType {
    BigInt,
    Varchar(u16),
    Number(u8),
}

impl Value {
    /// An equal value.
    pub fn copy(&self) -> Result<Value, AllocError>
        ensures { IfOk result (λ v. v ≡ self.now) }
    {
        match self {
            Value::Null => Ok(Value::Null),
            Value::Int(n) => Ok(Value::Int(*n)),
            Value::Number { scale, units } => Ok(Value::Number {
                scale: *scale,
                units: *units,
            }),
            Value::Text(text) => Ok(Value::Text(text.copy()?)),
        }
    }
}

impl Duplicate for Value {
    fn duplicate(&self, _alloc: Global) -> Result<Value, AllocError> {
        self.copy()
    }
}

impl Row {
    /// An equal row.
    pub fn copy(&self) -> Result<Row, AllocError>
        ensures { IfOk result (λ r. r ≡ self.now) }
    {
        Ok(Row {
            values: self.values.copy()?,
        })
    }
}

impl Duplicate for Row {
    fn duplicate(&self, _alloc: Global) -> Result<Row, AllocError> {
        self.copy()
    }
}

impl Cell {
    /// An equal cell.
    pub fn copy(&self) -> Result<Cell, AllocError>
        ensures { IfOk result (λ c. c ≡ self.now) }
    {
        match self {
            Cell::Empty => Ok(Cell::Empty),
            Cell::Full { table, row } => Ok(Cell::Full {
                table: *table,
                row: row.copy()?,
            }),
        }
    }
}
