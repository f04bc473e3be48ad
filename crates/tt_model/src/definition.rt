//! Tables and indexes as the system rows state them, and a change of a place that is planned.

use tt_parse::ColumnText;
use tt_value::{Cell, Ident, List};

/// A table: its number, its columns in their order, and the columns of its key, from 0 on, in the key's order.
#[derive(Debug, Drop)]
pub struct TableDef {
    pub id: u32,
    pub name: Ident,
    pub columns: List<ColumnText>,
    pub key: List<u16>,
}

/// An index of a table, over these columns, from 0 on.
#[derive(Debug, Drop)]
pub struct IndexDef {
    pub id: u32,
    pub table: u32,
    pub name: Ident,
    pub unique: bool,
    pub columns: List<u16>,
}

/// A change that is planned: its place, or none where it takes the least free one.
#[derive(Debug, Drop)]
pub struct CellEdit {
    pub place: Option<u32>,
    pub before: Cell,
    pub after: Cell,
}
