//! Values, rows, cells, positions and replies, with their orders and the stored form of a row. First the data that a table
//! holds, then what the engine says to the outside; each limit of the stored form is a constant here, and a name in
//! `specs/Limits.antt` to which the code is proved equal.
#![tactic(auto)]

// ---- data: names, texts and lists; values, rows and cells; their orders and their stored form

pub mod big_endian;
mod compared;
mod duplicate;
mod ident;
mod list;
mod order;
mod same;
mod stored;
mod text;
mod truth;
mod value;

pub use duplicate::Duplicate;
pub use ident::{Ident, is_name};
pub use list::List;
pub use order::{WrongKinds, compare, key_order};
pub use stored::{is_storable, read_row, stored_length, write_row, write_row_into};
pub use text::Text;
pub use truth::Truth;
pub use value::{Cell, ColumnType, Row, Value};

// ---- what the engine says to the outside

mod position;
mod refusal;
mod reply;

pub use position::Position;
pub use refusal::Refusal;
pub use reply::{Edit, Hold, HoldKind, Reply, Stop, Update};

#[cfg(test)]
mod tests;

/// The most bytes that a name has.
pub const NAME_MAX: usize = 30;

/// The most bytes that a stored row has.
pub const ROW_MAX: usize = 240;

/// The most values that a row has.
pub const VALUES_MAX: usize = 16;

/// The most bytes that a stored text has.
pub const TEXT_MAX: usize = 200;

/// The most digits behind the dot of a number.
pub const SCALE_MAX: u8 = 18;

/// The units of a stored number are below this in size.
pub const UNITS_END: u64 = 1_000_000_000_000_000_000;
