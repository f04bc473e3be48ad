//! Reads a line of the script language exactly by its grammar, and writes a command as a line that gives it again. What is
//! read stands in the modules of this name, what is written in those whose names begin with `print`.
#![tactic(auto)]

mod change;
mod command;
mod cond;
mod condition;
mod cursor;
mod definition;
mod fault;
mod kind;
mod line;
mod list;
mod literal;
mod name;
mod number;
mod parse;
mod print_command;
mod print_condition;
mod print_definition;
mod print_list;
mod print_literal;
mod print_row;
mod print_select;
mod printer;
mod select;
#[cfg(test)]
mod tests;
mod tokens;
mod utility;

pub use command::{
    Aggregate, BackupKind, ColumnText, Command, Items, LineKind, OrderItem, SetItem, SetSource,
};
pub use cond::{Cond, Op, Operand};
pub use parse::parse_line;
pub use print_command::print;
