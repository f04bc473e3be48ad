//! When values and rows are the same, and their hashes.

ghost use Rattle.std.specs.Prelude.{◌++◌};
ghost use Rattle.std.specs.Hash as fed;
ghost use Rattle.tt_value.specs.Same.{same_value, same_row, fed_value};
ghost use Rattle.tt_value.specs.SameLaws.{same_value-partial, same_value-equivalence, same_row-partial, same_row-equivalence, alike_values, alike_rows};

use crate::value::{Row, Value};
use std::hash::{Hash, Hasher};

impl PartialEq for Value {
    ghost eq = { same_value };

    ghost laws = { same_value-partial };

    fn eq(&self, other: &Value) -> bool {
        match (self, other) {
            (Value::Null, Value::Null) => true,
            (Value::Int(a), Value::Int(b)) => *a == *b,
            (
                Value::Number { scale, units },
                Value::Number {
                    scale: other_scale,
                    units: other_units,
                },
            ) => *scale == *other_scale && *units == *other_units,
            (Value::Text(a), Value::Text(b)) => *a == *b,
            _ => false,
        }
    }
}

impl Eq for Value {
    ghost laws = { same_value-equivalence };
}

impl Hash for Value {
    ghost hash_input = { fed_value };

    ghost respects_eq = { alike_values };

    fn hash<H: Hasher>(&self, state: &mut H) {
        match self {
            Value::Null => state.write_u8(0),
            Value::Int(n) => {
                state.write_u8(1);
                n.hash(state);
            }
            Value::Number { scale, units } => {
                state.write_u8(2);
                scale.hash(state);
                units.hash(state);
            }
            Value::Text(text) => {
                state.write_u8(3);
                text.hash(state);
            }
        }
    }
}

impl PartialEq for Row {
    ghost eq = { same_row };

    ghost laws = { same_row-partial };

    fn eq(&self, other: &Row) -> bool {
        self.values == other.values
    }
}

impl Eq for Row {
    ghost laws = { same_row-equivalence };
}

impl Hash for Row {
    ghost hash_input = { λ r. fed.slice fed_value r.values };

    ghost respects_eq = { alike_rows };

    fn hash<H: Hasher>(&self, state: &mut H) {
        self.values.hash(state);
    }
}
