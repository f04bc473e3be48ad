//! The attributes by their names, with their ranges and defaults, and what a document says of each. The ranges and
//! defaults are those of `specs/Limits.antt`, to which `attribute_of` is proved equal.
ghost use Rattle.std.specs.Prelude.{◌≡◌, ◌≤◌, IfSome, IfNone};
ghost use Rattle.toml.specs.View.{view, table_view};
ghost use Rattle.tt_set.specs.Attribute.{attribute_of, number_of, is_right, number_in};
ghost use Rattle.tt_set.specs.Settings.{AllRight, IsFirstWrong};

use toml::{Table, Value};

/// The least and the greatest value of an attribute, and the one that it has where it isn't named.
#[derive(Clone, Copy, Debug)]
pub(crate) struct Attribute {
    pub(crate) least: u32,
    pub(crate) most: u32,
    pub(crate) default: u32,
}

pub(crate) const DURABLE_COMMITS: Attribute = Attribute {
    least: 0,
    most: 1,
    default: 0,
};

pub(crate) const LOG_FILE_SIZE: Attribute = Attribute {
    least: 8_192,
    most: 67_108_864,
    default: 67_108_864,
};

pub(crate) const LOG_BUF_SIZE: Attribute = Attribute {
    least: 4_096,
    most: 1_048_576,
    default: 65_536,
};

pub(crate) const PERM_PAGES: Attribute = Attribute {
    least: 1,
    most: 65_536,
    default: 1_024,
};

pub(crate) const CKPT_PAGES: Attribute = Attribute {
    least: 1,
    most: 256,
    default: 8,
};

pub(crate) const DATABASE: Attribute = Attribute {
    least: 1,
    most: 4_294_967_295,
    default: 1,
};

fn attribute_of(name: &str) -> Option<Attribute>
    ensures { result ≡ attribute_of name.now }
{
    match name {
        "DurableCommits" => Some(DURABLE_COMMITS),
        "LogFileSize" => Some(LOG_FILE_SIZE),
        "LogBufSize" => Some(LOG_BUF_SIZE),
        "PermPages" => Some(PERM_PAGES),
        "CkptPages" => Some(CKPT_PAGES),
        "Database" => Some(DATABASE),
        _ => None,
    }
}

// The value as a number of the attribute, where it is a whole number in the range.
fn number_of(attribute: Attribute, value: &Value) -> Option<u32>
    ensures value { result ≡ number_of attribute (view value.now) }
    ensures range { IfSome result (λ n. (attribute.least ≤ n) × (n ≤ attribute.most)) }
{
    match value.as_integer() {
        Some(n) => {
            if i64::from(attribute.least) <= n && n <= i64::from(attribute.most) {
                Some(n as u32)
            } else {
                None
            }
        }
        None => None,
    }
}

fn is_right(name: &str, value: &Value) -> bool
    ensures { result ≡ is_right name.now (view value.now) }
{
    match attribute_of(name) {
        Some(attribute) => number_of(attribute, value).is_some(),
        None => false,
    }
}

/// The first name, in the order of the names' bytes, that isn't an attribute's or whose value isn't right.
pub(crate) fn first_wrong(table: &Table) -> Option<&str>
    ensures right { IfNone result (AllRight (table_view table.now)) }
    ensures wrong { IfSome result (λ name. IsFirstWrong (table_view table.now) name.now) }
{
    'names: for (name, value) in table.iter() {
        if !is_right(name.as_str(), value) {
            return Some(name.as_str());
        }
    }
    None
}

/// The number that the table has under this name for the attribute, or its default.
pub(crate) fn number_in(table: &Table, name: &str, attribute: Attribute) -> u32
    requires least { attribute.least ≤ attribute.default }
    requires most { attribute.default ≤ attribute.most }
    ensures value { result ≡ number_in (table_view table.now) name.now attribute }
    ensures least { attribute.least ≤ result }
    ensures most { result ≤ attribute.most }
{
    match table.get(name) {
        Some(value) => number_of(attribute, value).unwrap_or(attribute.default),
        None => attribute.default,
    }
}
