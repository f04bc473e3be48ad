//! The attributes of a database: their ranges and defaults, and the settings that a text in TOML gives.
#![tactic(auto)]

mod attribute;
mod settings;
#[cfg(test)]
mod tests;

pub use settings::{SetRefusal, Settings, read_settings};
