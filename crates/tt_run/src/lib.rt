//! The top call of the database: from words, attributes, script and files to what is written and a status.
#![tactic(auto)]

mod attributes;
mod devices;
mod reply;
mod request;
mod run_end;
mod script_run;
mod status;
#[cfg(test)]
mod tests;
mod top_call;
mod words;

pub use devices::Devices;
pub use status::Status;
pub use top_call::run;
pub use tt_engine::Damage;
pub use tt_value::Stop;
