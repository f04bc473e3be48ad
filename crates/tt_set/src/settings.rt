//! The settings of a database, and what a text of attributes gives. The text is read whole, as a TOML document of at most
//! 65,536 bytes; the first name, in the order of bytes, that isn't right is told.
ghost use Rattle.std.specs.Prelude.{◌≡◌, ◌≤◌, [], IfOk, IfErr, Ok, Err, Result, List, ℕ};
ghost use Rattle.toml.specs.View.{table_view};
ghost use Rattle.tt_set.specs.Attribute.{IsNamed};
ghost use Rattle.tt_set.specs.Settings.{settings_in, Says, IsRefusedFor, Gives, AreInRange};

use crate::attribute::{
    CKPT_PAGES, DATABASE, DURABLE_COMMITS, LOG_BUF_SIZE, LOG_FILE_SIZE, PERM_PAGES, first_wrong,
    number_in,
};
use std::alloc::Global;
use toml::Table;
use tt_value::Text;

/// The attributes of a database. `log_file_size` and `log_buf_size` count bytes, `perm_pages` and `ckpt_pages` pages.
#[derive(Clone, Copy, Debug, PartialEq, Eq)]
pub struct Settings {
    /// Whether each commit forces the log.
    pub durable_commits: bool,
    /// The most bytes of entries in one log file.
    pub log_file_size: u32,
    /// The most bytes of entries that wait to be written.
    pub log_buf_size: u32,
    /// How many pages the rows may fill.
    pub perm_pages: u32,
    /// How many pages a checkpoint copies before a line.
    pub ckpt_pages: u32,
    /// The number that tells this database from others.
    pub database: u64,
}

/// Why a text gives no settings: the first name in it that isn't right, empty where the text is no document.
#[derive(Debug, Drop)]
pub enum SetRefusal {
    Bad { name: Text },
    NoMemory,
}

const TEXT_MAX: usize = 65_536;

fn refused(alloc: Global, name: &str) -> SetRefusal
    ensures { IsNamed name.now result }
{
    match Text::from_str(alloc, name) {
        Ok(name) => SetRefusal::Bad { name },
        Err(_) => SetRefusal::NoMemory,
    }
}

fn settings_in(table: &Table) -> Settings
    ensures value { result ≡ settings_in (table_view table.now) }
    ensures range { AreInRange result }
{
    Settings {
        durable_commits: number_in(table, "DurableCommits", DURABLE_COMMITS) == 1,
        log_file_size: number_in(table, "LogFileSize", LOG_FILE_SIZE),
        log_buf_size: number_in(table, "LogBufSize", LOG_BUF_SIZE),
        perm_pages: number_in(table, "PermPages", PERM_PAGES),
        ckpt_pages: number_in(table, "CkptPages", CKPT_PAGES),
        database: u64::from(number_in(table, "Database", DATABASE)),
    }
}

/// The settings that a text of attributes gives. An attribute that it doesn't name has its default. The text is TOML
/// of at most 65,536 bytes; it is refused with an empty name where it isn't, and with the first name in the order of
/// bytes that is no attribute's or has a value that isn't a whole number in the attribute's range.
pub fn read_settings(alloc: Global, text: &[u8]) -> Result<Settings, SetRefusal>
    ensures ok { IfOk result (λ s. Says text.now (Ok s)) }
    ensures bad { IfErr result (IsRefusedFor text.now) }
    ensures only { (said : Result Settings (List ℕ)) → Says text.now said → Gives result said }
    ensures range { IfOk result AreInRange }
{
    if text.len() > TEXT_MAX {
        return Err(refused(alloc, ""));
    }
    match toml::table_from_slice(alloc, text) {
        Ok(table) => match first_wrong(&table) {
            Some(name) => Err(refused(alloc, name)),
            None => Ok(settings_in(&table)),
        },
        Err(error) => {
            if error.is_memory() {
                Err(SetRefusal::NoMemory)
            } else {
                Err(refused(alloc, ""))
            }
        }
    }
}
