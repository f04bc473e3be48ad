//! The file with the settings of a database, as a source of attributes; where it isn't there, it gives no byte.
use std::alloc::{AllocError, Global};
use std::fs::{self, File};
use std::io::{self, ErrorKind, Read};

/// The file `tt.toml` of a folder, as a reader. It reads as empty where it isn't there; where it can't be opened for
/// another cause, each read fails.
#[derive(Drop)]
pub enum SettingsFile {
    Open(File),
    Absent,
    Refused(ErrorKind),
}

impl SettingsFile {
    /// Opens the file. The only error is want of memory for its path.
    pub fn open(rt: &HostRuntime, alloc: Global, folder: &str) -> Result<SettingsFile, AllocError> {
        let path = format!(in alloc; "{folder}/tt.toml")?;
        Ok(match fs::open(rt, path.as_str()) {
            Ok(file) => SettingsFile::Open(file),
            Err(error) => match error.kind() {
                ErrorKind::NotFound => SettingsFile::Absent,
                kind => SettingsFile::Refused(kind),
            },
        })
    }
}

impl Read for SettingsFile {
    fn read(&mut self, buf: &mut [u8]) -> io::Result<usize> {
        match self {
            SettingsFile::Open(file) => file.read(buf),
            SettingsFile::Absent => Ok(0),
            SettingsFile::Refused(kind) => Err(io::Error::from(*kind)),
        }
    }
}
