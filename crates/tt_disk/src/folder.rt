//! A volume over a folder of the file system, a file of the folder for each name.
//!
//! `DirVolume` counts the faults; `Folder` makes the calls and says why they failed. A `sync` syncs the file and then the
//! folder, which has its name; the folder itself is synced in the ones above it when `create` first needs it. The file that was
//! used last is kept open, and let go where a call on it failed.
ghost use Rattle.std.specs.Prelude.{◌≡◌, ◌≤◌, ◌+◌, ◌^◌, length, IfOk, IfSome, IsErr, OnOk, MatchResult};
ghost use Rattle.std.specs.Io.{ReadsAtMost};

use crate::{Failed, LONGEST, Name, Volume};
use std::alloc::{AllocError, Global};
use std::fs::{DirEntry, File, OpenOptions};
use std::io::ErrorKind;
use std::os::unix::fs::FileExt;
use std::path::Path;
use std::{fs, io};

/// The files of a folder. It tells nothing of their content, since no contract can say what a file system holds.
///
/// `Name::Ds(0)` is the file `tt.ds0`, `Name::Log(7)` is `tt.log7`, and of set number 7 the image is `tt.set7.image` and
/// the log `tt.set7.log`. No other file of the folder is read or changed. A folder that isn't there has no files, and
/// `create` makes it, with those above it. Each call that fails counts one fault, want of memory for a path included;
/// the count stops at the greatest `u64`.
#[derive(Drop)]
pub struct DirVolume {
    folder: Folder,
    faults: u64,
}

// The folder itself, whose calls say why they failed.
#[derive(Drop)]
struct Folder {
    rt: HostRuntime,
    alloc: Global,
    path: String,
    // Whether a crash leaves the folder where it is.
    is_synced: bool,
    // The file that was used last.
    open: Option<OpenFile>,
}

#[derive(Drop)]
struct OpenFile {
    name: Name,
    file: File,
}

impl DirVolume {
    ghost use Rattle.std.specs.Prelude.{ℕ};
    ghost use Rattle.tt_disk.specs.Folder.{folder_of, or_current};

    /// The volume over the folder of this path, with no faults. An empty path is the current folder. The file system
    /// is not asked, so the folder need not be there. The only error is want of memory for the path.
    pub fn new(rt: HostRuntime, alloc: Global, path: &str) -> Result<DirVolume, AllocError>
        ensures folder { IfOk result (λ volume. folder_of volume ≡ or_current path.now) }
        ensures faults { IfOk result (λ volume. ⟦<DirVolume as Volume>⟧.faults volume ≡ 0) }
    {
        let path = String::from_str(alloc, if path.is_empty() { "." } else { path })?;
        let folder = Folder {
            rt,
            alloc,
            path,
            is_synced: false,
            open: None,
        };
        Ok(DirVolume { folder, faults: 0 })
    }
}

impl Volume for DirVolume {
    ghost use Rattle.std.specs.Prelude.{None};

    ghost told = { ⊥ };

    ghost now = { λ _ _. None };

    ghost may = { λ _ _ _. ⊥ };

    ghost faults = { λ v. v.faults };

    ghost exact = { Unit {0} };

    ghost reads = { λ told. absurd told };

    fn size(&mut self, name: Name) -> Result<Option<u64>, Failed> {
        let answer = self.folder.size(name);
        self.count_fault(answer)
    }

    fn next_log(&mut self, from: u32) -> Result<Option<u32>, Failed> {
        let answer = self.folder.next_log(from);
        self.count_fault(answer)
    }

    fn create(&mut self, name: Name) -> Result<(), Failed> {
        let answer = self.folder.create(name);
        self.count_fault(answer)
    }

    fn read_at(&mut self, name: Name, at: u64, buf: &mut [u8]) -> Result<usize, Failed> {
        let answer = self.folder.read_at(name, at, buf);
        self.count_fault(answer)
    }

    fn write_at(&mut self, name: Name, at: u64, bytes: &[u8]) -> Result<(), Failed> {
        let answer = self.folder.write_at(name, at, bytes);
        self.count_fault(answer)
    }

    fn sync(&mut self, name: Name) -> Result<(), Failed> {
        let answer = self.folder.sync(name);
        self.count_fault(answer)
    }

    fn remove(&mut self, name: Name) -> Result<(), Failed> {
        let answer = self.folder.remove(name);
        self.count_fault(answer)
    }
}

impl DirVolume {
    ghost use Rattle.tt_disk.specs.Faults.{HasCause};

    // Counts a fault where the call failed, and hands its answer on without the error.
    fn count_fault<T: Drop>(&mut self, answer: io::Result<T>) -> Result<T, Failed>
        ensures answer { MatchResult answer (λ x. result ≡ Ok x) (λ _. IsErr result) }
        ensures cause { HasCause (Unit {0}) self.old.faults self.new.faults result }
    {
        match answer {
            Ok(value) => Ok(value),
            Err(_) => {
                self.faults = self.faults.saturating_add(1);
                Err(Failed)
            }
        }
    }
}

impl Folder {
    fn size(&self, name: Name) -> io::Result<Option<u64>>
        ensures { IfOk result (λ o. IfSome o (λ n. n ≤ 2 ^ 62)) }
    {
        match self.length_of(name) {
            Ok(length) => if length <= LONGEST {
                Ok(Some(length))
            } else {
                Err(too_long())
            },
            Err(error) => if error.kind() == ErrorKind::NotFound {
                Ok(None)
            } else {
                Err(error)
            },
        }
    }

    fn next_log(&self, from: u32) -> io::Result<Option<u32>>
        ensures { IfOk result (λ o. IfSome o (λ n. from ≤ n)) }
    {
        let entries = match fs::read_dir(&self.rt, self.path.as_str()) {
            Ok(entries) => entries,
            Err(error) => return if error.kind() == ErrorKind::NotFound {
                Ok(None)
            } else {
                Err(error)
            },
        };
        let mut least = None;
        for entry in entries {
            if let Some(number) = self.log_of(entry)? {
                least = lesser_log(number, from, least);
            }
        }
        Ok(least)
    }

    fn create(&mut self, name: Name) -> io::Result<()> {
        self.open = None;
        if !(self.is_synced && Path::new(self.path.as_str()).is_dir(&self.rt)) {
            self.is_synced = false;
            make_folder(&self.rt, self.path.as_str())?;
            self.is_synced = true;
        }
        let path = self.path_of(name)?;
        let mut how = OpenOptions::new();
        how.read(true);
        how.write(true);
        how.create(true);
        how.truncate(true);
        let file = how.open(&self.rt, path.as_str())?;
        self.keep_open(name, file);
        Ok(())
    }

    fn read_at(&mut self, name: Name, at: u64, buf: &mut [u8]) -> io::Result<usize>
        ensures { ReadsAtMost result buf.new }
    {
        let file = self.open_file(name)?;
        let count = read_fully(&file, at, buf)?;
        self.keep_open(name, file);
        Ok(count)
    }

    fn write_at(&mut self, name: Name, at: u64, bytes: &[u8]) -> io::Result<()>
        ensures { OnOk result (at + length bytes.now ≤ 2 ^ 62) }
    {
        let len = bytes.len() as u64;
        if len > LONGEST || at > LONGEST - len {
            return Err(too_long());
        }
        let file = self.open_file(name)?;
        file.write_all_at(bytes, at)?;
        self.keep_open(name, file);
        Ok(())
    }

    fn sync(&mut self, name: Name) -> io::Result<()> {
        let file = self.open_file(name)?;
        file.sync_all()?;
        sync_folder(&self.rt, self.path.as_str())?;
        self.keep_open(name, file);
        Ok(())
    }

    fn remove(&mut self, name: Name) -> io::Result<()> {
        self.open = None;
        let path = self.path_of(name)?;
        fs::remove_file(&self.rt, path.as_str())
    }

    // The open file is asked itself, any other by its path.
    fn length_of(&self, name: Name) -> io::Result<u64> {
        if let Some(open) = &self.open {
            if open.name == name {
                return Ok(open.file.metadata()?.len());
            }
        }
        let path = self.path_of(name)?;
        Ok(fs::metadata(&self.rt, path.as_str())?.len())
    }

    fn path_of(&self, name: Name) -> Result<String, AllocError> {
        path_in(self.alloc, self.path.as_str(), name)
    }

    // The file, open. It is handed back by `keep_open`, unless a call on it failed.
    fn open_file(&mut self, name: Name) -> io::Result<File> {
        if let Some(open) = self.open.take() {
            if open.name == name {
                return Ok(open.file);
            }
        }
        let path = self.path_of(name)?;
        let mut how = OpenOptions::new();
        how.read(true);
        how.write(true);
        how.open(&self.rt, path.as_str())
    }

    fn keep_open(&mut self, name: Name, file: File) {
        self.open = Some(OpenFile { name, file });
    }

    // A name that isn't text is no log's.
    fn log_of(&self, entry: io::Result<DirEntry<HostRuntime>>) -> io::Result<Option<u32>> {
        match entry {
            Ok(entry) => Ok(log_number(self.alloc, entry.file_name())?),
            Err(error) => if error.kind() == ErrorKind::InvalidFilename {
                Ok(None)
            } else {
                Err(error)
            },
        }
    }
}

// The path of a file in this folder.
fn path_in(alloc: Global, folder: &str, name: Name) -> Result<String, AllocError> {
    match name {
        Name::Ds(n) => format!(in alloc; "{folder}/tt.ds{n}"),
        Name::Log(n) => format!(in alloc; "{folder}/tt.log{n}"),
        Name::SetImage(n) => format!(in alloc; "{folder}/tt.set{n}.image"),
        Name::SetLog(n) => format!(in alloc; "{folder}/tt.set{n}.log"),
    }
}

// The number of the log whose file has exactly this name.
fn log_number(alloc: Global, name: &str) -> Result<Option<u32>, AllocError> {
    let Some(digits) = name.strip_prefix("tt.log") else {
        return Ok(None);
    };
    let Ok(number) = digits.parse::<u32>() else {
        return Ok(None);
    };
    let exact = format!(in alloc; "{number}")?;
    Ok(if exact.as_str() == digits {
        Some(number)
    } else {
        None
    })
}

// The least log so far, now that one of this number is there too.
fn lesser_log(number: u32, from: u32, least: Option<u32>) -> Option<u32>
    requires { IfSome least (λ n. from ≤ n) }
    ensures { IfSome result (λ n. from ≤ n) }
{
    match least {
        Some(other) if other <= number => least,
        _ => if number >= from { Some(number) } else { least },
    }
}

fn read_fully(file: &File, at: u64, buf: &mut [u8]) -> io::Result<usize>
    ensures { ReadsAtMost result buf.new }
{
    let mut filled = 0;
    for _ in 0..u64::MAX {
        if filled >= buf.len() {
            return Ok(filled);
        }
        match file.read_at(&mut buf[filled..], at.saturating_add(filled as u64)) {
            Ok(0) => return Ok(filled),
            Ok(n) => filled += n,
            Err(error) if error.kind() == ErrorKind::Interrupted => {}
            Err(error) => return Err(error),
        }
    }
    Err(io::Error::from(ErrorKind::Interrupted))
}

fn too_long() -> io::Error {
    io::Error::from(ErrorKind::FileTooLarge)
}

// Makes a folder and those above it where they aren't there, and syncs the folder above each.
fn make_folder(rt: &HostRuntime, path: &str) -> io::Result<()> {
    for end in 1..=path.len() {
        match path.split_at_checked(end) {
            Some((folder, rest)) if rest.is_empty() || rest.starts_with('/') => make_one_folder(
                rt, folder,
            )?,
            _ => {}
        }
    }
    Ok(())
}

// Makes this folder where it isn't there, and syncs the one above, which has its name. A folder that was there lies perhaps
// in one that this program may not open, or that its file system can't sync: then nothing was to be done.
fn make_one_folder(rt: &HostRuntime, folder: &str) -> io::Result<()> {
    let is_new = match fs::create_dir(rt, folder) {
        Ok(()) => true,
        Err(_) if Path::new(folder).is_dir(rt) => false,
        Err(error) => return Err(error),
    };
    let Some(above) = Path::new(folder).parent() else {
        return Ok(());
    };
    let above = if above.as_str().is_empty() {
        "."
    } else {
        above.as_str()
    };
    match sync_folder(rt, above) {
        Ok(()) => Ok(()),
        Err(error) => if !is_new && is_refusal(error.kind()) {
            Ok(())
        } else {
            Err(error)
        },
    }
}

fn sync_folder(rt: &HostRuntime, path: &str) -> io::Result<()> {
    fs::open(rt, path)?.sync_all()
}

fn is_refusal(kind: ErrorKind) -> bool {
    kind == ErrorKind::PermissionDenied || kind == ErrorKind::InvalidInput
}

#[cfg(test)]
mod tests {
    use super::*;
    use std::test::Fail;

    fn is_sent<V: Volume + Send>(_volume: &V) {}

    fn is_there(rt: &HostRuntime, path: &str) -> bool {
        Path::new(path).is_file(rt)
    }

    #[test]
    fn keeps_files_in_a_folder(rt: HostRuntime) -> Result<(), Fail> {
        let _ = fs::remove_dir_all(&rt, "made");
        let mut volume = DirVolume::new(rt, rt.alloc(), "made/logs")?;
        is_sent(&volume);
        let log = Name::Log(7);
        assert_eq!(rt; volume.size(log), Ok(None), "in no folder");
        assert_eq!(rt; volume.next_log(0), Ok(None), "in no folder");
        volume.create(log)?;
        assert_eq!(rt; volume.size(log), Ok(Some(0)));
        volume.write_at(log, 0, b"abcd")?;
        volume.write_at(log, 3, b"efg")?;
        volume.create(Name::SetImage(3))?;
        volume.create(Name::Ds(1))?;
        volume.create(Name::SetLog(3))?;
        volume.sync(log)?;
        for path in [
            "made/logs/tt.log7",
            "made/logs/tt.set3.image",
            "made/logs/tt.set3.log",
            "made/logs/tt.ds1",
        ] {
            assert!(rt; is_there(&rt, path), "{path}");
        }
        let mut buf = [0; 8];
        assert_eq!(rt; volume.read_at(log, 1, &mut buf), Ok(5), "past the end");
        assert_eq!(rt; buf, *b"bcefg\0\0\0");
        for path in [
            "made/logs/tt.log2x",
            "made/logs/tt.log+3",
            "made/logs/tt.log004",
            "made/logs/tt.log4294967296",
        ] {
            fs::write(&rt, path, "stray")?;
        }
        for (from, least) in [(0, Some(7)), (7, Some(7)), (8, None)] {
            assert_eq!(rt; volume.next_log(from), Ok(least), "from {from}");
        }
        volume.create(log)?;
        assert_eq!(rt; volume.size(log), Ok(Some(0)), "emptied");
        volume.remove(log)?;
        assert_eq!(rt; volume.size(log), Ok(None), "removed");
        assert_eq!(rt; volume.faults, 0);
        assert_eq!(rt;
            volume.read_at(log, 0, &mut buf),
            Err(Failed),
            "of a file that isn't there"
        );
        assert_eq!(rt; volume.faults, 1);
        fs::remove_dir_all(&rt, "made")?;
        Ok(())
    }
}
