//! The volumes of a case: made with calls that are to fail, left by crashes, changed and looked at.
use crate::fault::Trouble;
use crate::model::{Change, Device};
use std::alloc::{AllocError, Global};
use tt_disk::{Failed, MemVolume, Name, Volume};

/// The three volumes of a database.
#[derive(Drop)]
pub struct Volumes {
    pub logs: MemVolume,
    pub images: MemVolume,
    pub backups: MemVolume,
}

/// The numbers of the calls of each volume that are to fail, counted from its making.
#[derive(Drop)]
pub struct FailingCalls {
    pub logs: Vec<u64>,
    pub images: Vec<u64>,
    pub backups: Vec<u64>,
}

impl FailingCalls {
    /// No call.
    pub fn new(alloc: Global) -> FailingCalls {
        FailingCalls {
            logs: Vec::new(alloc),
            images: Vec::new(alloc),
            backups: Vec::new(alloc),
        }
    }

    /// Keeps the calls that these volumes have had; answers whether there were others.
    pub fn keep_done(&mut self, volumes: &Volumes) -> bool {
        let before = self.count();
        self.logs.retain(|call| *call < volumes.logs.calls());
        self.images.retain(|call| *call < volumes.images.calls());
        self.backups.retain(|call| *call < volumes.backups.calls());
        self.count() < before
    }

    fn count(&self) -> usize {
        self.logs
            .len()
            .saturating_add(self.images.len())
            .saturating_add(self.backups.len())
    }

    /// The same calls.
    pub fn copy(&self, alloc: Global) -> Result<FailingCalls, AllocError> {
        Ok(FailingCalls {
            logs: self.logs.to_vec(alloc)?,
            images: self.images.to_vec(alloc)?,
            backups: self.backups.to_vec(alloc)?,
        })
    }
}

impl Volumes {
    /// Volumes with no files, of which no call fails.
    pub fn empty(alloc: Global) -> Volumes {
        Volumes {
            logs: MemVolume::new(alloc),
            images: MemVolume::new(alloc),
            backups: MemVolume::new(alloc),
        }
    }

    /// Volumes with no files.
    pub fn new(alloc: Global, failing: &FailingCalls) -> Result<Volumes, AllocError> {
        Ok(Volumes {
            logs: MemVolume::failing_at(alloc, failing.logs.to_vec(alloc)?),
            images: MemVolume::failing_at(alloc, failing.images.to_vec(alloc)?),
            backups: MemVolume::failing_at(alloc, failing.backups.to_vec(alloc)?),
        })
    }

    /// The volumes as a crash leaves them at this pick.
    pub fn left(
        &self,
        alloc: Global,
        pick: u64,
        failing: &FailingCalls,
    ) -> Result<Volumes, Trouble> {
        let mut volumes = Volumes::new(alloc, failing)?;
        copy_logs(alloc, &mut self.logs.leave(alloc, pick)?, &mut volumes.logs)?;
        copy_images(
            alloc,
            &mut self.images.leave(alloc, pick)?,
            &mut volumes.images,
        )?;
        // Without a call there is no set.
        if self.backups.calls() > 0 {
            let mut left = self.backups.leave(alloc, pick)?;
            copy_sets(alloc, &mut left, &mut volumes.backups)?;
        }
        Ok(volumes)
    }

    /// How many calls the volume of this device has had, and 0 of a stream.
    pub fn calls(&self, device: Device) -> u64 {
        match device {
            Device::Logs => self.logs.calls(),
            Device::Images => self.images.calls(),
            Device::Backups => self.backups.calls(),
            Device::Script | Device::Attributes | Device::Sink => 0,
        }
    }

    /// Changes a file, and syncs it; answers false where it isn't there or is too short.
    pub fn change(&mut self, alloc: Global, name: Name, change: &Change) -> Result<bool, Trouble> {
        match name {
            Name::Log(_) => change_file(alloc, &mut self.logs, name, change),
            Name::Ds(_) => change_file(alloc, &mut self.images, name, change),
            Name::SetImage(_) | Name::SetLog(_) => change_file(
                alloc,
                &mut self.backups,
                name,
                change,
            ),
        }
    }

    /// The bytes of a file, where it is there. The volumes stay as they are, their counts of calls included.
    pub fn read(&self, alloc: Global, name: Name) -> Result<Option<Vec<u8>>, Trouble> {
        let mut copy = match name {
            Name::Log(_) => self.logs.leave(alloc, 1)?,
            Name::Ds(_) => self.images.leave(alloc, 1)?,
            Name::SetImage(_) | Name::SetLog(_) => self.backups.leave(alloc, 1)?,
        };
        read_file(alloc, &mut copy, name)
    }
}

fn copy_logs<V: Volume, W: Volume>(alloc: Global, from: &mut V, to: &mut W) -> Result<(), Trouble> {
    let mut least = 0;
    for _ in 0..u32::MAX {
        match from.next_log(least)? {
            Some(number) => {
                copy_file(alloc, from, to, Name::Log(number))?;
                least = number.saturating_add(1);
            }
            None => return Ok(()),
        }
    }
    Ok(())
}

fn copy_images<V: Volume, W: Volume>(
    alloc: Global,
    from: &mut V,
    to: &mut W,
) -> Result<(), Trouble> {
    copy_file(alloc, from, to, Name::Ds(0))?;
    copy_file(alloc, from, to, Name::Ds(1))
}

fn copy_sets<V: Volume, W: Volume>(alloc: Global, from: &mut V, to: &mut W) -> Result<(), Trouble> {
    for set in 1..1000 {
        copy_file(alloc, from, to, Name::SetImage(set))?;
        copy_file(alloc, from, to, Name::SetLog(set))?;
    }
    Ok(())
}

fn copy_file<V: Volume, W: Volume>(
    alloc: Global,
    from: &mut V,
    to: &mut W,
    name: Name,
) -> Result<(), Trouble> {
    if let Some(bytes) = read_file(alloc, from, name)? {
        put_file(to, name, &bytes)?;
    }
    Ok(())
}

// The bytes of a file, where it is there.
fn read_file<V: Volume>(
    alloc: Global,
    volume: &mut V,
    name: Name,
) -> Result<Option<Vec<u8>>, Trouble> {
    let Some(size) = volume.size(name)? else {
        return Ok(None);
    };
    let mut bytes = vec![in alloc; 0; size as usize]?;
    volume.read_at(name, 0, &mut bytes)?;
    Ok(Some(bytes))
}

// Makes a file with these bytes, and syncs it.
fn put_file<V: Volume>(volume: &mut V, name: Name, bytes: &[u8]) -> Result<(), Failed> {
    volume.create(name)?;
    volume.write_at(name, 0, bytes)?;
    volume.sync(name)
}

fn change_file<V: Volume>(
    alloc: Global,
    volume: &mut V,
    name: Name,
    change: &Change,
) -> Result<bool, Trouble> {
    match change {
        Change::Set { at, bytes } => Ok(set_bytes(volume, name, *at, bytes)?),
        Change::Cut(length) => cut_file(alloc, volume, name, *length),
        Change::Put(bytes) => {
            put_file(volume, name, bytes)?;
            Ok(true)
        }
        Change::Remove => Ok(remove_file(volume, name)?),
    }
}

// Writes over a file's bytes from an offset on, where it has as many.
fn set_bytes<V: Volume>(volume: &mut V, name: Name, at: u64, bytes: &[u8]) -> Result<bool, Failed> {
    match volume.size(name)? {
        Some(size) if at <= size => {}
        _ => return Ok(false),
    }
    volume.write_at(name, at, bytes)?;
    volume.sync(name)?;
    Ok(true)
}

// Leaves so many bytes of a file that has more.
fn cut_file<V: Volume>(
    alloc: Global,
    volume: &mut V,
    name: Name,
    length: u64,
) -> Result<bool, Trouble> {
    let Some(bytes) = read_file(alloc, volume, name)? else {
        return Ok(false);
    };
    if length >= bytes.len() as u64 {
        return Ok(false);
    }
    put_file(volume, name, &bytes[..length as usize])?;
    Ok(true)
}

fn remove_file<V: Volume>(volume: &mut V, name: Name) -> Result<bool, Failed> {
    if volume.size(name)?.is_none() {
        return Ok(false);
    }
    volume.remove(name)?;
    Ok(true)
}
