// The journal's file: who has it, what it leads to, and what is written behind that.
ghost use Rattle.std.specs.Prelude.{◌≡◌, OnOk};
ghost use Rattle.cql_core.specs.Machine.{opening};
ghost use Rattle.cql_journal.specs.Making.{WritesBatch};

use cql_core::TenantTable;
use cql_journal::{
    Batch, HEADING, Onlooker, Recovered, RecoveryFault, StateMachine, Unfit, UnfitRecord, recover,
};
use cql_wire::Watched;
use std::alloc::Global;
use std::fs::{File, Files, OpenOptions, TryLockError};
use std::io::{self, ErrorKind, Seek, SeekFrom, Write};
use std::time::{Clock, Duration, Instant};
use thiserror::Error;

// While it is read that is told every so many seconds.
const TOLD_EVERY: u64 = 1;

/// Why a journal can't be read (8, or 5 without memory), or not be written (9).
#[derive(Clone, Copy, Debug, Error)]
pub enum JournalFault {
    /// Its file can't be opened, locked, read or cut, for this reason.
    #[error("the journal can't be opened: {0}")]
    Opening(ErrorKind),
    /// Another server has it.
    #[error("the journal is in use")]
    InUse,
    /// It isn't one of this format.
    #[error("the journal is of another format")]
    OtherFormat,
    /// Behind so many bytes stands something else, and behind that a whole batch again.
    #[error("the journal is damaged behind byte {0}")]
    Damaged(u64),
    /// A record leads nowhere: its number, of which 1 is the first, and why.
    #[error("the journal is refused at record {at}: {why}")]
    Unfit { at: u64, why: &'static str },
    /// It has 2^64 - 1 bytes.
    #[error("the journal is too long")]
    Full,
    /// A write or a sync failed.
    #[error("writing the journal failed")]
    Writing,
    /// There was no memory to read it.
    #[error("no memory")]
    NoMemory,
}

impl From<io::Error> for JournalFault {
    fn from(error: io::Error) -> JournalFault {
        match error.kind() {
            ErrorKind::OutOfMemory => JournalFault::NoMemory,
            why => JournalFault::Opening(why),
        }
    }
}

impl From<RecoveryFault> for JournalFault {
    fn from(fault: RecoveryFault) -> JournalFault {
        match fault {
            RecoveryFault::OtherFormat => JournalFault::OtherFormat,
            RecoveryFault::Damaged(at) => JournalFault::Damaged(at),
            RecoveryFault::Failed => JournalFault::Opening(ErrorKind::Other),
            RecoveryFault::TooMany => JournalFault::Full,
            RecoveryFault::NoMemory => JournalFault::NoMemory,
            RecoveryFault::Record(
                UnfitRecord {
                    at: _,
                    unfit: Unfit::NoMemory,
                },
            ) => JournalFault::NoMemory,
            RecoveryFault::Record(UnfitRecord { at, unfit }) => JournalFault::Unfit {
                at: at.saturating_add(1),
                why: unfit.name(),
            },
        }
    }
}

// Tells how far the file is read, each second.
struct Reading<'a, R> {
    rt: &'a R,
    told: Option<Instant>,
    total: u64,
}

impl<R> Drop for Reading<'_, R> {
    fn drop(self) {
        let Reading {
            rt: _,
            told: _,
            total: _,
        } = self;
    }
}

impl<R: Clock + Eprint> Onlooker for Reading<'_, R> {
    fn tell(&mut self, records: u64, bytes: u64) {
        let Ok(now) = Instant::now(self.rt) else {
            return;
        };
        let told = *self.told.get_or_insert(now);
        if now.saturating_duration_since(told) >= Duration::from_secs(TOLD_EVERY) {
            self.told = Some(now);
            let total = self.total;
            let _ = eprintln!(self.rt;
                "cqld: the journal is read: {records} records, {bytes} of {total} bytes"
            );
        }
    }
}

/// A journal's file that this program has alone, and the batch that it gets next.
pub(crate) struct JournalFile {
    file: File,
    pub batch: Batch,
    // those of the last batch that was ended
    bytes: Vec<u8>,
}

impl Drop for JournalFile {
    fn drop(self) {
        let JournalFile {
            file: _,
            batch: _,
            bytes: _,
        } = self;
    }
}

impl JournalFile {
    /// Ends the batch and writes it, and returns once the system says that it is durable.
    pub(crate) fn write(&mut self) -> Result<(), JournalFault>
        ensures { OnOk result (WritesBatch self.old.batch self.new.bytes.items self.new.batch) }
    {
        if self.batch.close(&mut self.bytes).is_err() {
            return Err(JournalFault::Writing);
        }
        let written = self.file.write_all(self.bytes.as_slice());
        if written.is_ok() && self.file.sync_data().is_ok() {
            Ok(())
        } else {
            Err(JournalFault::Writing)
        }
    }
}

/// What a journal's file leads to: a machine, and the file, which goes on behind it.
pub(crate) struct Opened<M> {
    pub machine: M,
    pub file: JournalFile,
}

impl<M: Drop> Opened<M> {
    /// Both.
    pub(crate) fn into_parts(self) -> (M, JournalFile) {
        let Opened { machine, file } = self;
        (machine, file)
    }
}

impl<M: Drop> Drop for Opened<M> {
    fn drop(self) {
        let Opened {
            machine: _machine,
            file: _,
        } = self;
    }
}

/// Opens a journal's file, or makes a new one; has it alone; and steps the records of its whole batches on a
/// machine that is as the table opens. What isn't a whole batch at its end is cut off, and told.
pub(crate) fn open_journal<R, M>(
    rt: &R,
    alloc: Global,
    table: &TenantTable,
    machine: M,
    path: &str,
) -> Result<Opened<M>, JournalFault>
where
    R: Files<File = File> + Clock + Eprint,
    M: StateMachine,
    requires { M.state machine ≡ opening table.now }
{
    let file = locked(rt, path)?;
    let total = file.metadata()?.len();
    let mut machine = machine;
    let recovered = recovered(rt, alloc, table, &mut machine, &file, total)?;
    cut(rt, &file, recovered.bytes, total)?;
    sync_folder(rt, path)?;
    let file = JournalFile {
        file,
        batch: Batch::new(alloc, recovered.chain),
        bytes: Vec::new(alloc),
    };
    Ok(Opened { machine, file })
}

// A file that this program has alone, and that is made where there is none.
fn locked<R: Files<File = File>>(rt: &R, path: &str) -> Result<File, JournalFault> {
    let file = OpenOptions::new()
        .read(true)
        .write(true)
        .create(true)
        .open(rt, path)?;
    match file.try_lock() {
        Ok(()) => Ok(file),
        Err(TryLockError::WouldBlock) => Err(JournalFault::InUse),
        Err(TryLockError::Error(error)) => Err(JournalFault::from(error)),
    }
}

// Steps the records of a file of so many bytes, and tells each second how far that is.
fn recovered<R, M>(
    rt: &R,
    alloc: Global,
    table: &TenantTable,
    machine: &mut M,
    file: &File,
    total: u64,
) -> Result<Recovered, RecoveryFault>
where
    R: Clock + Eprint,
    M: StateMachine,
    requires { M.state machine.old ≡ opening table.now }
{
    let mut reading = Reading {
        rt,
        told: None,
        total,
    };
    recover(alloc, table, machine, &mut Watched::new(file), &mut reading)
}

// Cuts a file of so many bytes off behind its whole batches, begins it where there is no first line, and
// goes to its end.
fn cut<R: Eprint>(rt: &R, mut file: &File, bytes: u64, total: u64) -> io::Result<()> {
    if bytes < total {
        let left = total.saturating_sub(bytes);
        let _ = eprintln!(rt;
            "cqld: the last {left} bytes of the journal are no whole batch, and are cut off"
        );
        file.set_len(bytes)?;
    }
    file.seek(SeekFrom::Start(bytes))?;
    if bytes == 0 {
        file.write_all(&HEADING)?;
    }
    file.sync_all()
}

// Makes the name of a file durable.
fn sync_folder<R: Files<File = File>>(rt: &R, path: &str) -> io::Result<()> {
    let folder = match path.rfind('/') {
        Some(0) => "/",
        Some(end) => &path[..end],
        None => ".",
    };
    File::open(rt, folder)?.sync_all()
}
