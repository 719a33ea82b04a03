// A connection that never waits for long.
ghost use Rattle.std.specs.Prelude.{◌≡◌, ◌<◌, ◌&&◌, not, nat_lt, true, false};
ghost use Rattle.cql_sessions.specs.Unread.{unread_after};

use crate::connection::{Permit, WaitsFor};
use crate::session_state::Stage;
use crate::withheld::Withheld;
use cql_wire::{LineFault, ScriptError, Watched, write_fault};
use std::alloc::Global;
use std::io;
use std::io::{ErrorKind, Read, Write};
use std::net::{Shutdown, TcpStream};
use std::os::fd::{AsRawFd, RawFd};
use std::time::Duration;

// For so many microseconds a worker waits for the next bytes of a caller, or for the least time that
// the system knows.
const LINGER: u64 = 50;

// So many bytes a caller takes at once, if he takes any.
const SMALL: usize = 4096;

// How many turns a caller has before he is waited for, and again where he didn't send at once.
const PATIENCE: u8 = 16;

// So many bytes of replies are gathered at most, beside those of one turn.
const GATHERED: usize = 64 << 10;

/// An answer is short that takes fewer nanoseconds.
pub(crate) const BRIEF: u64 = 1_000_000;

/// Whether the connection can't take or give anything now.
pub(crate) fn is_later(error: &io::Error) -> bool {
    matches!(error.kind(), ErrorKind::WouldBlock | ErrorKind::Interrupted)
}

/// A connection that never waits for long, and what has gone through it.
pub struct Socket {
    pub(crate) stream: TcpStream,
    // what was read and isn't used yet
    pub(crate) unread: Vec<u8>,
    // what is to be written, of which so many bytes are
    pub(crate) unsent: Vec<u8>,
    pub(crate) sent: usize,
    // whether it takes nothing more now, so that what is to be written waits for room
    pub(crate) is_stuck: bool,
    // whether the answer to its caller's last fetch was short
    pub(crate) is_brief: bool,
    // how many nanoseconds the answer of its last turn took; 0 where that had none
    pub(crate) took: u64,
    // whether a read waits for a moment
    pub(crate) is_waiting: bool,
    // after so many turns it is waited for again
    patience: u8,
    // whether what is to be written waits until what it rests on is durable
    pub(crate) withheld: Withheld,
}

impl Drop for Socket {
    fn drop(self) {
        let Socket {
            stream: _,
            unread: _,
            unsent: _,
            sent: _,
            is_stuck: _,
            is_brief: _,
            took: _,
            is_waiting: _,
            patience: _,
            withheld: _,
        } = self;
    }
}

/// What came of a turn.
#[derive(Drop)]
pub(crate) enum Came {
    /// Nothing has come.
    Nothing,
    /// Nothing was asked for: more of a reply was told.
    Unasked,
    /// Something has, and what wasn't used before isn't yet.
    Unused,
    /// Something has, of which this isn't used yet.
    Rest(Vec<u8>),
    /// The same, and no more of it stood ready.
    Last(Vec<u8>),
}

impl Socket {
    /// One of which nothing has come. An error where the system can't hold it to the time of a
    /// moment.
    pub(crate) fn new(alloc: Global, stream: TcpStream) -> io::Result<Socket> {
        stream.set_nonblocking(true)?;
        let linger = Some(Duration::from_micros(LINGER));
        stream.set_read_timeout(linger)?;
        stream.set_write_timeout(linger)?;
        let _ = stream.set_nodelay(true);
        Ok(Socket {
            stream,
            unread: Vec::new(alloc),
            unsent: Vec::new(alloc),
            sent: 0,
            is_stuck: false,
            is_brief: false,
            took: 0,
            is_waiting: false,
            patience: PATIENCE,
            withheld: Withheld::new(),
        })
    }

    /// What the system knows it by.
    pub fn raw_fd(&self) -> RawFd {
        self.stream.as_raw_fd()
    }

    /// How many bytes are held back or not used yet.
    pub fn held(&self) -> usize {
        self.unsent.len().saturating_add(self.unread.len())
    }

    /// How many nanoseconds the answer of its last turn took; 0 where that had none.
    pub fn took(&self) -> u64
        ensures { result ≡ self.now.took }
    {
        self.took
    }

    /// Whether its caller mostly sends again at once.
    pub fn is_quick(&self) -> bool {
        self.patience == 0
    }

    /// Tells its caller that no more comes, before it is let go of: a thread that polls may hold it for a
    /// moment, and the system closes it only then.
    pub(crate) fn close(&self) {
        let _ = self.stream.shutdown(Shutdown::Both);
    }

    /// Tells want of memory, where it takes that.
    pub(crate) fn tell_no_memory(&self) {
        let _ = write_fault(&mut Watched::new(&self.stream), &LineFault::NoMemory);
    }

    /// What its turn may do: no read waits while replies do, for which its caller may wait.
    pub(crate) fn permitted(&self, permit: Permit) -> Permit
        ensures { result ≡ record { wait = permit.wait && not (nat_lt self.now.withheld.durable self.now.withheld.due); fetch = permit.fetch } }
    {
        Permit {
            wait: permit.wait && !self.withheld.holds(),
            fetch: permit.fetch,
        }
    }

    /// What its session needs first, where it can't go on at once. A read that comes next waits where
    /// it may.
    pub(crate) fn needs_first(
        &mut self,
        stage: Stage,
        permit: Permit,
    ) -> Result<Option<WaitsFor>, ScriptError> {
        let goes_on = self.gathers(stage) && (permit.fetch || !stage.is_held);
        if !goes_on && !self.send()? {
            return Ok(Some(self.hindrance()));
        }
        if stage.is_telling {
            return Ok(None);
        }
        if stage.is_over {
            return Ok(Some(WaitsFor::End(None)));
        }
        if stage.is_held && !permit.fetch {
            return Ok(Some(WaitsFor::Answer));
        }
        if self.unread.is_empty() && !stage.is_held {
            self.wait(permit.wait)?;
        }
        Ok(None)
    }

    // Whether replies wait for what they rest on, and nothing can be done meanwhile: nothing has come, or
    // replies are many.
    fn is_withheld(&self, stage: Stage, is_spent: bool) -> bool {
        self.withheld.holds() && !self.unsent.is_empty() && (is_spent || !self.gathers(stage))
    }

    /// What is waited for before more can be written.
    pub(crate) fn hindrance(&self) -> WaitsFor
        ensures { self.now.withheld.durable < self.now.withheld.due → result ≡ WaitsFor.Durable }
    {
        if self.withheld.holds() {
            WaitsFor::Durable
        } else {
            WaitsFor::Room
        }
    }

    /// Whether its caller may wait for replies that are withheld, since all that came of his lines is used.
    pub(crate) fn is_waited_for(&self, stage: Stage) -> bool {
        self.unread.is_empty() && !stage.is_held && self.withheld.holds()
    }

    /// What its session needs once it has had its turn, in which nothing had come or something had.
    pub(crate) fn needs(&self, stage: Stage, is_spent: bool) -> WaitsFor {
        if self.is_stuck {
            self.hindrance()
        } else if self.is_withheld(stage, is_spent) {
            WaitsFor::Durable
        } else if stage.is_telling {
            WaitsFor::Worker
        } else if stage.is_over {
            WaitsFor::End(None)
        } else if stage.is_held {
            WaitsFor::Answer
        } else if is_spent {
            WaitsFor::Bytes
        } else {
            WaitsFor::Worker
        }
    }

    /// Keeps what isn't used yet; or nothing has come, which may have been waited for.
    pub(crate) fn note(&mut self, came: Came, was_waited_for: bool)
        ensures same { self.new.unsent ≡ self.old.unsent }
        ensures unread { self.new.unread.items ≡ unread_after came self.old.unread.items }
    {
        match came {
            Came::Nothing => {
                if was_waited_for {
                    self.patience = PATIENCE;
                }
                return;
            }
            Came::Unasked => return,
            Came::Unused => {}
            Came::Rest(rest) | Came::Last(rest) => self.unread = rest,
        }
        self.patience = self.patience.saturating_sub(1);
    }

    /// From now on a read waits for a moment, or it doesn't.
    fn wait(&mut self, is_waiting: bool) -> Result<(), ScriptError> {
        if self.is_waiting != is_waiting {
            if self.stream.set_nonblocking(!is_waiting).is_err() {
                return Err(ScriptError::Read);
            }
            self.is_waiting = is_waiting;
        }
        Ok(())
    }

    /// Whether replies are gathered: where more of its lines stand ready, or a fetch whose answer is mostly
    /// short, or they wait for what they rest on, until they are many; but none while more of one is to come.
    pub(crate) fn gathers(&self, stage: Stage) -> bool
        ensures stuck { self.now.is_stuck ≡ true → result ≡ false }
        ensures over { stage.is_over ≡ true → result ≡ false }
        ensures telling { stage.is_telling ≡ true → result ≡ false }
    {
        let has_more = if stage.is_held {
            self.is_brief
        } else {
            !self.unread.is_empty() || self.withheld.holds()
        };
        has_more
            && !stage.is_over
            && !stage.is_telling
            && !self.is_stuck
            && self.unsent.len() < GATHERED
            && !self.withheld.is_far()
    }

    /// Writes once of what is held back or was gathered, without waiting for long, unless it rests on what
    /// isn't durable yet. Tells whether all is written.
    pub(crate) fn send(&mut self) -> Result<bool, ScriptError> {
        if self.unsent.is_empty() {
            return Ok(true);
        }
        if self.withheld.holds() {
            return Ok(false);
        }
        if self.is_stuck || self.unsent.len() > SMALL {
            self.wait(false)?;
        }
        self.is_stuck = true;
        let Some(rest) = self.unsent.as_slice().get(self.sent..) else {
            return Err(ScriptError::Write);
        };
        match (&self.stream).write(rest) {
            Ok(count) if count > 0 => self.sent = self.sent.saturating_add(count),
            Err(error) if is_later(&error) => return Ok(false),
            _ => return Err(ScriptError::Write),
        }
        if self.sent < self.unsent.len() {
            return Ok(false);
        }
        self.unsent.clear();
        self.sent = 0;
        self.is_stuck = false;
        Ok(true)
    }
}

/// The bytes that come next: what isn't used yet, or what one read gives, of which there are none at the
/// end; or nothing has come.
pub(crate) fn next_bytes<'a>(
    mut stream: &TcpStream,
    unread: &'a [u8],
    chunk: &'a mut [u8],
) -> Result<Option<&'a [u8]>, ScriptError> {
    if !unread.is_empty() {
        return Ok(Some(unread));
    }
    match stream.read(chunk) {
        Ok(count) => Ok(Some(&chunk[..count])),
        Err(error) if is_later(&error) => Ok(None),
        Err(_) => Err(ScriptError::Read),
    }
}

/// A writer that takes all: what the connection doesn't take at once is held back, or all is, behind
/// what was gathered before.
#[derive(Drop)]
pub(crate) struct Outbox<'a> {
    pub stream: &'a TcpStream,
    pub is_waiting: &'a mut bool,
    pub held: &'a mut Vec<u8>,
    pub sent: &'a mut usize,
    pub is_stuck: &'a mut bool,
    /// Whether all is held back.
    pub is_shut: bool,
    /// How many bytes it has taken.
    pub written: usize,
}

impl Write for Outbox<'_> {
    fn write(&mut self, buf: &[u8]) -> io::Result<usize> {
        self.written = self.written.saturating_add(buf.len());
        if !self.is_shut && !*self.is_stuck && !self.held.is_empty() {
            // what was gathered goes first
            *self.sent = match self.stream.write(self.held.as_slice()) {
                Err(error) if is_later(&error) => 0,
                told => told?,
            };
            if *self.sent < self.held.len() {
                *self.is_stuck = true;
            } else {
                self.held.clear();
                *self.sent = 0;
            }
        }
        if self.held.is_empty() && !self.is_shut {
            if *self.is_waiting && buf.len() > SMALL {
                self.stream.set_nonblocking(true)?;
                *self.is_waiting = false;
            }
            match self.stream.write(buf) {
                Err(error) if is_later(&error) => *self.is_stuck = true,
                told => return told,
            }
        }
        self.held.extend_from_slice(buf)?;
        Ok(buf.len())
    }

    fn flush(&mut self) -> io::Result<()> {
        Ok(())
    }
}
