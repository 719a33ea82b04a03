// The lines of the log, which a thread of their own writes on standard error.

use jiff::Timestamp;
use libc::net;
use libc::types::pollfd;
use std::alloc::{AllocError, Global};
use std::collections::VecDeque;
use std::fmt;
use std::sync::{Condvar, Mutex, Wait};
use std::time::Clock;

// The most lines that wait to be written.
const LINES: usize = 4096;

// For how many milliseconds it is waited at once that someone takes what is written.
const PAUSE: i32 = 100;

// How many such waits there are once no more lines come.
const LAST_PAUSES: u32 = 10;

/// When a line is told, by the system's clock; nothing where that can't be read.
#[derive(Clone, Copy)]
pub(crate) struct Stamp {
    at: Option<Timestamp>,
}

impl Stamp {
    pub(crate) fn now<R: Clock>(clock: &R) -> Stamp {
        Stamp {
            at: Timestamp::now(clock).ok(),
        }
    }
}

impl fmt::Display for Stamp {
    // The first member of a line, in UTC and milliseconds.
    fn fmt<W: fmt::Write>(&self, f: &mut fmt::Formatter<W>) -> fmt::Result {
        match self.at {
            Some(at) => write!(f, "\"at\":\"{at:.3}\""),
            None => f.write_str("\"at\":null"),
        }
    }
}

/// What waits to be written.
#[derive(Drop)]
struct Waiting {
    lines: VecDeque<String>,
    // how many lines there was no room for since that was told
    lost: u64,
    is_closed: bool,
}

impl Waiting {
    // A line is the last one that waits, or is lost where there is no room.
    fn push(&mut self, line: String) {
        if self.lines.len() >= LINES || self.lines.push_back(line).is_err() {
            self.lose();
        }
    }

    // There was no room for a line.
    fn lose(&mut self) {
        self.lost = self.lost.saturating_add(1);
    }
}

// What is to be written next.
#[derive(Drop)]
enum LogPiece {
    Line(String),
    // How many lines there was no room for.
    Lost(u64),
}

/// The lines that wait to be written. Who tells one waits for nobody who reads them: where too many
/// wait already it is counted, and how many were is told in a line of its own.
pub(crate) struct LogLines {
    alloc: Global,
    waiting: Mutex<Waiting>,
    // tells the thread that writes of a line, or that no more come
    called: Condvar,
}

impl Drop for LogLines {
    fn drop(self) {
        let LogLines {
            alloc: _,
            waiting: _,
            called: _,
        } = self;
    }
}

impl LogLines {
    /// Nothing waits.
    pub(crate) fn new(alloc: Global) -> LogLines {
        let waiting = Waiting {
            lines: VecDeque::new(alloc),
            lost: 0,
            is_closed: false,
        };
        LogLines {
            alloc,
            waiting: Mutex::new(waiting),
            called: Condvar::new(),
        }
    }

    /// Tells these members in a line of their own, with the time; or there was no memory for them.
    pub(crate) fn tell<R: Wait + Clock>(&self, rt: &R, members: Result<String, AllocError>) {
        let stamp = Stamp::now(rt);
        let made = match members {
            Ok(members) => format!(in self.alloc; "{{{stamp},{members}}}\n"),
            Err(error) => Err(error),
        };
        let mut waiting = self.waiting.lock(rt);
        match made {
            Ok(line) => waiting.push(line),
            Err(_) => waiting.lose(),
        }
        drop(waiting);
        self.called.notify_one();
    }

    /// No more lines come.
    pub(crate) fn close<R: Wait>(&self, rt: &R) {
        self.waiting.lock(rt).is_closed = true;
        self.called.notify_one();
    }

    // What is to be written next, once there is something; or none where no more comes.
    fn next<R: Wait>(&self, rt: &R) -> Option<LogPiece> {
        let mut waiting = self.waiting.lock(rt);
        for _ in rt.forever() {
            if waiting.lost > 0 {
                let lost = std::mem::replace(&mut waiting.lost, 0);
                return Some(LogPiece::Lost(lost));
            }
            if let Some(line) = waiting.lines.pop_front() {
                return Some(LogPiece::Line(line));
            }
            if waiting.is_closed {
                return None;
            }
            waiting = self.called.wait(rt, waiting);
        }
        None
    }

    /// Writes the lines as they come, until no more do. Of the last ones only those are written that
    /// someone takes within a second.
    pub(crate) fn write_on<R: Wait + Clock + Eprint>(&self, rt: &R) {
        let mut pauses = LAST_PAUSES;
        for _ in rt.forever() {
            let Some(piece) = self.next(rt) else {
                return;
            };
            if !self.has_room(rt, &mut pauses) {
                return;
            }
            write(rt, &piece);
        }
    }

    // Waits until standard error takes a line at once. It doesn't where no more lines come and so many
    // pauses have passed.
    fn has_room<R: Wait>(&self, rt: &R, pauses: &mut u32) -> bool {
        for _ in rt.forever() {
            if takes_a_line() {
                return true;
            }
            if self.waiting.lock(rt).is_closed {
                *pauses = pauses.saturating_sub(1);
                if *pauses == 0 {
                    return false;
                }
            }
        }
        false
    }
}

fn write<R: Clock + Eprint>(rt: &R, piece: &LogPiece) {
    // where it can't be written nobody can be told
    let _ = match piece {
        LogPiece::Line(line) => eprint!(rt; "{line}"),
        LogPiece::Lost(lost) => {
            let stamp = Stamp::now(rt);
            eprintln!(rt; "{{{stamp},\"lost\":{lost}}}")
        }
    };
}

// Waits for a moment until standard error takes a line at once; whether it does. A pipe that is ready takes
// 4,096 bytes, and no line has more. What isn't there or fails is ready too.
fn takes_a_line() -> bool {
    let mut asked = [pollfd {
        fd: libc::STDERR_FILENO,
        events: net::POLLOUT,
        revents: 0,
    }];
    net::poll(&mut asked, PAUSE) > 0
}
