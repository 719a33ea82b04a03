// What tells who has sent.

use mio::{Events, Poll, Registry, Token, Waker};
use std::alloc::Global;
use std::io::ErrorKind;
use std::net::Net;
use std::sync::Wait;
use std::time::{Clock, Duration};
use std::{io, thread};

// The most events of one look.
const EVENTS: usize = 1024;

// For how many milliseconds a thread sleeps where the system can't tell.
const PAUSE: u64 = 10;

// A token that is no caller's.
const WAKER: Token = Token(usize::MAX);

/// What tells who has sent. A thread has it while it looks, and no other does meanwhile.
pub(crate) struct Poller {
    poll: Poll,
    /// What the last look has told, by tokens of callers; and maybe of one that is none.
    pub(crate) events: Events,
}

impl Drop for Poller {
    fn drop(self) {
        let Poller { poll: _, events: _ } = self;
    }
}

impl Poller {
    /// One for no connection yet. An error where the system has no more of what it takes.
    pub(crate) fn new<N: Net>(net: &N, alloc: Global) -> io::Result<Poller> {
        Ok(Poller {
            poll: Poll::new(net)?,
            events: Events::with_capacity(alloc, EVENTS)?,
        })
    }

    /// The connections of which it tells.
    pub(crate) fn registry(&self) -> io::Result<Registry> {
        self.poll.registry().try_clone()
    }

    /// What ends a wait.
    pub(crate) fn waker(&self) -> io::Result<Waker> {
        Waker::new(self.poll.registry(), WAKER)
    }

    /// Looks who has sent since the last look; waits until someone has, if it may.
    pub(crate) fn look<R: Wait + Clock>(&mut self, rt: &R, may_wait: bool) {
        let within = if may_wait { None } else { Some(Duration::ZERO) };
        match self.poll.poll(&mut self.events, within) {
            Err(error) if error.kind() != ErrorKind::Interrupted => {
                thread::sleep(rt, Duration::from_millis(PAUSE));
            }
            _ => {}
        }
    }
}
