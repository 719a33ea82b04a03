// What the workers wait by, and are woken by.

use crate::poller::Poller;
use mio::{Registry, Waker};
use std::alloc::Global;
use std::io;
use std::net::Net;

/// What tells of those who send, and by what others are woken.
#[derive(Drop)]
pub struct Driver {
    pub(crate) poller: Poller,
    // the connections
    pub(crate) registry: Registry,
    // wakes the thread that looks who has sent
    pub(crate) poll_waker: Waker,
    // wakes the accepting thread
    pub(crate) waker: Waker,
}

impl Driver {
    /// For no connection yet; the accepting thread is woken by this waker. An error where the system has
    /// no more of what it takes.
    pub fn new<N: Net>(net: &N, alloc: Global, waker: Waker) -> io::Result<Driver> {
        let poller = Poller::new(net, alloc)?;
        let registry = poller.registry()?;
        let poll_waker = poller.waker()?;
        Ok(Driver {
            poller,
            registry,
            poll_waker,
            waker,
        })
    }
}
