// How the connection of a caller ends whose login was refused.

ghost use Rattle.std.specs.Prelude.{◌≡◌, ◌<◌, ◌≤◌};

use crate::connection::WaitsFor;
use crate::socket::is_later;
use std::io::Read;
use std::net::{Shutdown, TcpStream};

// The most bytes that are read of such a caller.
const MOST: usize = 4 << 20;

/// How far the connection of a caller has ended whose login was refused. He is told that nothing more
/// comes, and what he sends behind the login is read to its end and let go of: where a connection is
/// closed of which something is unread, the system resets it, and what he was told may be lost.
#[derive(Drop)]
pub(crate) struct Parting {
    has_begun: bool,
    // how many bytes more are read
    left: usize,
}

impl Parting {
    /// One that hasn't begun.
    pub(crate) fn new() -> Parting
        ensures { result.left ≡ MOST }
    {
        Parting {
            has_begun: false,
            left: MOST,
        }
    }

    /// Reads once, without waiting. Gives what the connection needs next.
    pub(crate) fn go_on(&mut self, mut stream: &TcpStream, chunk: &mut [u8]) -> WaitsFor
        ensures less { result ≡ WaitsFor.Worker → self.new.left < self.old.left }
        ensures no_more { self.new.left ≤ self.old.left }
    {
        if !self.has_begun {
            self.has_begun = true;
            let is_shut = stream.shutdown(Shutdown::Write).is_ok();
            if !is_shut || stream.set_nonblocking(true).is_err() {
                return WaitsFor::End(None);
            }
        }
        match stream.read(chunk) {
            Ok(count) if count > 0 && count < self.left => {
                self.left -= count;
                WaitsFor::Worker
            }
            Err(error) if is_later(&error) => WaitsFor::Bytes,
            _ => WaitsFor::End(None),
        }
    }
}
