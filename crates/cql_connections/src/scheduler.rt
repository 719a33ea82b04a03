// What the accepting thread and the workers share.
ghost use Rattle.std.specs.Prelude.{◌≡◌, ◌⊎◌, true, false, IfSome};

use crate::connection_table::{ConnectionTable, Gone, Next, Turn};
use crate::driver::Driver;
use crate::poller::Poller;
use crate::run_queue::Task;
use cql_benches::Answers;
use cql_hall::{EndReason, Gate, Point};
use cql_sessions::{Connected, Permit, WaitsFor};
use cql_wire::ScriptError;
use mio::unix::SourceFd;
use mio::{Interest, Registry, Token, Waker};
use std::alloc::{AllocError, Global};
use std::io;
use std::net::TcpStream;
use std::sync::atomic::{AtomicBool, AtomicUsize, Ordering};
use std::sync::{Condvar, Mutex, MutexGuard, Wait};
use std::time::{Clock, Instant};

/// The callers who are connected, and what tells of those who send.
pub struct Scheduler<'a, T, D> {
    alloc: Global,
    // what the threads compute
    answers: &'a Answers,
    // whether calls are kept
    is_kept: bool,
    connections: Mutex<ConnectionTable<T, D>>,
    // tells workers that something waits for them
    called: Condvar,
    // how much waits for workers
    waiting: AtomicUsize,
    // tells who has sent
    poller: Mutex<Poller>,
    registry: Registry,
    // wakes the thread that looks who has sent
    poll_waker: Waker,
    // wakes the accepting thread
    waker: Waker,
    // whether the accepting thread is to end
    is_given_up: AtomicBool,
}

impl<T: Drop, D: Drop> Drop for Scheduler<'_, T, D> {
    fn drop(self) {
        let Scheduler {
            alloc: _,
            answers: _,
            is_kept: _,
            connections: _,
            called: _,
            waiting: _,
            poller: _,
            registry: _,
            poll_waker: _,
            waker: _,
            is_given_up: _,
        } = self;
    }
}

impl<'a, T: Connected<End = D>, D: Drop> Scheduler<'a, T, D> {
    /// Nobody is connected. Calls are kept or aren't. The threads compute these answers.
    pub fn new(
        alloc: Global,
        answers: &'a Answers,
        is_kept: bool,
        connections: ConnectionTable<T, D>,
        driver: Driver,
    ) -> Scheduler<'a, T, D> {
        let Driver {
            poller,
            registry,
            poll_waker,
            waker,
        } = driver;
        Scheduler {
            alloc,
            answers,
            is_kept,
            connections: Mutex::new(connections),
            called: Condvar::new(),
            waiting: AtomicUsize::new(0),
            poller: Mutex::new(poller),
            registry,
            poll_waker,
            waker,
            is_given_up: AtomicBool::new(false),
        }
    }

    /// The ends of all sessions; or there was no room for one.
    pub fn into_ends(self) -> Result<Vec<D>, AllocError> {
        let Scheduler {
            alloc: _,
            answers: _,
            is_kept: _,
            connections,
            called: _,
            waiting: _,
            poller: _,
            registry: _,
            poll_waker: _,
            waker: _,
            is_given_up: _,
        } = self;
        connections.into_inner().into_ends()
    }

    /// Whether nobody is connected.
    pub fn is_empty<R: Wait>(&self, rt: &R) -> bool {
        self.connections.lock(rt).is_empty()
    }

    /// Whether no further caller has room.
    pub fn is_full<R: Wait>(&self, rt: &R) -> bool {
        self.connections.lock(rt).is_full()
    }

    /// Whether callers who haven't logged in keep others out.
    pub fn is_crowded<R: Wait>(&self, rt: &R) -> bool {
        self.connections.lock(rt).is_crowded()
    }

    // Whether something waits for a worker.
    fn is_waited_for(&self) -> bool {
        self.waiting.load(Ordering::SeqCst) > 0
    }

    /// Ends the workers, each once it has ended its turn.
    pub fn close<R: Wait>(&self, rt: &R) {
        self.connections.lock(rt).is_closed = true;
        self.called.notify_all();
        let _ = self.poll_waker.wake();
    }

    /// The accepting thread is to end, and no further session is served.
    pub fn give_up(&self) {
        self.is_given_up.store(true, Ordering::SeqCst);
        let _ = self.waker.wake();
    }

    /// Whether the accepting thread is to end.
    pub fn is_given_up(&self) -> bool {
        self.is_given_up.load(Ordering::SeqCst)
    }

    /// So many records of a journal's file are durable from now on: whose replies rest on these waits for a
    /// worker.
    pub fn make_durable<R: Wait, G: Gate>(&self, rt: &R, gate: &G, durable: u64) {
        let mut connections = self.connections.lock(rt);
        connections.set_durable(durable);
        for _ in rt.forever() {
            let Some(token) = connections.take_durable() else {
                break;
            };
            if let Err(turn) = connections.call(token) {
                drop(connections);
                self.end_gone(rt, gate, turn);
                connections = self.connections.lock(rt);
            }
        }
        self.waiting.store(connections.waiting(), Ordering::SeqCst);
        let is_looked = connections.is_looked;
        drop(connections);
        self.called.notify_one();
        if is_looked {
            // who looks may be the only one who is free
            let _ = self.poll_waker.wake();
        }
    }

    /// Lets a caller in, and waits for its first bytes.
    pub fn let_in<R: Wait + Clock, G: Gate>(
        &self,
        rt: &R,
        gate: &G,
        stream: TcpStream,
    ) -> io::Result<()> {
        let since = Instant::now(rt)?;
        let connection = Box::new(self.alloc, T::new(self.alloc, stream, self.is_kept)?)?;
        let fd = connection.socket().raw_fd();
        let token = self.connections.lock(rt).enter(connection, since)?;
        let told = self
            .registry
            .register(&mut SourceFd(&fd), token, Interest::READABLE);
        if told.is_ok() {
            gate.at(Point::Opened);
        } else {
            self.connections.lock(rt).turn_away(token);
        }
        told
    }

    /// The next connection whose turn it is, once there is one, at a thread of this index that computes
    /// answers or at one that doesn't; or none where the workers are to end. The thread may look who has
    /// sent.
    pub fn next<R: Wait + Clock, G: Gate>(
        &self,
        rt: &R,
        gate: &G,
        thread: usize,
        computes: bool,
    ) -> Option<Task<Turn<T>>> {
        let mut connections = self.connections.lock(rt);
        for _ in rt.forever() {
            if connections.is_closed {
                return None;
            }
            let next = connections.next(computes);
            self.waiting.store(connections.waiting(), Ordering::SeqCst);
            match next {
                Next::Turn(task) => {
                    if task.is_answer {
                        self.answers.attend(rt, thread, task.item.key);
                    }
                    if connections.has_more() {
                        self.called.notify_one();
                    }
                    return Some(task);
                }
                Next::Look => {
                    drop(connections);
                    connections = self.look(rt, gate, false);
                }
                Next::WatchOut => {
                    drop(connections);
                    connections = self.look(rt, gate, true);
                }
                Next::Wait => connections = self.called.wait(rt, connections),
            }
        }
        None
    }

    // Looks who has sent, or waits until someone has, and has them wait for workers. A session for
    // which there is no memory ends.
    fn look<R: Wait + Clock, G: Gate>(
        &self,
        rt: &R,
        gate: &G,
        may_wait: bool,
    ) -> MutexGuard<'_, ConnectionTable<T, D>> {
        let mut poller = self.poller.lock(rt);
        poller.look(rt, may_wait);
        let mut connections = self.connections.lock(rt);
        for event in &poller.events {
            let token = event.token();
            let ended = if event.is_error() || event.is_write_closed() {
                self.let_go(rt, &mut connections, token)
            } else {
                connections.call(token)
            };
            if let Err(turn) = ended {
                drop(connections);
                self.end_gone(rt, gate, turn);
                connections = self.connections.lock(rt);
            }
        }
        connections.is_looked = false;
        connections
    }

    // Ends the session of a caller who has gone, or for whom there is no memory.
    fn end_gone<R: Wait, G: Gate>(&self, rt: &R, gate: &G, turn: Turn<T>) {
        let fault = turn.fault_of_silence();
        let reason = turn.reason(fault);
        self.end(rt, gate, turn, fault, reason);
    }

    // The caller of a token has gone. A connection that waits comes back; an answer that is computed for
    // him is given up.
    fn let_go<R: Wait>(
        &self,
        rt: &R,
        connections: &mut ConnectionTable<T, D>,
        token: Token,
    ) -> Result<(), Turn<T>> {
        match connections.go(token) {
            Gone::Nobody => Ok(()),
            Gone::Waited(turn) => Err(turn),
            Gone::Served(key) => {
                self.answers.give_up(rt, key);
                Ok(())
            }
        }
    }

    /// What a worker of this index may do next for a connection that has had a turn, if it goes on
    /// with the connection: answer the fetch that waits, where it computes answers; or lines, of one
    /// who needs a worker or bytes. An answer that it computed has ended. Who has logged in has a
    /// place of its tenant's, or is to be told that it may have none.
    pub fn goes_on<R: Wait>(
        &self,
        rt: &R,
        turn: &mut Turn<T>,
        needs: WaitsFor,
        last: Permit,
        thread: usize,
        computes: bool,
    ) -> Option<Permit>
        ensures connection { (turn.new.key ≡ turn.old.key) × (turn.new.connection ≡ turn.old.connection) }
        ensures fetch { IfSome result (λ permit. permit.fetch ≡ true → (computes ≡ true) × (needs ≡ WaitsFor.Answer)) }
        ensures short { IfSome result (λ permit. permit.fetch ≡ false → (needs ≡ WaitsFor.Worker) ⊎ (needs ≡ WaitsFor.Bytes)) }
    {
        if last.fetch {
            self.end_answer(rt, turn, thread);
        }
        if turn.wants_place() && !matches!(needs, WaitsFor::End(_)) {
            self.connections.lock(rt).seat(turn);
            if turn.is_above {
                return None;
            }
        }
        match needs {
            WaitsFor::Answer if computes && self.begin_answer(rt, turn, thread) => Some(Permit {
                fetch: true,
                wait: false,
            }),
            WaitsFor::Worker if !self.is_waited_for() => Some(Permit {
                fetch: false,
                wait: last.wait,
            }),
            WaitsFor::Bytes if self.may_wait_for(turn) => {
                self.unlist(turn);
                Some(Permit {
                    fetch: false,
                    wait: true,
                })
            }
            _ => None,
        }
    }

    // Whether a worker may wait a moment for the connection's caller, who mostly sends again at once.
    fn may_wait_for(&self, turn: &Turn<T>) -> bool {
        turn.connection.socket().is_quick()
            && !turn.connection.is_refused()
            && !self.is_waited_for()
    }

    // Begins an answer for the connection at the thread of this index, if it needn't wait.
    fn begin_answer<R: Wait>(&self, rt: &R, turn: &Turn<T>, thread: usize) -> bool {
        let mut connections = self.connections.lock(rt);
        let has_begun = connections.begin_answer(turn);
        if has_begun {
            self.answers.attend(rt, thread, turn.key);
        }
        has_begun
    }

    // An answer for the connection by the thread of this index has ended.
    fn end_answer<R: Wait>(&self, rt: &R, turn: &Turn<T>, thread: usize) {
        self.answers.leave(rt, thread);
        let took = turn.connection.socket().took();
        let mut connections = self.connections.lock(rt);
        connections.end_answer(turn.owner(), took);
        self.waiting.store(connections.waiting(), Ordering::SeqCst);
    }

    // From now on it isn't told what comes for the connection, but still where its caller has gone.
    fn unlist(&self, turn: &mut Turn<T>)
        ensures connection { (turn.new.key ≡ turn.old.key) × (turn.new.connection ≡ turn.old.connection) }
    {
        if turn.is_listed {
            turn.is_listed = self.listen(turn, Interest::PRIORITY).is_err();
        }
    }

    // From now on it is told that there is what the connection needs, now or later: of room once, of
    // bytes each time that they come behind a read that found none.
    fn list(&self, turn: &mut Turn<T>, needs: WaitsFor) -> io::Result<()> {
        let wants_room = needs == WaitsFor::Room;
        if turn.is_listed && !wants_room {
            return Ok(());
        }
        let interest = if wants_room {
            Interest::WRITABLE
        } else {
            Interest::READABLE
        };
        self.listen(turn, interest)?;
        turn.is_listed = !wants_room;
        Ok(())
    }

    // From now on it is told this of the connection's caller, and where he has gone.
    fn listen(&self, turn: &Turn<T>, interest: Interest) -> io::Result<()> {
        let fd = turn.connection.socket().raw_fd();
        self.registry
            .reregister(&mut SourceFd(&fd), turn.token, interest)
    }

    /// Takes back a connection that has had a turn, and ends its session where it needs nothing more.
    pub fn take_back<R: Wait + Clock, G: Gate>(
        &self,
        rt: &R,
        gate: &G,
        turn: Turn<T>,
        needs: WaitsFor,
    ) {
        let mut turn = turn;
        let is_above = std::mem::replace(&mut turn.is_above, false);
        let needs = if is_above { WaitsFor::Worker } else { needs };
        let refused = match needs {
            WaitsFor::End(fault) => {
                let reason = turn.reason(fault);
                return self.end(rt, gate, turn, fault, reason);
            }
            WaitsFor::Worker => {
                turn.connection.settle(self.alloc, is_above);
                self.push(rt, turn)
            }
            WaitsFor::Answer => self.push_answer(rt, turn),
            WaitsFor::Bytes | WaitsFor::Room | WaitsFor::Durable => {
                self.keep(rt, gate, turn, needs)
            }
        };
        if let Err(turn) = refused {
            self.end_gone(rt, gate, turn);
        }
    }

    // Has a connection wait for a worker.
    fn push<R: Wait>(&self, rt: &R, turn: Turn<T>) -> Result<(), Turn<T>> {
        let mut connections = self.connections.lock(rt);
        let pushed = connections.push(turn);
        self.call_freed(&mut connections);
        pushed
    }

    // Where an answer may be begun now, since less is held or what others took no longer counts, whoever could
    // compute it is woken.
    fn call_freed(&self, connections: &mut ConnectionTable<T, D>) {
        if connections.take_freed() {
            self.called.notify_all();
            let _ = self.poll_waker.wake();
        }
    }

    // Has a connection wait for a worker who may compute an answer.
    fn push_answer<R: Wait>(&self, rt: &R, turn: Turn<T>) -> Result<(), Turn<T>> {
        let mut turn = turn;
        let mut connections = self.connections.lock(rt);
        if connections.has_to_wait(&turn) {
            drop(connections);
            turn.connection.settle(self.alloc, false);
            connections = self.connections.lock(rt);
        }
        let pushed = connections.push_answer(turn);
        let is_looked = connections.is_looked;
        drop(connections);
        self.called.notify_one();
        if is_looked {
            // who looks may be the only one who is free to compute it
            let _ = self.poll_waker.wake();
        }
        pushed
    }

    // Keeps a connection until what it needs has come. Where too much is held already for callers of
    // its tenant, the session ends of who has taken nothing for the longest.
    fn keep<R: Wait + Clock, G: Gate>(
        &self,
        rt: &R,
        gate: &G,
        turn: Turn<T>,
        needs: WaitsFor,
    ) -> Result<(), Turn<T>> {
        let mut turn = turn;
        turn.connection.rest();
        if self.list(&mut turn, needs).is_err() {
            return Err(turn);
        }
        let now = Instant::now(rt).ok();
        if needs == WaitsFor::Room {
            self.end_deaf(rt, gate, &turn);
        }
        let mut connections = self.connections.lock(rt);
        let kept = if needs == WaitsFor::Durable {
            connections.keep_until_durable(turn, now)
        } else {
            connections.keep(turn, now)
        };
        self.call_freed(&mut connections);
        kept
    }

    // Ends sessions of the tenant's callers who don't take what is held, as long as that is too much beside
    // what is held for the connection of this turn.
    fn end_deaf<R: Wait, G: Gate>(&self, rt: &R, gate: &G, turn: &Turn<T>) {
        let mut deaf = Vec::new(self.alloc);
        self.connections.lock(rt).take_deaf(turn, &mut deaf);
        self.end_all(rt, gate, deaf);
    }

    // Ends these sessions, as at a write that fails.
    fn end_all<R: Wait, G: Gate>(&self, rt: &R, gate: &G, run_queue: Vec<Turn<T>>) {
        for turn in run_queue {
            self.end(rt, gate, turn, Some(ScriptError::Write), EndReason::Fault);
        }
    }

    /// Ends a session, for this reason. The accepting thread is told, since there is room for one
    /// more.
    pub(crate) fn end<R: Wait, G: Gate>(
        &self,
        rt: &R,
        gate: &G,
        turn: Turn<T>,
        fault: Option<ScriptError>,
        reason: EndReason,
    ) {
        let Turn {
            key,
            connection,
            token: _,
            is_listed: _,
            place: _,
            is_above: _,
        } = turn;
        let tenant = connection.tenant();
        let end = Box::into_inner(connection).leave(self.alloc, fault);
        let mut connections = self.connections.lock(rt);
        connections.leave(key, end);
        self.call_freed(&mut connections);
        drop(connections);
        gate.at(Point::Closed(tenant, reason));
        let _ = self.waker.wake();
    }

    /// Ends the sessions of some of those whose time has passed: it is called ten times a second. Where others wait for their places,
    /// those who haven't logged in have little time. Where answers of a tenant wait since too much is held
    /// for its callers, the session ends of the one who has taken nothing for the longest.
    pub fn look_round<R: Wait + Clock, G: Gate>(&self, rt: &R, gate: &G, is_crowded: bool) {
        let Ok(now) = Instant::now(rt) else {
            return;
        };
        let mut late = Vec::new(self.alloc);
        let mut deaf = Vec::new(self.alloc);
        let mut connections = self.connections.lock(rt);
        connections.take_late(now, is_crowded, &mut late);
        connections.take_hindering(now, &mut deaf);
        self.call_freed(&mut connections);
        drop(connections);
        self.end_all(rt, gate, deaf);
        for turn in late {
            let (fault, reason) = (turn.fault_of_silence(), turn.reason_of_late());
            self.end(rt, gate, turn, fault, reason);
        }
    }
}
