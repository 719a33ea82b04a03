// The callers who are connected: who waits, whose turn it is, and whose time has passed.
ghost use Rattle.std.specs.Prelude.{◌≡◌, ◌%◌, true, false, None, Err, IfSome};
ghost use Rattle.slab.specs.Slab.{get};

use crate::limits::Limits;
use crate::places::Places;
use crate::run_queue::{RunQueue, Task};
use cql_hall::EndReason;
use cql_sessions::Connected;
use cql_wire::ScriptError;
use mio::Token;
use slab::Slab;
use std::alloc::{AllocError, Global};
use std::collections::VecDeque;
use std::time::{Duration, Instant};

// How many bytes replies may weigh that one tenant's callers are told and haven't taken: while there are
// more, no answer is begun for the tenant.
const MOST_HELD: usize = 64 << 20;

// Who takes nothing for so many seconds is in the way of an answer that waits since too much is held.
const DEAF: u64 = 1;

// How many callers are looked at in a row.
const AT_ONCE: usize = 4096;

// After so many turns it is looked who has sent, though others wait.
const TURNS: u32 = 4;

// For so many seconds it is read of a caller whose login was refused.
const PARTING: u64 = 1;

// For so many milliseconds a caller has to log in where others wait for his place.
const CROWDED: u64 = 100;

// Keys are below this number.
const KEYS: usize = 1 << 32;

// The key of a token.
fn key_of(token: Token) -> usize
    ensures { result ≡ token.0 % KEYS }
{
    token.0 % KEYS
}

/// A connection whose turn it is, under its key.
#[derive(Drop)]
pub struct Turn<T> {
    pub key: usize,
    pub connection: Box<T>,
    // what it is told by, which nobody else was who had the key
    pub(crate) token: Token,
    // whether it is told of bytes, each time that they come
    pub(crate) is_listed: bool,
    // whose place it has, as owners of turns are numbered
    pub(crate) place: usize,
    // whether its tenant may have no further place, of which its caller is to be told
    pub(crate) is_above: bool,
}

impl<T: Connected> Turn<T> {
    /// Whose turn it is: 0 until its caller has logged in, and then one more than the index of the
    /// tenant.
    pub fn owner(&self) -> usize {
        match self.connection.tenant() {
            Some(tenant) => tenant.index().saturating_add(1),
            None => 0,
        }
    }

    /// Whether its caller has logged in and still has the place of one who hasn't.
    pub(crate) fn wants_place(&self) -> bool {
        self.place == 0 && self.connection.tenant().is_some() && !self.connection.is_refused()
    }

    /// Why its session has ended, by this fault if by one.
    pub(crate) fn reason(&self, fault: Option<ScriptError>) -> EndReason {
        match (fault, self.connection.tenant()) {
            (Some(_), _) => EndReason::Fault,
            (None, Some(_)) if self.connection.is_refused() => EndReason::Places,
            (None, None) if self.connection.is_refused() => EndReason::Refused,
            (None, _) => EndReason::Caller,
        }
    }

    /// Why its session ends where its time has passed.
    pub(crate) fn reason_of_late(&self) -> EndReason {
        match self.connection.tenant() {
            _ if self.connection.is_refused() => self.reason(None),
            Some(_) => EndReason::Idle,
            None => EndReason::Login,
        }
    }

    /// By which fault it ends where its caller has gone or its time has passed: as at a read that
    /// fails, but for one whose login was refused.
    pub(crate) fn fault_of_silence(&self) -> Option<ScriptError> {
        if self.connection.is_refused() {
            None
        } else {
            Some(ScriptError::Read)
        }
    }
}

// A caller who is connected: the connection unless it is at a worker or waits for one, since when it
// is waited for, what is held for it, by what it is told and whether of bytes, whose place it has,
// whether it was told of something since the connection's last turn began, whether the caller has
// gone meanwhile, and whether the connection waits for the end of a caller whose login was refused.
struct Slot<T> {
    connection: Option<Box<T>>,
    since: Instant,
    held: usize,
    token: Token,
    is_listed: bool,
    place: usize,
    is_called: bool,
    is_gone: bool,
    is_parting: bool,
}

impl<T: Drop> Drop for Slot<T> {
    fn drop(self) {
        let Slot {
            connection: _,
            since: _,
            held: _,
            token: _,
            is_listed: _,
            place: _,
            is_called: _,
            is_gone: _,
            is_parting: _,
        } = self;
    }
}

/// Where a connection was whose caller has gone.
#[derive(Drop)]
pub(crate) enum Gone<T> {
    /// Nobody is connected who is told of by that token.
    Nobody,
    /// It waited, for its caller or for a worker.
    Waited(Turn<T>),
    /// It is at a worker.
    Served(usize),
}

/// What a thread is to do next.
#[derive(Drop)]
pub(crate) enum Next<T> {
    /// Give a connection a turn.
    Turn(Task<Turn<T>>),
    /// Look who has sent.
    Look,
    /// Wait until someone has sent.
    WatchOut,
    /// Wait until it is called.
    Wait,
}

// A connection that waits until so many records of a journal's file are durable.
#[derive(Clone, Copy)]
struct Awaiting {
    token: Token,
    due: u64,
}

/// The callers who are connected, and what is left of those who were.
pub struct ConnectionTable<T, D> {
    limits: Limits,
    slots: Slab<Slot<T>>,
    places: Places,
    // how many callers have come
    came: usize,
    run_queue: RunQueue<Turn<T>>,
    // how many turns were taken since it was looked who has sent
    taken: u32,
    // how many bytes are held for each owner
    held: Vec<usize>,
    // where the look round goes on
    looked: usize,
    // who waits until so many records of a journal's file are durable, and how many that are
    awaiting: VecDeque<Awaiting>,
    durable: u64,
    ends: Vec<D>,
    is_whole: bool,
    // whether an answer waits that may be begun now, since less is held or what others took no longer counts
    is_freed: bool,
    /// Whether a thread looks who has sent.
    pub(crate) is_looked: bool,
    /// Whether workers are to end.
    pub is_closed: bool,
}

impl<T: Drop, D: Drop> Drop for ConnectionTable<T, D> {
    fn drop(self) {
        let ConnectionTable {
            limits: _,
            slots: _,
            places: _,
            came: _,
            run_queue: _,
            taken: _,
            held: _,
            looked: _,
            awaiting: _,
            durable: _,
            ends: _,
            is_whole: _,
            is_freed: _,
            is_looked: _,
            is_closed: _,
        } = self;
    }
}

impl<T: Connected<End = D>, D: Drop> ConnectionTable<T, D> {
    /// Nobody is connected. Owners are numbers below the given one. So many threads compute answers. There
    /// is room for so many ends.
    pub fn new(
        alloc: Global,
        limits: Limits,
        owners: usize,
        threads: usize,
        room: usize,
    ) -> Result<ConnectionTable<T, D>, AllocError> {
        let run_queue = RunQueue::new(alloc, owners, threads)?;
        let held = vec![in alloc; 0; owners]?;
        let ends = Vec::with_capacity(alloc, room)?;
        let tenants = owners.saturating_sub(1);
        let places = Places::new(alloc, limits.callers as usize, tenants)?;
        Ok(ConnectionTable {
            limits,
            slots: Slab::new(alloc),
            places,
            came: 0,
            run_queue,
            taken: 0,
            held,
            looked: 0,
            awaiting: VecDeque::new(alloc),
            durable: 0,
            ends,
            is_whole: true,
            is_freed: false,
            is_looked: false,
            is_closed: false,
        })
    }

    /// Whether nobody is connected.
    pub(crate) fn is_empty(&self) -> bool {
        self.slots.is_empty()
    }

    /// Whether no further caller has room.
    pub(crate) fn is_full(&self) -> bool {
        self.places.is_full()
    }

    /// Whether those who haven't logged in keep others out.
    pub(crate) fn is_crowded(&self) -> bool {
        self.places.is_crowded()
    }

    /// How much waits that a thread could do now. To look who has sent is such.
    pub(crate) fn waiting(&self) -> usize {
        let look = usize::from(!self.is_looked);
        self.run_queue.waiting().saturating_add(look)
    }

    /// Whether something waits that any thread could do now.
    pub(crate) fn has_more(&self) -> bool {
        !self.is_looked || self.run_queue.has_short()
    }

    /// What is to be done next, by a thread that computes answers or by one that doesn't.
    pub(crate) fn next(&mut self, computes: bool) -> Next<T> {
        if self.taken >= TURNS && !self.is_looked {
            self.begin_look();
            return Next::Look;
        }
        let Some(task) = self.run_queue.take(computes) else {
            if self.is_looked {
                return Next::Wait;
            }
            self.begin_look();
            return Next::WatchOut;
        };
        self.taken = self.taken.saturating_add(1);
        if let Some(slot) = self.slots.get_mut(task.item.key) {
            slot.is_called = false;
        }
        Next::Turn(task)
    }

    // A thread is to look who has sent.
    fn begin_look(&mut self) {
        self.is_looked = true;
        self.taken = 0;
    }

    /// The ends of all sessions; or there was no room for one.
    pub(crate) fn into_ends(self) -> Result<Vec<D>, AllocError> {
        let ConnectionTable {
            limits: _,
            slots: _,
            places: _,
            came: _,
            run_queue: _,
            taken: _,
            held: _,
            looked: _,
            awaiting: _,
            durable: _,
            ends,
            is_whole,
            is_freed: _,
            is_looked: _,
            is_closed: _,
        } = self;
        if is_whole { Ok(ends) } else { Err(AllocError) }
    }

    /// A connection has come of whose bytes it is told, and waits for its caller. The token by which
    /// it is told; or there was no memory.
    pub(crate) fn enter(
        &mut self,
        connection: Box<T>,
        since: Instant,
    ) -> Result<Token, AllocError> {
        let key = self.slots.vacant_key();
        let serial = self.came.wrapping_mul(KEYS);
        let token = Token(serial.wrapping_add(key));
        self.came = self.came.wrapping_add(1);
        let slot = Slot {
            connection: Some(connection),
            since,
            held: 0,
            token,
            is_listed: true,
            place: 0,
            is_called: false,
            is_gone: false,
            is_parting: false,
        };
        if self.slots.insert(slot).is_err() {
            return Err(AllocError);
        }
        self.places.enter();
        Ok(token)
    }

    /// Nobody is connected any more under this key.
    pub(crate) fn forget(&mut self, key: usize) {
        self.count(key, 0);
        if let Some(slot) = self.slots.try_remove(key) {
            match slot.place.checked_sub(1) {
                Some(tenant) => self.places.give_back(tenant),
                None => self.places.leave(),
            }
        }
    }

    // So many bytes are held for the caller of a key from now on, of whom it is counted whose place he has.
    fn count(&mut self, key: usize, held: usize) {
        let Some(slot) = self.slots.get_mut(key) else {
            return;
        };
        let owner = slot.place;
        let before = std::mem::replace(&mut slot.held, held);
        if before == held {
            return;
        }
        if let Some(all) = self.held.get_mut(owner) {
            *all = all.saturating_sub(before).saturating_add(held);
        }
        let is_held_up = !self.holds_little(owner);
        if self.run_queue.hold_up(owner, is_held_up) {
            self.is_freed = true;
        }
    }

    /// Whether an answer waits that may be begun now, since less is held or what others took no longer counts,
    /// where that wasn't asked before.
    pub(crate) fn take_freed(&mut self) -> bool {
        std::mem::replace(&mut self.is_freed, false)
    }

    /// Nobody is connected any more of whom it was to be told by this token.
    pub(crate) fn turn_away(&mut self, token: Token) {
        self.forget(key_of(token));
    }

    /// A connection whose caller has logged in has a place of its tenant's from now on, if that may
    /// have one more.
    pub(crate) fn seat(&mut self, turn: &mut Turn<T>)
        ensures connection { (turn.new.key ≡ turn.old.key) × (turn.new.connection ≡ turn.old.connection) }
    {
        let Some(tenant) = turn.connection.tenant() else {
            return;
        };
        self.count(turn.key, 0);
        let Some(slot) = self.slots.get_mut(turn.key) else {
            return;
        };
        if self.places.log_in(tenant.index()) {
            turn.place = turn.owner();
            slot.place = turn.place;
        } else {
            turn.is_above = true;
        }
    }

    /// The session of a key has ended, and how is kept.
    pub(crate) fn leave(&mut self, key: usize, end: Option<D>) {
        self.forget(key);
        if let Some(end) = end
            && self.ends.push(end).is_err()
        {
            self.is_whole = false;
        }
    }

    // Takes a connection that waits for its caller.
    fn leave_slot(&mut self, key: usize) -> Option<Turn<T>> {
        let slot = self.slots.get_mut(key)?;
        let Some(connection) = slot.connection.take() else {
            slot.is_called = true;
            return None;
        };
        Some(Turn {
            key,
            connection,
            token: slot.token,
            is_listed: slot.is_listed,
            place: slot.place,
            is_above: false,
        })
    }

    // The key of a token, where its caller is connected.
    fn key_now(&self, token: Token) -> Option<usize> {
        let key = key_of(token);
        let slot = self.slots.get(key)?;
        if slot.token == token { Some(key) } else { None }
    }

    /// Something has come for the connection of a token: it waits for a worker. Without memory for that
    /// it comes back.
    pub(crate) fn call(&mut self, token: Token) -> Result<(), Turn<T>> {
        let Some(key) = self.key_now(token) else {
            return Ok(());
        };
        match self.leave_slot(key) {
            Some(turn) => self.push(turn),
            None => Ok(()),
        }
    }

    /// The caller of a token has gone. The connection comes back if it waits, for him or for a worker;
    /// else the key, of a connection at a worker.
    pub(crate) fn go(&mut self, token: Token) -> Gone<T> {
        let Some(key) = self.key_now(token) else {
            return Gone::Nobody;
        };
        if let Some(turn) = self.leave_slot(key) {
            return Gone::Waited(turn);
        }
        let Some(slot) = self.slots.get_mut(key) else {
            return Gone::Nobody;
        };
        slot.is_gone = true;
        let is_it = |turn: &Turn<T>| turn.key == key;
        match self.run_queue.remove(slot.place, is_it) {
            Some(turn) => Gone::Waited(turn),
            None => Gone::Served(key),
        }
    }

    // Whether the caller of a key has gone.
    fn is_gone(&self, key: usize) -> bool
        ensures nobody { get self.now.slots key ≡ None → result ≡ false }
        ensures somebody { IfSome (get self.now.slots key) (λ slot. result ≡ slot.is_gone) }
    {
        self.slots.get(key).is_some_and(|slot| slot.is_gone)
    }

    /// A connection waits for a worker. Without memory for that it comes back, and where its caller has
    /// gone.
    pub(crate) fn push(&mut self, turn: Turn<T>) -> Result<(), Turn<T>>
        ensures gone { IfSome (get self.old.slots turn.key) (λ slot. slot.is_gone ≡ true → result ≡ Err turn) }
    {
        if self.is_gone(turn.key) {
            return Err(turn);
        }
        self.count(turn.key, turn.connection.held());
        self.run_queue.push_short(turn.place, turn)
    }

    /// A connection waits for a worker who may compute an answer. Without memory it comes back, and
    /// where its caller has gone.
    pub(crate) fn push_answer(&mut self, turn: Turn<T>) -> Result<(), Turn<T>>
        ensures gone { IfSome (get self.old.slots turn.key) (λ slot. slot.is_gone ≡ true → result ≡ Err turn) }
    {
        if self.is_gone(turn.key) {
            return Err(turn);
        }
        self.count(turn.key, turn.connection.held());
        self.run_queue.push_answer(turn.place, turn)
    }

    /// Whether an answer for a connection has to wait for others.
    pub(crate) fn has_to_wait(&self, turn: &Turn<T>) -> bool {
        self.run_queue.has_to_wait(turn.place)
    }

    /// Begins an answer for a connection, if it needn't wait and its caller hasn't gone. It has to
    /// wait while too much is held for its tenant's callers.
    pub(crate) fn begin_answer(&mut self, turn: &Turn<T>) -> bool
        ensures gone { IfSome (get self.old.slots turn.now.key) (λ slot. slot.is_gone ≡ true → result ≡ false) }
    {
        !self.is_gone(turn.key) && self.run_queue.begin_answer(turn.owner())
    }

    /// An answer for the owner has ended, and took so many nanoseconds.
    pub(crate) fn end_answer(&mut self, owner: usize, nanos: u64) {
        self.run_queue.end_answer(owner, nanos);
    }

    /// A connection that waits for its caller from now on; who waits for a worker where something has
    /// come meanwhile. It comes back without memory, and where its caller has gone.
    pub(crate) fn keep(&mut self, turn: Turn<T>, now: Option<Instant>) -> Result<(), Turn<T>>
        ensures gone { IfSome (get self.old.slots turn.key) (λ slot. slot.is_gone ≡ true → result ≡ Err turn) }
    {
        let Some(slot) = self.slots.get_mut(turn.key) else {
            return Err(turn);
        };
        if slot.is_gone {
            return Err(turn);
        }
        self.count(turn.key, turn.connection.held());
        let Some(slot) = self.slots.get_mut(turn.key) else {
            return Err(turn);
        };
        if slot.is_called {
            slot.is_called = false;
            return self.push(turn);
        }
        let is_parting = turn.connection.is_refused();
        let begins = if is_parting {
            !slot.is_parting
        } else {
            turn.connection.tenant().is_some()
        };
        if begins && let Some(now) = now {
            slot.since = now;
        }
        slot.is_parting = is_parting;
        slot.is_listed = turn.is_listed;
        slot.connection = Some(turn.connection);
        Ok(())
    }

    /// A connection that waits until what its replies rest on is durable; for a worker, where that is so by
    /// now or there is no memory. It comes back where its caller has gone.
    pub(crate) fn keep_until_durable(
        &mut self,
        turn: Turn<T>,
        now: Option<Instant>,
    ) -> Result<(), Turn<T>> {
        let awaiting = Awaiting {
            token: turn.token,
            due: turn.connection.due(),
        };
        if awaiting.due <= self.durable || self.awaiting.push_back(awaiting).is_err() {
            return self.push(turn);
        }
        self.keep(turn, now)
    }

    /// So many records of a journal's file are durable from now on.
    pub(crate) fn set_durable(&mut self, durable: u64) {
        self.durable = durable;
    }

    /// Takes one off those who wait for records, where what it waits for is durable.
    pub(crate) fn take_durable(&mut self) -> Option<Token> {
        let first = self.awaiting.front()?;
        if first.due > self.durable {
            return None;
        }
        let token = first.token;
        let _ = self.awaiting.pop_front();
        Some(token)
    }

    /// As long as too much is held for the owner's callers beside the connection of this turn, takes
    /// the connection of the one who has taken nothing for the longest of those who don't take all.
    pub(crate) fn take_deaf(&mut self, turn: &Turn<T>, deaf: &mut Vec<Turn<T>>) {
        let owner = turn.owner();
        self.count(turn.key, 0);
        for _ in 0..self.slots.len() {
            if self.holds_little(owner) || deaf.reserve(1).is_err() {
                return;
            }
            let Some((key, _)) = self.deaf(owner) else {
                return;
            };
            self.count(key, 0);
            if let Some(turn) = self.leave_slot(key) {
                deaf.push_reserved(turn);
            }
        }
    }

    /// Of each owner of whom an answer waits since too much is held for its callers, takes the
    /// connection of the one who has taken nothing for the longest, if that is a second.
    pub(crate) fn take_hindering(&mut self, now: Instant, deaf: &mut Vec<Turn<T>>) {
        for owner in 0..self.held.len() {
            if self.run_queue.waits_held_up(owner)
                && deaf.reserve(1).is_ok()
                && let Some((key, since)) = self.deaf(owner)
                && now.saturating_duration_since(since) >= Duration::from_secs(DEAF)
                && let Some(turn) = self.leave_slot(key)
            {
                deaf.push_reserved(turn);
            }
        }
    }

    fn holds_little(&self, owner: usize) -> bool {
        self.held.get(owner).is_none_or(|held| *held <= MOST_HELD)
    }

    // The owner's connection that has waited for the longest until its caller takes something, and
    // since when.
    fn deaf(&self, owner: usize) -> Option<(usize, Instant)> {
        let mut longest: Option<(usize, Instant)> = None;
        for key in 0..self.slots.capacity() {
            if let Some(slot) = self.slots.get(key)
                && slot.place == owner
                && slot.connection.is_some()
                && !slot.is_listed
                && longest.is_none_or(|(_, since)| slot.since < since)
            {
                longest = Some((key, slot.since));
            }
        }
        longest
    }

    /// Connections whose time has passed by now, of some callers in a row. It goes on with those the
    /// next time. Where others wait for their places, those who haven't logged in have little time. Some of
    /// what answers took no longer counts, whereupon one may be begun that waited for that: it is called ten
    /// times a second.
    pub(crate) fn take_late(&mut self, now: Instant, is_crowded: bool, late: &mut Vec<Turn<T>>) {
        self.run_queue.forgive();
        if self.run_queue.has_answer() {
            self.is_freed = true;
        }
        let first = self.looked;
        let end = self.slots.capacity();
        let last = end.min(first.saturating_add(AT_ONCE));
        self.looked = if last < end { last } else { 0 };
        for key in first..last {
            if self.is_late(now, key, is_crowded)
                && late.reserve(1).is_ok()
                && let Some(turn) = self.leave_slot(key)
            {
                late.push_reserved(turn);
            }
        }
    }

    // Whether a connection that is waited for has let its time pass.
    fn is_late(&self, now: Instant, key: usize, is_crowded: bool) -> bool {
        let Some(slot) = self.slots.get(key) else {
            return false;
        };
        let Some(connection) = &slot.connection else {
            return false;
        };
        let is_parting = slot.is_parting;
        let within = if connection.tenant().is_some() && !is_parting {
            self.limits.idle
        } else if is_crowded {
            Some(Duration::from_millis(CROWDED))
        } else if is_parting {
            Some(Duration::from_secs(PARTING))
        } else {
            earlier(self.limits.login, self.limits.idle)
        };
        match within {
            Some(within) => now.saturating_duration_since(slot.since) >= within,
            None => false,
        }
    }
}

fn earlier(a: Option<Duration>, b: Option<Duration>) -> Option<Duration> {
    match (a, b) {
        (Some(a), Some(b)) => Some(a.min(b)),
        (Some(a), None) => Some(a),
        (None, b) => b,
    }
}
