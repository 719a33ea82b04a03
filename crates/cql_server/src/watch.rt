// What a server did of late, and who came and left.

use crate::log::LogLines;
use cql_core::{HeldStream, Standing, TenantId, TenantTable};
use cql_hall::{EndReason, Gate, Kind, Point};
use std::alloc::{AllocError, Global};
use std::fmt;
use std::net::Ipv4Addr;
use std::sync::Wait;
use std::sync::atomic::{AtomicU64, Ordering};
use std::time::{Clock, Instant};

// More than the greatest number of a refusal.
const NUMBERS: usize = 100;

// The most lines a second of callers who haven't logged in.
const STRANGERS: u64 = 20;

/// Counts what a server does, and tells it by its log, lines of JSON: each login, each login that was
/// refused and each session that has ended, as it comes; and every so many seconds how many sessions
/// are open and fetches under way, what was called and refused since the line before, how many answers
/// went on or began anew, and of these calls the longest time that one had the lock and that a fetch
/// took, in microseconds. Behind that it tells of each tenant of which of his streams rows are held, and what they take;
/// and, where he called or was refused something since then, what that was, how many of his fetches
/// were given up, and how far his query is behind that is the furthest. Of tenants it tells these names,
/// and nothing of what they send or are told.
/// Of callers who haven't logged in it tells so many lines a second, and how many more there were.
pub(crate) struct Watch<'a, R> {
    rt: &'a R,
    alloc: Global,
    table: &'a TenantTable,
    log: &'a LogLines,
    begun: Instant,
    // Every so many seconds; at 0 nothing is counted or told.
    every: u64,
    // The bits of the address and the port that are listened at, and 1 once that is told.
    ip: u32,
    port: u16,
    opened: AtomicU64,
    seconds: AtomicU64,
    // 1 where it is to be told how tenants stand
    wants: AtomicU64,
    // Lines of this second of callers who haven't logged in, those that weren't told too.
    strangers: AtomicU64,
    sessions: AtomicU64,
    fetches: AtomicU64,
    fetching: AtomicU64,
    // Answers by benches that went on, and by others.
    warm: AtomicU64,
    cold: AtomicU64,
    // When the call under the lock entered, and the longest such time, in nanoseconds.
    entered: AtomicU64,
    longest_lock: AtomicU64,
    longest_fetch: AtomicU64,
    // By the indices of kinds, by numbers, and how many fetches were given up: of each tenant, and behind
    // these of all.
    kinds: Vec<AtomicU64>,
    refusals: Vec<AtomicU64>,
    given_up: Vec<AtomicU64>,
}

impl<'a, R> Drop for Watch<'a, R> {
    fn drop(self) {
        let Watch {
            rt: _,
            alloc: _,
            table: _,
            log: _,
            begun: _,
            every: _,
            ip: _,
            port: _,
            opened: _,
            seconds: _,
            wants: _,
            strangers: _,
            sessions: _,
            fetches: _,
            fetching: _,
            warm: _,
            cold: _,
            entered: _,
            longest_lock: _,
            longest_fetch: _,
            kinds: _,
            refusals: _,
            given_up: _,
        } = self;
    }
}

// What the line of a session that has ended tells of why.
fn why(reason: EndReason) -> &'static str {
    match reason {
        EndReason::Caller => ",\"why\":\"caller\"",
        EndReason::Refused => ",\"why\":\"refused\"",
        EndReason::Login => ",\"why\":\"login\"",
        EndReason::Idle => ",\"why\":\"idle\"",
        EndReason::Places => ",\"why\":\"places\"",
        EndReason::Fault => ",\"why\":\"fault\"",
    }
}

// So many counts of nothing for each tenant and for all.
fn no_counts(
    alloc: Global,
    table: &TenantTable,
    each: usize,
) -> Result<Vec<AtomicU64>, AllocError> {
    let many = table.tenants().len().saturating_add(1).saturating_mul(each);
    let mut counts = Vec::with_capacity(alloc, many)?;
    for _ in 0..many {
        counts.push(AtomicU64::new(0))?;
    }
    Ok(counts)
}

// One more at an index.
fn count_at(counts: &[AtomicU64], index: usize) {
    if let Some(it) = counts.get(index) {
        count(it);
    }
}

// The count at an index, which begins anew.
fn taken_at(counts: &[AtomicU64], index: usize) -> u64 {
    match counts.get(index) {
        Some(count) => count.swap(0, Ordering::SeqCst),
        None => 0,
    }
}

// One more.
fn count(count: &AtomicU64) {
    count.fetch_add(1, Ordering::SeqCst);
}

impl<'a, R: Wait + Clock> Watch<'a, R> {
    /// One of a server at this address and port that tells every so many seconds, or never at 0; none
    /// where the clock can't be read or there is no memory.
    pub(crate) fn new(
        rt: &'a R,
        alloc: Global,
        table: &'a TenantTable,
        log: &'a LogLines,
        every: u32,
        ip: Ipv4Addr,
        port: u16,
    ) -> Option<Watch<'a, R>> {
        let Ok(begun) = Instant::now(rt) else {
            return None;
        };
        let Ok(kinds) = no_counts(alloc, table, Kind::ALL.len()) else {
            return None;
        };
        let Ok(refusals) = no_counts(alloc, table, NUMBERS) else {
            return None;
        };
        let Ok(given_up) = no_counts(alloc, table, 1) else {
            return None;
        };
        Some(Watch {
            rt,
            alloc,
            table,
            log,
            begun,
            every: u64::from(every),
            ip: ip.to_bits(),
            port,
            opened: AtomicU64::new(0),
            seconds: AtomicU64::new(0),
            wants: AtomicU64::new(0),
            strangers: AtomicU64::new(0),
            sessions: AtomicU64::new(0),
            fetches: AtomicU64::new(0),
            fetching: AtomicU64::new(0),
            warm: AtomicU64::new(0),
            cold: AtomicU64::new(0),
            entered: AtomicU64::new(0),
            longest_lock: AtomicU64::new(0),
            longest_fetch: AtomicU64::new(0),
            kinds,
            refusals,
            given_up,
        })
    }

    /// Whether the port was told, on standard output.
    pub(crate) fn has_opened(&self) -> bool {
        self.opened.load(Ordering::SeqCst) == 1
    }

    // Tells what happened of a tenant, whose name is null where there is none.
    fn tell(&self, event: &str, tenant: Option<TenantId>, more: &str) {
        let members = match self.name_of(tenant) {
            Some(name) => format!(in self.alloc; "\"{event}\":\"{name}\"{more}"),
            None => format!(in self.alloc; "\"{event}\":null{more}"),
        };
        self.log.tell(self.rt, members);
    }

    // Tells what happened of a caller who hasn't logged in, where not too much was told of such already.
    fn tell_stranger(&self, event: &str, tenant: Option<TenantId>, more: &str) {
        if self.strangers.fetch_add(1, Ordering::SeqCst) < STRANGERS {
            self.tell(event, tenant, more);
        }
    }

    // Tells how many lines weren't told of callers who hadn't logged in since that was asked last.
    fn tell_strangers(&self) {
        let untold = self
            .strangers
            .swap(0, Ordering::SeqCst)
            .saturating_sub(STRANGERS);
        if untold > 0 {
            let members = format!(in self.alloc; "\"strangers\":{untold}");
            self.log.tell(self.rt, members);
        }
    }

    fn name_of(&self, tenant: Option<TenantId>) -> Option<&str> {
        let tenant = self.table.tenants().get(tenant?.index())?;
        Some(tenant.name.as_str())
    }

    // The nanoseconds since it was made; 0 where the clock can't be read.
    fn now(&self) -> u64 {
        match self.begun.elapsed(self.rt) {
            Ok(gone) => u64::try_from(gone.as_nanos()).unwrap_or(u64::MAX),
            Err(_) => 0,
        }
    }

    // The call under the lock is about to let it go. Nobody else writes these numbers meanwhile.
    fn stepped(&self) {
        let took = self
            .now()
            .saturating_sub(self.entered.load(Ordering::SeqCst));
        if took > self.longest_lock.load(Ordering::SeqCst) {
            self.longest_lock.store(took, Ordering::SeqCst);
        }
    }

    // The place behind the tenants', where counts are of all.
    fn all(&self) -> usize {
        self.table.tenants().len()
    }

    // A call of a tenant begins.
    fn asked(&self, tenant: TenantId, kind: Kind) {
        self.count_call(self.all(), kind);
        self.count_call(tenant.index(), kind);
        if kind == Kind::Fetch {
            count(&self.fetching);
        }
    }

    // A line of a tenant is told a number.
    fn refused(&self, tenant: TenantId, number: u64) {
        self.count_refusal(self.all(), number as usize);
        self.count_refusal(tenant.index(), number as usize);
    }

    // One more call of who has this place.
    fn count_call(&self, place: usize, kind: Kind) {
        let first = place.saturating_mul(Kind::ALL.len());
        count_at(self.kinds.as_slice(), first.saturating_add(kind.index()));
    }

    // One more refusal by a number of who has this place.
    fn count_refusal(&self, place: usize, number: usize) {
        if number < NUMBERS {
            let first = place.saturating_mul(NUMBERS);
            count_at(self.refusals.as_slice(), first.saturating_add(number));
        }
    }

    // A fetch of a tenant was given up.
    fn gave_up(&self, tenant: TenantId) {
        count_at(self.given_up.as_slice(), tenant.index());
    }

    // The reply of a fetch is made that began then.
    fn fetched(&self, begun: u64) {
        self.fetching.fetch_sub(1, Ordering::SeqCst);
        let took = self.now().saturating_sub(begun);
        self.longest_fetch.fetch_max(took, Ordering::SeqCst);
    }

    // Tells the counts where it is time.
    fn second(&self) {
        self.tell_strangers();
        let seconds = self.seconds.fetch_add(1, Ordering::SeqCst).wrapping_add(1);
        if seconds < self.every {
            return;
        }
        self.seconds.store(0, Ordering::SeqCst);
        self.wants.store(1, Ordering::SeqCst);
        self.tell_counts();
    }

    // Tells the counts, which begin anew.
    fn tell_counts(&self) {
        let Ok((calls, commands)) = self.commands(self.all()) else {
            return;
        };
        let Ok(refused) = self.refusals(self.all()) else {
            return;
        };
        let Ok(numbers) = numbers_of(self.alloc, &self.numbers(calls)) else {
            return;
        };
        let members = format!(in self.alloc;
            "{numbers},\"commands\":{{{commands}}},\"refused\":{{{refused}}}"
        );
        self.log.tell(self.rt, members);
    }

    // Tells what a tenant called since that was told last, and how far the query of its own is behind that
    // is the furthest, where there is something to tell.
    fn tell_tenant(&self, tenant: TenantId, lag: u64) {
        let Ok((calls, commands)) = self.commands(tenant.index()) else {
            return;
        };
        let Ok(refused) = self.refusals(tenant.index()) else {
            return;
        };
        let given_up = taken_at(self.given_up.as_slice(), tenant.index());
        if calls == 0 && refused.is_empty() && lag == 0 {
            return;
        }
        if let Ok(more) = format!(in self.alloc;
            ",\"commands\":{{{commands}}},\"refused\":{{{refused}}},\"given_up\":{given_up},\"lag\":{lag}"
        ) {
            self.tell("tenant", Some(tenant), more.as_str());
        }
    }

    // Tells what is held of the streams of a tenant, where rows of some are.
    fn tell_held(&self, owner: TenantId, streams: &[HeldStream]) {
        if !streams.is_empty()
            && let Ok(rows) = held_of(self.alloc, streams)
        {
            self.tell("owner", Some(owner), rows.as_str());
        }
    }

    // How many calls there are of who has this place, and their counts by their kinds, without those of
    // which there are none. The counts begin anew.
    fn commands(&self, place: usize) -> Result<(u64, String), AllocError> {
        let first = place.saturating_mul(Kind::ALL.len());
        let mut calls: u64 = 0;
        let mut members = String::new(self.alloc);
        for kind in Kind::ALL.iter() {
            let count = taken_at(self.kinds.as_slice(), first.saturating_add(kind.index()));
            if count > 0 {
                calls = calls.saturating_add(count);
                push_member(&mut members, kind.word(), count)?;
            }
        }
        Ok((calls, members))
    }

    // The counts of refusals by their numbers of who has this place, without those of which there are
    // none, which begin anew.
    fn refusals(&self, place: usize) -> Result<String, AllocError> {
        let first = place.saturating_mul(NUMBERS);
        let mut members = String::new(self.alloc);
        for number in 0..NUMBERS {
            let count = taken_at(self.refusals.as_slice(), first.saturating_add(number));
            if count > 0 {
                push_member(&mut members, number, count)?;
            }
        }
        Ok(members)
    }

    // The line's numbers by their words; but for those of what is under way they begin anew.
    fn numbers(&self, calls: u64) -> [(&'static str, u64); 8] {
        [
            ("sessions", self.sessions.load(Ordering::SeqCst)),
            ("calls", calls),
            ("fetches", self.fetches.swap(0, Ordering::SeqCst)),
            ("fetching", self.fetching.load(Ordering::SeqCst)),
            ("warm", self.warm.swap(0, Ordering::SeqCst)),
            ("cold", self.cold.swap(0, Ordering::SeqCst)),
            (
                "lock_us",
                self.longest_lock.swap(0, Ordering::SeqCst) / 1000,
            ),
            (
                "answer_us",
                self.longest_fetch.swap(0, Ordering::SeqCst) / 1000,
            ),
        ]
    }
}

// Numbers by their words.
fn numbers_of(alloc: Global, numbers: &[(&'static str, u64)]) -> Result<String, AllocError> {
    let mut members = String::new(alloc);
    for (word, count) in numbers {
        push_member(&mut members, *word, *count)?;
    }
    Ok(members)
}

// Adds a member to the members of an object.
fn push_member<K: fmt::Display + Drop>(
    members: &mut String,
    key: K,
    count: u64,
) -> Result<(), AllocError> {
    let comma = if members.is_empty() { "" } else { "," };
    write!(members, "{comma}\"{key}\":{count}")
}

// The rows held of streams by their names, and about how many bytes these take.
fn held_of(alloc: Global, streams: &[HeldStream]) -> Result<String, AllocError> {
    let mut rows = String::new(alloc);
    let mut bytes = String::new(alloc);
    for stream in streams {
        push_member(&mut rows, stream.name.as_str(), stream.rows)?;
        push_member(&mut bytes, stream.name.as_str(), stream.bytes)?;
    }
    format!(in alloc; ",\"held\":{{{rows}}},\"bytes\":{{{bytes}}}")
}

impl<'a, R: Wait + Clock + Print + Sync> Gate for Watch<'a, R> {
    // Tells where it is listened, on standard output.
    fn opens(&self) -> bool {
        let ip = Ipv4Addr::from_bits(self.ip);
        let is_told = println!(self.rt; "listening on {ip}:{}", self.port).is_ok();
        if is_told {
            self.opened.store(1, Ordering::SeqCst);
        }
        is_told
    }

    fn at(&self, point: Point) {
        if self.every == 0 {
            return;
        }
        match point {
            Point::Opened => count(&self.sessions),
            Point::LoggedIn(tenant) => self.tell("login", Some(tenant), ""),
            Point::NotLoggedIn(tenant) => {
                self.count_refusal(self.all(), 13);
                self.tell_stranger("refused_login", tenant, "");
            }
            Point::Closed(tenant, reason) => {
                self.sessions.fetch_sub(1, Ordering::SeqCst);
                match tenant {
                    Some(_) => self.tell("ended", tenant, why(reason)),
                    None => self.tell_stranger("ended", None, why(reason)),
                }
            }
            Point::Asked(tenant, kind) => self.asked(tenant, kind),
            Point::Entered => self.entered.store(self.now(), Ordering::SeqCst),
            Point::Stepped => self.stepped(),
            Point::Pinned => count(&self.fetches),
            Point::Answered => {}
            Point::Fetched(begun) => self.fetched(begun),
            Point::Computed(true) => count(&self.warm),
            Point::Computed(false) => count(&self.cold),
            Point::Refused(tenant, number) => self.refused(tenant, number),
            Point::GivenUp(tenant) => self.gave_up(tenant),
            Point::Second => self.second(),
        }
    }

    fn nanos(&self) -> u64 {
        self.now()
    }

    fn wants_standing(&self) -> bool {
        self.wants.swap(0, Ordering::SeqCst) == 1
    }

    fn standing(&self, tenant: TenantId, standing: &Standing) {
        self.tell_held(tenant, standing.held.as_slice());
        self.tell_tenant(tenant, standing.lag);
    }
}
