// A session between two pieces of its input.
ghost use Rattle.std.specs.Prelude.{◌≡◌, ◌≢◌, ◌≤◌, ◌++◌, ◌||◌, List, ℕ, [], true, false, None, IfSome, IfOk, OnOk, OnErr, ◌⊎◌, Some, is_none, length, min, take, option_map};
ghost use Rattle.std.specs.Option.{ForSome};
ghost use Rattle.cql_sessions.specs.Tallies.{Tallies};

use crate::callable::Callable;
use crate::caller::{Caller, LineOutcome, Service};
use crate::login::{answer_login, named_in};
use crate::sessions::SessionEnd;
use cql_core::{Evaluator, TenantId};
use cql_hall::{Gate, Point};
use cql_lines::Intake;
use cql_wire::{ReplyBuffer, Scratch, ScriptError, Watched};
use std::alloc::Global;
use std::io::Write;
use std::sync::Wait;

/// A session as far as its input has come: who has logged in, and the line that isn't answered
/// yet.
pub(crate) struct SessionState {
    pub caller: Option<Caller>,
    pub intake: Intake,
    /// Whether its calls are kept.
    pub is_kept: bool,
    // whether what is told of fetches is told bit by bit
    is_bitwise: bool,
    /// Whether the line is whole: a fetch that waits to be answered. No bytes are taken before it is.
    pub is_held: bool,
    /// Whether nothing more comes.
    pub is_ended: bool,
    /// Whether no more is answered.
    pub is_over: bool,
    ghost same: { ForSome caller (λ c. c.is_kept ≡ is_kept) },
}

impl Drop for SessionState {
    fn drop(self) {
        let SessionState {
            caller: _,
            intake: _,
            is_kept: _,
            is_bitwise: _,
            is_held: _,
            is_ended: _,
            is_over: _,
        } = self;
    }
}

/// How far a session is.
#[derive(Clone, Copy)]
pub(crate) struct Stage {
    /// Whether something is to come of the last reply.
    pub is_telling: bool,
    /// Whether a fetch waits to be answered.
    pub is_held: bool,
    /// Whether no more is answered.
    pub is_over: bool,
}

/// What was done with some bytes.
#[derive(Clone, Copy)]
pub(crate) struct Progress {
    /// How many of them were taken.
    pub count: usize,
    pub outcome: LineOutcome,
}

impl SessionState {
    ghost use Rattle.cql_lines.specs.Text.{shown_line};
    ghost use Rattle.cql_sessions.specs.InHand.{visit_to_come};
    ghost use Rattle.cql_sessions.specs.Seating.{IsNew, HasGoneOn, HasReached, Faces, Served, Answers, account_of};

    /// Nothing has come yet. Takes no memory. What is told of fetches is told bit by bit, or at once.
    pub(crate) fn new(alloc: Global, is_kept: bool, is_bitwise: bool) -> SessionState
        ensures kept { result.is_kept ≡ is_kept }
        ensures going { result.is_held ≡ false }
        ensures begins { IsNew result }
    {
        SessionState {
            caller: None,
            intake: Intake::new(alloc),
            is_kept,
            is_bitwise,
            is_held: false,
            is_ended: false,
            is_over: false,
        }
    }

    /// How far it is.
    pub(crate) fn stage(&self) -> Stage {
        Stage {
            is_telling: self.is_telling(),
            is_held: self.is_held,
            is_over: self.is_over,
        }
    }

    /// Whether something is to come of its caller's last reply.
    pub(crate) fn is_telling(&self) -> bool {
        match &self.caller {
            Some(caller) => !caller.is_told(),
            None => false,
        }
    }

    /// Moves what is to come of its caller's last reply behind what is buffered, as far as there is room.
    pub(crate) fn fill(&mut self, buffer: &mut ReplyBuffer)
        ensures same { (self.new.is_kept ≡ self.old.is_kept) × (account_of self.new.caller ≡ account_of self.old.caller) }
        ensures told { buffer.new ++ visit_to_come self.new.caller ≡ buffer.old ++ visit_to_come self.old.caller }
    {
        if let Some(caller) = &mut self.caller {
            caller.fill(buffer);
        }
    }

    /// What the reply weighs that its caller is told, in bytes.
    pub(crate) fn weight(&self) -> usize {
        match &self.caller {
            Some(caller) => caller.weight(),
            None => 0,
        }
    }

    /// How many records of a journal's file what its caller was told rests on.
    pub(crate) fn due(&self) -> u64 {
        match &self.caller {
            Some(caller) => caller.due(),
            None => 0,
        }
    }

    /// Whose calls it makes, once its caller has logged in.
    pub(crate) fn tenant(&self) -> Option<TenantId>
        ensures { result ≡ option_map (λ caller. caller.seat.tenant) self.now.caller }
    {
        match &self.caller {
            Some(caller) => Some(caller.seat.tenant()),
            None => None,
        }
    }

    /// Takes bytes up to and with the first line feed, or all where there is none, and answers the
    /// line if it is whole and isn't blank: the first by the login's answer, each later one by one
    /// line. Where no fetch may be answered now, one is held.
    pub(crate) fn take_line<H: Wait, C: Callable<H, G>, E: Evaluator, G: Gate, W: Write>(
        &mut self,
        service: &Service<'_, H, C, G>,
        bench: &mut E,
        bytes: &[u8],
        may_fetch: bool,
        buffer: &mut ReplyBuffer,
        scratch: &mut Scratch,
        writer: &mut Watched<W>,
    ) -> Result<Progress, ScriptError>
        requires { self.old.is_held ≡ false }
        ensures same { (self.new.is_kept ≡ self.old.is_kept) × (self.new.is_ended ≡ self.old.is_ended) }
        ensures going { may_fetch ≡ true → OnOk result (self.new.is_held ≡ false) }
        ensures seats { IfOk result (λ step. self.old.is_over ≡ false → (came : List ℕ)
            → HasReached service.now.table.now came self.old → HasReached service.now.table.now (came ++ take step.count bytes.now) self.new) }
        ensures stops { OnErr result (self.old.is_over ≡ false → (came : List ℕ)
            → HasReached service.now.table.now came self.old → Served service.now.table.now false (came ++ bytes.now) (account_of self.new.caller)) }
        ensures within { IfOk result (λ step. (min 1 (length bytes.now) ≤ step.count) × (step.count ≤ length bytes.now)) }
    {
        let taken = self.intake.take(bytes)?;
        if !taken.is_whole {
            return Ok(Progress {
                count: taken.count,
                outcome: LineOutcome::Short,
            });
        }
        let outcome = self.answer_whole(service, bench, may_fetch, buffer, scratch, writer)?;
        Ok(Progress {
            count: taken.count,
            outcome,
        })
    }

    /// Answers the line that is whole, or that no line feed has ended where nothing more comes, if it
    /// isn't blank, and goes to the next one. Where no fetch may be answered now, one is held.
    pub(crate) fn answer_whole<H: Wait, C: Callable<H, G>, E: Evaluator, G: Gate, W: Write>(
        &mut self,
        service: &Service<'_, H, C, G>,
        bench: &mut E,
        may_fetch: bool,
        buffer: &mut ReplyBuffer,
        scratch: &mut Scratch,
        writer: &mut Watched<W>,
    ) -> Result<LineOutcome, ScriptError>
        ensures same { (self.new.is_kept ≡ self.old.is_kept) × (self.new.is_ended ≡ self.old.is_ended) }
        ensures going { may_fetch ≡ true → OnOk result (self.new.is_held ≡ false) }
        ensures seats { OnOk result (self.old.is_over ≡ false → (came : List ℕ)
            → Faces service.now.table.now came self.old → HasReached service.now.table.now came self.new) }
        ensures stops { OnErr result (self.old.is_over ≡ false → (came : List ℕ)
            → Faces service.now.table.now came self.old → Served service.now.table.now self.new.is_ended came (account_of self.new.caller)) }
    {
        if !self.intake.counts() {
            self.go_on();
            return Ok(LineOutcome::Short);
        }
        let outcome = self.answer(service, bench, may_fetch, buffer, scratch, writer)?;
        if outcome == LineOutcome::Held {
            self.is_held = true;
        } else {
            self.go_on();
        }
        Ok(outcome)
    }

    // Goes to the next line, where one may come.
    fn go_on(&mut self)
        ensures kept { self.new.is_kept ≡ self.old.is_kept }
        ensures gone { HasGoneOn self.old self.new }
    {
        self.intake.clear();
        self.is_held = false;
        if self.is_ended {
            self.is_over = true;
        }
    }

    // Answers the line, by its caller's seat or as the login.
    fn answer<H: Wait, C: Callable<H, G>, E: Evaluator, G: Gate, W: Write>(
        &mut self,
        service: &Service<'_, H, C, G>,
        bench: &mut E,
        may_fetch: bool,
        buffer: &mut ReplyBuffer,
        scratch: &mut Scratch,
        writer: &mut Watched<W>,
    ) -> Result<LineOutcome, ScriptError>
        ensures same { (self.new.is_kept ≡ self.old.is_kept) × (self.new.intake ≡ self.old.intake) × (self.new.is_held ≡ self.old.is_held) × (self.new.is_ended ≡ self.old.is_ended) }
        ensures answers { IfOk result (λ outcome. (may_fetch ≡ true → outcome ≢ LineOutcome.Held)
            × (outcome ≡ LineOutcome.Held → account_of self.new.caller ≡ account_of self.old.caller)
            × (outcome ≢ LineOutcome.Held → Answers service.now.table.now (shown_line self.old.intake) (account_of self.old.caller) (account_of self.new.caller))) }
        ensures over { OnOk result (self.new.is_over ≡ (is_none self.new.caller || self.old.is_over)) }
        ensures stops { OnErr result ((account_of self.new.caller ≡ account_of self.old.caller)
            ⊎ Answers service.now.table.now (shown_line self.old.intake) (account_of self.old.caller) (account_of self.new.caller)) }
    {
        let line = self.intake.line();
        if let Some(caller) = &mut self.caller {
            let outcome = caller.answer(service, bench, line, may_fetch, buffer, scratch, writer)?;
            return Ok(outcome);
        }
        self.log_in(service, buffer, writer)
    }

    // Answers the line as the login. One line of a session is, and a caller is large: so the room that one is
    // made in isn't made ready for each line.
    #[inline(never)]
    fn log_in<H: Wait, C: Callable<H, G>, G: Gate, W: Write>(
        &mut self,
        service: &Service<'_, H, C, G>,
        buffer: &mut ReplyBuffer,
        writer: &mut Watched<W>,
    ) -> Result<LineOutcome, ScriptError>
        requires { self.old.caller ≡ None }
        ensures same { (self.new.is_kept ≡ self.old.is_kept) × (self.new.intake ≡ self.old.intake) × (self.new.is_held ≡ self.old.is_held) × (self.new.is_ended ≡ self.old.is_ended) }
        ensures answers { IfOk result (λ outcome. (outcome ≢ LineOutcome.Held) × Answers service.now.table.now (shown_line self.old.intake) None (account_of self.new.caller)) }
        ensures over { OnOk result (self.new.is_over ≡ (is_none self.new.caller || self.old.is_over)) }
        ensures stops { OnErr result ((account_of self.new.caller ≡ None) ⊎ Answers service.now.table.now (shown_line self.old.intake) None (account_of self.new.caller)) }
    {
        let line = self.intake.line();
        let alloc = service.alloc;
        match answer_login(alloc, service.table, line, buffer, writer)? {
            Some(tenant) => {
                service.gate.at(Point::LoggedIn(tenant));
                self.caller = Some(Caller::new(service, tenant, self.is_kept, self.is_bitwise));
                Ok(LineOutcome::Last)
            }
            None => {
                let named = named_in(alloc, service.table, line);
                service.gate.at(Point::NotLoggedIn(named));
                self.is_over = true;
                Ok(LineOutcome::Short)
            }
        }
    }

    /// How it ends.
    pub(crate) fn into_end(self, alloc: Global, fault: Option<ScriptError>) -> SessionEnd
        ensures tallies { IfSome result.seat (λ s. Tallies self.is_kept s result.receipts.items) }
        ensures nobody { result.seat ≡ None → result.receipts.items ≡ [] }
        ensures seat { result.seat ≡ option_map (λ caller. caller.seat) self.caller }
        ensures receipts { IfSome self.caller (λ caller. result.receipts ≡ caller.receipts) }
    {
        let SessionState {
            caller,
            intake: _,
            is_kept: _,
            is_bitwise: _,
            is_held: _,
            is_ended: _,
            is_over: _,
        } = self;
        match caller {
            Some(caller) => caller.into_end(fault),
            None => SessionEnd {
                seat: None,
                receipts: Vec::new(alloc),
                fault,
            },
        }
    }
}
