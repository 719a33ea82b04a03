// The thread that looks at benches and answers.
ghost use Rattle.std.specs.Prelude.{◌≡◌, IfErr};
ghost use Rattle.cql_server.specs.declared.failure.Failure.TheVariants as failure;

use crate::failure::Failure;
use crate::standing::tell_standing;
use cql_benches::SharedPool;
use cql_core::Operator;
use cql_hall::{Gate, Point};
use cql_sessions::{Callable, Service};
use crossbeam_channel::{Receiver, RecvTimeoutError};
use std::sync::Wait;
use std::thread::{Builder, Scope};
use std::time::{Clock, Duration};

// The hall lets go of rows at most so many times a second, and so many times without a pause, in which
// others get its lock.
const TURNS: u64 = 2048;

const TURNS_AT_ONCE: u64 = 4;

const PAUSE_MICROS: u64 = 50;

// The hall lets go of rows a few times. Whether some are left.
fn settle_few<R: Wait, C: Callable<R, G>, G: Gate>(service: &Service<'_, R, C, G>) -> bool {
    for _ in 0..TURNS_AT_ONCE {
        if !service.hall.settle(service.rt) {
            return false;
        }
    }
    true
}

// The hall lets go of rows that nothing needs any more, with a pause each few times, until none is left,
// or it did so as often as it may in a second, or the sender is let go.
fn settle_some<R: Wait + Clock, C: Callable<R, G>, G: Gate>(
    service: &Service<'_, R, C, G>,
    stopped: &Receiver<()>,
) {
    for _ in 0..TURNS / TURNS_AT_ONCE {
        if !settle_few(service) {
            return;
        }
        match stopped.recv_timeout(service.rt, Duration::from_micros(PAUSE_MICROS)) {
            Err(RecvTimeoutError::Timeout) => {}
            _ => return,
        }
    }
}

// Tells the gate each second, with how tenants stand where it wants that, has a journal's file written, gives up
// answers that take too long, and lets go of what nobody used or will use, of benches and of the hall, until the
// sender is let go.
fn sweep_on<R: Wait + Clock, C: Callable<R, G>, G: Gate, O: Operator>(
    service: &Service<'_, R, C, G>,
    pool: &SharedPool<O>,
    stopped: &Receiver<()>,
) {
    for _ in service.rt.forever() {
        if !pool.second(service.rt, stopped) {
            return;
        }
        service.gate.at(Point::Second);
        // what nobody waits for, since its caller has gone
        service.hall.want_all(service.rt);
        if service.gate.wants_standing() {
            tell_standing(service);
        }
        pool.sweep(service.rt);
        settle_some(service, stopped);
    }
}

/// Starts the thread that gives up late answers, lets go of what nobody used and tells the gate each
/// second, until the sender is let go; or it can't be made.
pub(crate) fn start_sweeper<'s, 'a: 's, T, R, C, G, O>(
    scope: &Scope<'s, T>,
    service: &'s Service<'a, R, C, G>,
    pool: &'s SharedPool<O>,
    stopped: Receiver<()>,
) -> Result<(), Failure>
where
    R: Wait + Clock + Sync + 's,
    C: Callable<R, G> + Sync + 's,
    G: Gate + Sync + 's,
    O: Operator + Send + 's,
    ensures { IfErr result (λ f. f ≡ failure.NoMemory) }
{
    let started = Builder::new().spawn_scoped(scope, move || sweep_on(service, pool, &stopped));
    match started {
        Ok(_handle) => Ok(()),
        Err(_refused) => Err(Failure::NoMemory),
    }
}
