// The steps of a long computation.

use crate::cancellation::Cancellation;
use cql_value::{ColumnType, Items};
use std::alloc::AllocError;

// So much work is done between two looks at the flag.
const EVERY: u64 = 1024;

/// Counts the steps of a computation, and looks at a flag at each 1,024th; at each one where rows of texts are
/// gone over, of which any may be long. Where the flag is set it stops the computation.
pub struct Meter {
    steps: u64,
    // the work since the last look, and of one step
    since: u64,
    each: u64,
    cancellation: Cancellation,
}

impl Drop for Meter {
    fn drop(self) {
        let Meter {
            steps: _,
            since: _,
            each: _,
            cancellation: _,
        } = self;
    }
}

impl Meter {
    /// No step yet, under this flag, of rows of numbers.
    pub fn new(cancellation: Cancellation) -> Meter {
        Meter {
            steps: 0,
            since: 0,
            each: 1,
            cancellation,
        }
    }

    /// Another one without a step, under the same flag, of the same rows.
    pub fn anew(&self) -> Result<Meter, AllocError> {
        let mut meter = Meter::new(self.cancellation.share()?);
        meter.each = self.each;
        Ok(meter)
    }

    /// No step yet, of rows with these columns.
    pub fn restart(&mut self, columns: &[ColumnType]) {
        self.steps = 0;
        self.since = 0;
        self.each = 1;
        self.widen(columns);
    }

    /// No step yet, of rows of these ports.
    pub fn restart_ports(&mut self, ports: &[Items<ColumnType>]) {
        self.restart(&[]);
        for columns in ports {
            self.widen(columns.as_slice());
        }
    }

    // Rows with these columns are gone over as well.
    fn widen(&mut self, columns: &[ColumnType]) {
        for column in columns {
            if matches!(column, ColumnType::Text) {
                self.each = EVERY;
            }
        }
    }

    /// So many steps more; no memory where it is seen that the flag is set.
    pub fn add(&mut self, steps: u64) -> Result<(), AllocError> {
        self.steps = self.steps.saturating_add(steps);
        self.work(steps.saturating_mul(self.each).min(EVERY))
    }

    /// One step more.
    #[inline(always)]
    pub fn step(&mut self) -> Result<(), AllocError> {
        self.steps = self.steps.saturating_add(1);
        self.work(self.each)
    }

    /// As a step, but it isn't counted.
    #[inline(always)]
    pub fn pass(&mut self) -> Result<(), AllocError> {
        self.work(self.each)
    }

    /// A step where it is to be counted, and else as one.
    #[inline(always)]
    pub fn step_if(&mut self, counts: bool) -> Result<(), AllocError> {
        self.steps = self.steps.saturating_add(u64::from(counts));
        self.work(self.each)
    }

    #[inline(always)]
    fn work(&mut self, much: u64) -> Result<(), AllocError> {
        self.since = self.since.wrapping_add(much);
        if self.since < EVERY {
            return Ok(());
        }
        self.since = 0;
        self.cancellation.look()
    }

    /// How many steps there were; 2^64 - 1 where there were more.
    pub fn steps(&self) -> u64 {
        self.steps
    }

    /// Whether any row may be long.
    pub(crate) fn is_long(&self) -> bool {
        self.each > 1
    }

    /// Whether the flag is set.
    pub(crate) fn is_stopped(&self) -> bool {
        self.cancellation.is_set()
    }
}
