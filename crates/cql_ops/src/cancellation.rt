// A flag by which an answer is given up.

use std::alloc::{AllocError, Global};
use std::sync::Arc;
use std::sync::atomic::{AtomicBool, Ordering};

/// A flag that any thread may set, and that operators look at while they compute: where it is set
/// they give up, as without memory. All shares are of one flag.
pub struct Cancellation {
    flag: Option<Arc<AtomicBool>>,
}

impl Drop for Cancellation {
    fn drop(self) {
        let Cancellation { flag: _ } = self;
    }
}

impl Cancellation {
    /// A flag of its own, which isn't set.
    pub fn new(alloc: Global) -> Result<Cancellation, AllocError> {
        let flag = Arc::new(alloc, AtomicBool::new(false))?;
        Ok(Cancellation { flag: Some(flag) })
    }

    /// One that is never set. Takes no memory.
    pub fn never() -> Cancellation {
        Cancellation { flag: None }
    }

    /// The same flag, for one more holder.
    pub fn share(&self) -> Result<Cancellation, AllocError> {
        match &self.flag {
            Some(flag) => Ok(Cancellation {
                flag: Some(Arc::try_clone(flag)?),
            }),
            None => Ok(Cancellation::never()),
        }
    }

    fn put(&self, is_set: bool) {
        if let Some(flag) = &self.flag {
            flag.store(is_set, Ordering::SeqCst);
        }
    }

    /// Whoever looks at the flag gives up, until it is cleared.
    pub fn set(&self) {
        self.put(true);
    }

    /// Nobody has to give up any more.
    pub fn clear(&self) {
        self.put(false);
    }

    /// Whether to give up.
    pub fn is_set(&self) -> bool {
        match &self.flag {
            Some(flag) => flag.load(Ordering::SeqCst),
            None => false,
        }
    }

    /// No memory where it is set.
    pub fn look(&self) -> Result<(), AllocError> {
        if self.is_set() {
            Err(AllocError)
        } else {
            Ok(())
        }
    }
}
