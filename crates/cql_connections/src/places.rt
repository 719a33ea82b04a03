// How many callers may be connected, and how many of each tenant.
ghost use Rattle.std.specs.Prelude.{◌≡◌, ◌≤◌, ◌<◌, ◌+◌, ◌-◌, ◌*◌, true, false, length, slice_index, set, max, sum_by, IfOk};

use std::alloc::{AllocError, Global};

/// The places of callers. Half of all are shared out among the tenants, an equal part for each, which
/// nobody else has; those that are left go to the tenants whose callers come first. Who hasn't logged in
/// has at most half of all, rounded up, and none that counts for a tenant.
pub(crate) struct Places {
    // how many there are, and how many are taken
    most: usize,
    count: usize,
    // how many are taken by those who haven't logged in
    strangers: usize,
    // how many each tenant has, and how many are its own
    taken: Vec<usize>,
    share: usize,
    // how many tenants have beside their own, and how many there are of these
    beside: usize,
    most_beside: usize,
    ghost counted: { beside ≡ sum_by (λ many. many - share) taken.items },
    ghost bounded: { beside ≤ most_beside },
}

impl Drop for Places {
    fn drop(self) {
        let Places {
            most: _,
            count: _,
            strangers: _,
            taken: _,
            share: _,
            beside: _,
            most_beside: _,
        } = self;
    }
}

impl Places {
    /// So many places, of which none is taken, for so many tenants.
    pub(crate) fn new(alloc: Global, most: usize, tenants: usize) -> Result<Places, AllocError>
        ensures none { IfOk result (λ places. places.beside ≡ 0) }
        ensures all { IfOk result (λ places. places.share * max 1 tenants + places.most_beside ≡ most) }
    {
        let taken = vec![in alloc; 0; tenants]?;
        let half = most / 2;
        let parts = tenants.max(1);
        Ok(Places {
            most,
            count: 0,
            strangers: 0,
            taken,
            share: half / parts,
            beside: 0,
            most_beside: most - (half - half % parts),
        })
    }

    /// Whether nobody may come.
    pub(crate) fn is_full(&self) -> bool {
        self.count >= self.most || self.strangers >= self.most.div_ceil(2)
    }

    /// Whether those who haven't logged in keep others out.
    pub(crate) fn is_crowded(&self) -> bool {
        self.strangers > 0 && self.is_full()
    }

    /// One who hasn't logged in has come.
    pub(crate) fn enter(&mut self) {
        self.count = self.count.saturating_add(1);
        self.strangers = self.strangers.saturating_add(1);
    }

    /// One who hadn't logged in has a place of this tenant's from now on, if that may have one more: of
    /// its own, or of those beside.
    pub(crate) fn log_in(&mut self, tenant: usize) -> bool
        ensures own { tenant < length self.old.taken.items → slice_index self.old.taken.items tenant < self.old.share → result ≡ true }
        ensures taken { result ≡ true → self.new.taken.items ≡ set self.old.taken.items tenant (slice_index self.old.taken.items tenant + 1) }
        ensures beside { result ≡ true → self.old.share ≤ slice_index self.old.taken.items tenant → self.new.beside ≡ self.old.beside + 1 }
        ensures bound { result ≡ true → slice_index self.new.taken.items tenant ≤ self.new.share + self.new.most_beside }
        ensures refused { result ≡ false → (self.new.taken ≡ self.old.taken) × (self.new.strangers ≡ self.old.strangers) }
        ensures same { (self.new.share ≡ self.old.share) × (self.new.most_beside ≡ self.old.most_beside) }
    {
        if tenant >= self.taken.len() {
            return false;
        }
        let taken = self.taken[tenant];
        let is_own = taken < self.share;
        if taken == usize::MAX || !is_own && self.beside >= self.most_beside {
            return false;
        }
        self.taken[tenant] = taken + 1;
        if !is_own {
            self.beside += 1;
        }
        self.strangers = self.strangers.saturating_sub(1);
        true
    }

    /// One who hasn't logged in has left.
    pub(crate) fn leave(&mut self) {
        self.count = self.count.saturating_sub(1);
        self.strangers = self.strangers.saturating_sub(1);
    }

    /// One of a tenant's callers has left.
    pub(crate) fn give_back(&mut self, tenant: usize)
        ensures taken { tenant < length self.old.taken.items → self.new.taken.items ≡ set self.old.taken.items tenant (slice_index self.old.taken.items tenant - 1) }
        ensures beside { tenant < length self.old.taken.items → self.old.share < slice_index self.old.taken.items tenant → self.new.beside + 1 ≡ self.old.beside }
        ensures same { (self.new.share ≡ self.old.share) × (self.new.most_beside ≡ self.old.most_beside) }
    {
        if tenant >= self.taken.len() {
            return;
        }
        let taken = self.taken[tenant];
        self.taken[tenant] = taken.saturating_sub(1);
        if taken > self.share {
            self.beside -= 1;
        }
        self.count = self.count.saturating_sub(1);
    }
}
