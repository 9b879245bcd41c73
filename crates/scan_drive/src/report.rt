//! The counts of a scan.
ghost use Rattle.std.specs.Prelude.{◌≡◌};
ghost use Rattle.scan_drive.specs.Traffic.{with_hit, with_miss};
ghost use Rattle.scan_drive.specs.Wants.{counted};

use crate::cached::Wanted;

/// How many segments were wanted, and of these how many were found in the cache, shared with a request before, and
/// asked for. Each count stops at the greatest u64.
#[derive(Clone, Copy, Debug, Default, PartialEq, Eq)]
pub struct ScanReport {
    pub wants: u64,
    pub hits: u64,
    pub shared: u64,
    pub asks: u64,
}

impl ScanReport {
    /// Counts a want, by how it ended.
    pub fn count(&mut self, wanted: &Wanted)
        ensures { self.new ≡ counted wanted.now self.old }
    {
        match wanted {
            Wanted::Hit(_) => self.count_hit(),
            Wanted::Shared => self.count_miss(false),
            Wanted::Asked => self.count_miss(true),
        }
    }

    // Counts a want that the cache had.
    fn count_hit(&mut self)
        ensures { self.new ≡ with_hit self.old }
    {
        self.wants = self.wants.saturating_add(1);
        self.hits = self.hits.saturating_add(1);
    }

    // Counts a want that the cache did not have.
    fn count_miss(&mut self, asked: bool)
        ensures { self.new ≡ with_miss asked self.old }
    {
        self.wants = self.wants.saturating_add(1);
        if asked {
            self.asks = self.asks.saturating_add(1);
        } else {
            self.shared = self.shared.saturating_add(1);
        }
    }
}
