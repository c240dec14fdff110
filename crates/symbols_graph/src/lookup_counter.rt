//! A count of look-ups in the table of resolved specifiers.

ghost use Rattle.std.specs.Prelude.{◌≡◌, ◌<◌, ◌+◌, ◌^◌};
ghost use Rattle.std.specs.Bool.{Decides};

/// A count of look-ups in the table of resolved specifiers of a graph (extension).
/// `ModuleGraph::resolve_dependency`, the only call that looks one up, adds one to it. There is no
/// other way to change a count.
#[derive(Drop)]
pub struct LookupCounter {
    count: u128,
}

impl LookupCounter {
    /// Returns a count of 0.
    pub fn new() -> LookupCounter
        ensures { result.count ≡ 0 }
    {
        LookupCounter { count: 0 }
    }

    /// Returns the count.
    pub fn count(&self) -> u128
        ensures { result ≡ self.now.count }
    {
        self.count
    }

    /// Returns whether the exports of a module may be counted: the count is at most
    /// 18,446,744,073,709,551,615. `exports_counted` and `export_of_counted` require this.
    pub fn has_room(&self) -> bool
        ensures { Decides result (self.now.count < 2 ^ 64) }
    {
        self.count <= u64::MAX as u128
    }

    /// Adds one look-up. The greatest count stays as it is.
    pub(crate) fn add_one(&mut self)
        ensures { self.old.count + 1 < 2 ^ 128 → self.new.count ≡ self.old.count + 1 }
    {
        self.count = self.count.saturating_add(1);
    }
}
