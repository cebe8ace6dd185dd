ghost use Rattle.std.specs.Prelude.{◌≡◌};
ghost use Rattle.schedule.specs.Budget.{budget};

/// How many steps a `settle` may make that begins while so many calls of running clients are outstanding, in a
/// cluster of so many clients: 65,536 for each, and once more.
pub fn settle_budget(calls: u32, clients: u32) -> u64
    ensures { result ≡ budget calls clients }
{
    65_536 * (1 + u64::from(calls) + u64::from(clients))
}
