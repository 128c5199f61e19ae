// The law of steps.
ghost use Rattle.interval_ledger.specs.StepLaw.{TicksAreFew};

/// Over any calls of `Ledger::advance` on one ledger, with posts between them, the steps are at most the
/// posted items, the released items and the calls.
pub fn ticks_are_few()
    ensures { TicksAreFew }
{}
