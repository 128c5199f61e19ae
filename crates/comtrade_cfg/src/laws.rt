// Laws of the definitions, each the contract of a function without a body of its own.
ghost use Rattle.comtrade_cfg.specs.Bounds.{ConfigurationsAreBounded};
ghost use Rattle.comtrade_cfg.specs.Canonical.{ReadsBack};
ghost use Rattle.comtrade_cfg.specs.FaultOrder.{OrdersFaults};
ghost use Rattle.comtrade_cfg.specs.Grammar.{ReadsTheGrammar};
ghost use Rattle.comtrade_cfg.specs.Selecting.{GivesGoodSelections};

/// What is read is in the grammar, and nothing in it is refused.
pub fn reads_the_grammar()
    ensures { ReadsTheGrammar }
{}

/// What is said of a line depends on the lines up to it alone, and a fault at a line stands only where no
/// line before it is at fault.
pub fn orders_faults()
    ensures { OrdersFaults }
{}

/// What some text says is bounded: rate, frequency, numbers of samples and channels, moments.
pub fn bounds_configurations()
    ensures { ConfigurationsAreBounded }
{}

/// What a configuration is printed as says that configuration, within the limit of a cfg's bytes.
pub fn reads_back()
    ensures { ReadsBack }
{}

/// A selection has 1 to 16 rising positions of channels in V or kV that are within the limit, and the
/// reference is one of them.
pub fn selects_good_channels()
    ensures { GivesGoodSelections }
{}
