// Laws of the list of all windows, as the contracts of calls that do nothing.
ghost use Rattle.half_cycle.specs.AllWindows.{WindowsLieWithin, WindowsRise};

/// No window is empty, and each ends before the signal does.
pub fn windows_lie_within()
    ensures { WindowsLieWithin }
{}

/// Windows are in the order of their starts, no two of which are the same.
pub fn windows_rise()
    ensures { WindowsRise }
{}
