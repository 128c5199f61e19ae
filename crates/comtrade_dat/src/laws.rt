// The laws of this crate, each as the contract of a function that does nothing.
ghost use Rattle.comtrade_dat.specs.ReadBack.{DatsReadBack, RecordsReadBack};
ghost use Rattle.comtrade_dat.specs.Samples.{NoneForMemory};

/// What `record16` makes of a number, a stamp, counts and status words is what its bytes say, and bytes of
/// a record's length are made of what they say.
pub fn records_read_back()
    ensures { RecordsReadBack }
{}

/// What `record16` makes of good records, one after another, is read by `read_dat` as their recording.
pub fn dats_read_back()
    ensures { DatsReadBack }
{}

/// No dat is refused for want of memory.
pub fn none_for_memory()
    ensures { NoneForMemory }
{}
