// Reports of worked recordings, by hand: at 1200 Hz a sample is taken each 1/1200 s, and 24 make a cycle.
// The second interval would end with a crossing that has no sample.
pub const ONE_ROW: &str = "kind,channel,start,end,from,to,tick,value,count,mark
basic,1,24,264,2024-03-01T12:00:01.020000000Z,2024-03-01T12:00:01.220000000Z,,229805362,10,clear
";

// two_intervals.
pub const TWO_ROWS: &str = "kind,channel,start,end,from,to,tick,value,count,mark
basic,1,24,264,2024-03-01T12:00:01.020000000Z,2024-03-01T12:00:01.220000000Z,,229805362,10,clear
basic,1,264,504,2024-03-01T12:00:01.220000000Z,2024-03-01T12:00:01.420000000Z,,229805362,10,clear
";

// all_zero: a dip and an interruption from the first sample on, open at the end, touch every interval.
pub const ALL_ZERO: &str = "kind,channel,start,end,from,to,tick,value,count,mark
basic,1,0,240,2024-03-01T12:00:01.000000000Z,2024-03-01T12:00:01.200000000Z,,0,10,flagged
basic,1,240,480,2024-03-01T12:00:01.200000000Z,2024-03-01T12:00:01.400000000Z,,0,10,flagged
basic,1,480,720,2024-03-01T12:00:01.400000000Z,2024-03-01T12:00:01.600000000Z,,0,10,flagged
basic,1,720,960,2024-03-01T12:00:01.600000000Z,2024-03-01T12:00:01.800000000Z,,0,10,flagged
dip,1,0,1200,2024-03-01T12:00:01.000000000Z,2024-03-01T12:00:02.000000000Z,,0,0,open
interruption,1,0,1200,2024-03-01T12:00:01.000000000Z,2024-03-01T12:00:02.000000000Z,,0,0,open
";

// halved_half_cycles: a dip over the seam of two intervals touches both.
pub const HALVED: &str = "kind,channel,start,end,from,to,tick,value,count,mark
basic,1,24,264,2024-03-01T12:00:01.020000000Z,2024-03-01T12:00:01.220000000Z,,229805362,10,flagged
dip,1,252,336,2024-03-01T12:00:01.210000000Z,2024-03-01T12:00:01.280000000Z,,114896273,0,closed
basic,1,264,504,2024-03-01T12:00:01.220000000Z,2024-03-01T12:00:01.420000000Z,,211869380,10,flagged
";

// interval_over_tick: noon is at place 594; the interval over it is completed, and the next begins at 600.
pub const OVER_TICK: &str = "kind,channel,start,end,from,to,tick,value,count,mark
basic,1,24,264,2024-03-01T11:59:59.525000000Z,2024-03-01T11:59:59.725000000Z,,229805362,10,clear
basic,1,264,504,2024-03-01T11:59:59.725000000Z,2024-03-01T11:59:59.925000000Z,,229805362,10,clear
basic,1,504,744,2024-03-01T11:59:59.925000000Z,2024-03-01T12:00:00.125000000Z,,229805362,10,clear
basic,1,600,840,2024-03-01T12:00:00.005000000Z,2024-03-01T12:00:00.205000000Z,,229805362,10,clear
basic,1,840,1080,2024-03-01T12:00:00.205000000Z,2024-03-01T12:00:00.405000000Z,,229805362,10,clear
";

// threshold_edges: a value at the threshold is no dip.
pub const AT_THRESHOLD: &str = "kind,channel,start,end,from,to,tick,value,count,mark
basic,1,24,264,2024-03-01T12:00:01.020000000Z,2024-03-01T12:00:01.220000000Z,,230000000,10,clear
basic,1,264,504,2024-03-01T12:00:01.220000000Z,2024-03-01T12:00:01.420000000Z,,227804521,10,clear
";

// threshold_edges: one below it is, up to the value that is back by the hysteresis.
pub const BELOW_THRESHOLD: &str = "kind,channel,start,end,from,to,tick,value,count,mark
basic,1,24,264,2024-03-01T12:00:01.020000000Z,2024-03-01T12:00:01.220000000Z,,230000000,10,clear
dip,1,264,312,2024-03-01T12:00:01.220000000Z,2024-03-01T12:00:01.260000000Z,,206980000,0,closed
basic,1,264,504,2024-03-01T12:00:01.220000000Z,2024-03-01T12:00:01.420000000Z,,211142549,10,flagged
";
