// The first row of each report.
pub const HEADER: &str = "kind,channel,start,end,from,to,tick,value,count,mark\n";
