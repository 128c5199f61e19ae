// The laws of this crate, each as the contract of a function that does nothing.
ghost use Rattle.pq_report.specs.ReportReading.{ReadsBack};
ghost use Rattle.pq_report.specs.ReportText.{NeedsNoQuotes};

/// A writer of comma-separated values writes the row of an item as the definition does: no field needs
/// quotes.
pub fn needs_no_quotes()
    ensures { NeedsNoQuotes }
{}

/// A text is read as items exactly where it is the text of those items, and they can be reported.
pub fn reads_back()
    ensures { ReadsBack }
{}
