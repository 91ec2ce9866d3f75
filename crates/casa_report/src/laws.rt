//! What readers make of the texts.

ghost use Rattle.casa_report.specs.CsvReading.{CsvIsReadBack};

/// Comma-separated values are read back as they were, where none has a comma or a line end.
pub fn csv_is_read_back()
    ensures { CsvIsReadBack }
{}
