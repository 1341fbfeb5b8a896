//! The laws of replies: functions with empty bodies, whose contracts state them.
ghost use Rattle.rr_web.specs.JsonRows.{RecordsAreRows};
ghost use Rattle.rr_web.specs.Unquoted.{QuotedIsRead};

/// A text in quotes is read back as JSON reads it, whatever follows it.
pub fn quoted_is_read()
    ensures { QuotedIsRead }
{}

/// The rows of a JSON reply are those of the records that answer the same fetch in CSV: a start and
/// a number for each, or null for an unknown value, in the same order.
pub fn records_are_rows()
    ensures { RecordsAreRows }
{}
