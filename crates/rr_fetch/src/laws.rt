//! The laws of rows and answers: functions with empty bodies, whose contracts state them.
ghost use Rattle.rr_fetch.specs.Laws.{AnswersAgree, FieldsAreOfCsv, HeldRowsAreRows, RecordsAreOfCsv, RowsAgree, RowsAreOfCsv};

/// A row consolidated from the cells of what is known is the row of the samples known, for all four
/// functions: the least of the minima is the least sample, the sums make one sum, the masks make up
/// all places, and the last of the last samples is the last. So the answer is the same too.
pub fn rows_are_of_samples()
    ensures rows { RowsAgree }
    ensures answers { AnswersAgree }
{}

/// The rows of a replica meet what consolidation requires of a row.
pub fn held_rows_are_rows()
    ensures { HeldRowsAreRows }
{}

/// The store's fields and records, those of the rows of an answer among them, are what a writer of
/// `csv` with its defaults writes.
pub fn records_are_those_of_csv()
    ensures fields { FieldsAreOfCsv }
    ensures records { RecordsAreOfCsv }
    ensures rows { RowsAreOfCsv }
{}
