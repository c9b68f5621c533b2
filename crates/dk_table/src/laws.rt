//! What is written of a table is read.
ghost use Rattle.dk_table.specs.Laws.{RowsAreSamples, StreamsAreTraces, TablesAreRead};

/// The text of a table's trace is read as what it says: one declaration, and a record for each row, in order.
pub fn tables_are_read()
    ensures { TablesAreRead }
{}

/// Read alone, that of a table of at most 1,024 columns is read to its end, and comes to one point with a sample for each row.
pub fn rows_are_samples()
    ensures { RowsAreSamples }
{}

/// Rows that are written as they come make the same trace, where nothing is refused; and nothing is, where all rows together have a trace.
pub fn streams_are_traces()
    ensures { StreamsAreTraces }
{}
