//! When a table comes, and when each fault: laws of the definition that `rows` is proved against.
//! The functions do nothing.
ghost use Rattle.csv_rows.specs.Laws.{FaultsAreFirst, TablesAreWhole};

/// A table comes exactly where the first record is the names and no row has a fault, and it has the
/// rows after the first record.
pub fn tables_are_whole()
    ensures { TablesAreWhole }
{}

/// Each fault comes exactly where the records have it, at the first row with a fault: the width
/// before the texts, and the first field of those.
pub fn faults_are_first()
    ensures { FaultsAreFirst }
{}
