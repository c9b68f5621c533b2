//! What walks through files come to.
ghost use Rattle.dk_driver.specs.Laws.{RecordsGoOn};

/// The records of the first files, which hold no fault, are the first records of all files.
pub fn records_go_on()
    ensures { RecordsGoOn }
{}
