//! Laws of the texts of reports. The functions here do nothing: their contracts are the laws.

ghost use Rattle.std.specs.Prelude.{◌≡◌, ◌<◌, ℕ, List};
ghost use Rattle.esx_formulas.specs.declared.targets.Row.{Row};
ghost use Rattle.esx_formulas.specs.Ratio.{claim, thousandths, IsRow};
ghost use Rattle.esx_report.specs.declared.losses.LossLine.{LossLine};
ghost use Rattle.esx_sums.specs.declared.guest.Guest.{Guest};
ghost use Rattle.esx_report.specs.declared.changes.ChangeLine.{ChangeLine};
ghost use Rattle.esx_report.specs.Changes.{change_head, change_row};
ghost use Rattle.esx_report.specs.Losses.{field_count, loss_head, loss_row, ratio};
ghost use Rattle.esx_report.specs.LossTable.{loss_line};
ghost use Rattle.esx_report.specs.Guests.{guest_head, guest_row, guest_line};
ghost use Rattle.esx_report.specs.declared.steps.StepRow.{StepRow};
ghost use Rattle.esx_report.specs.Steps.{step_head, step_row};
ghost use Rattle.esx_writing.specs.Writing.{thousandths_text};
ghost use Rattle.esx_report.specs.Fields.{field_text};
ghost use Rattle.esx_report.specs.Ends.{IsTrimmed};

/// Each row of comma-separated values has as many fields as the head of its table.
pub fn rows_are_as_wide_as_their_heads()
    ensures losses { (line : LossLine) → field_count (loss_row line) ≡ field_count loss_head }
    ensures guests { (guest : Guest) → field_count (guest_row guest) ≡ field_count guest_head }
    ensures steps { (row : StepRow) → field_count (step_row row) ≡ field_count step_head }
{}

/// Each row of the table of changes has as many fields as its head.
pub fn changes_are_as_wide_as_their_head()
    ensures { (line : ChangeLine) → field_count (change_row line) ≡ field_count change_head }
{}

/// No row in columns has a blank at its end.
pub fn rows_end_in_no_blank()
    ensures losses { (line : LossLine) → IsTrimmed (loss_line line) }
    ensures guests { (guest : Guest) → IsTrimmed (guest_line guest) }
{}

/// The ratio of a row whose numbers are in their ranges is told just where it has a page.
pub fn good_rows_have_ratios()
    ensures some { (row : Row) (none : List ℕ) → IsRow row → 0 < row.pages → field_text none (ratio row) ≡ thousandths_text (thousandths (claim row row.pages)) }
    ensures nothing { (row : Row) (none : List ℕ) → row.pages ≡ 0 → field_text none (ratio row) ≡ none }
{}
