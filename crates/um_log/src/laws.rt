//! Laws of the definitions of the log, as functions that do nothing.
ghost use Rattle.std.specs.Prelude.{◌≡◌, ℕ, List};
ghost use Rattle.um_model.specs.Disk.{Image};
ghost use Rattle.um_model.specs.declared.layout.Format.{Format};
ghost use Rattle.um_model.specs.declared.layout.Layout.{Layout};
ghost use Rattle.um_model.specs.Store.{area_start, HasRecords, records_of, IsLogRead};

/// An image has one list of records of a generation at most.
pub fn records_have_one_reading()
    ensures { (format : Format) (layout : Layout) (generation : ℕ) (image : Image) (a b : List (List ℕ)) → HasRecords format layout generation image a → HasRecords format layout generation image b → a ≡ b }
{}

/// Images that agree in all sectors that the reading of the records looks at have the same records.
pub fn unread_sectors_of_the_log_do_not_count()
    ensures { (format : Format) (layout : Layout) (generation : ℕ) (a b : Image) (records : List (List ℕ)) → ((j : ℕ) → IsLogRead format layout generation a 0 (area_start format layout generation) j → b j ≡ a j)
        → HasRecords format layout generation a records → HasRecords format layout generation b records }
{}

/// The records that the function gives of an image are its records.
pub fn records_are_told()
    ensures { (format : Format) (layout : Layout) (generation : ℕ) (image : Image) → HasRecords format layout generation image (records_of format layout generation image) }
{}
