//! Laws of the disk model for single calls and crashes, as functions that do nothing.
ghost use Rattle.std.specs.Prelude.{◌≡◌, ◌⊎◌, ◌<◌, ℕ, List, [], Bool, IsTrue};
ghost use Rattle.um_model.specs.Disk.{Sector, Image, Past, IsImage, IsSettled, with_sector, wrote, synced, after, seen, Images, During};
ghost use Rattle.um_sector.specs.Unsynced.{picked};

/// A disk that was just made leaves the content it was made with.
pub fn a_new_disk_is_settled()
    ensures { (start : Image) → IsSettled (record { start = start; calls = [] }) }
{}

/// An image after a write is one of before, with the written sector or without it.
pub fn a_write_changes_one_sector_or_none()
    ensures { (past : Past) (k : ℕ) (value kept : Sector) (image : Image) → IsImage (after (wrote k value kept) past) image
        → IsImage past image ⊎ ((before : Image) × IsImage past before × (image ≡ with_sector before k value)) }
{}

/// After a sync that answered Ok there is one image: the one that a read gives.
pub fn a_sync_leaves_what_a_read_gives()
    ensures { (past : Past) (image : Image) → IsImage (after synced past) image → image ≡ seen past }
{}

/// Whatever is picked, a crash leaves an image of the disk.
pub fn picks_choose_an_image()
    ensures { (past : Past) (picks : List ℕ) → IsImage past (picked past picks) }
{}

/// Each image of a disk is left by some picks, on as many sectors as one likes.
pub fn each_image_is_picked()
    ensures { (past : Past) (image : Image) → IsImage past image → (sectors : ℕ)
        → (picks : List ℕ) × ((k : ℕ) → k < sectors → picked past picks k ≡ image k) }
{}

/// A fact that holds of each image during each of two consecutive runs of calls holds of each during both together.
pub fn runs_of_calls_join()
    ensures { (old mid new : Past) (p : Image → Bool) → During old mid (λ image. IsTrue (p image)) → During mid new (λ image. IsTrue (p image))
        → During old new (λ image. IsTrue (p image)) }
{}

/// A fact of each image during a run of calls holds of each image at its end.
pub fn a_run_of_calls_ends()
    ensures { (old new : Past) (p : Image → Bool) → During old new (λ image. IsTrue (p image)) → Images new (λ image. IsTrue (p image)) }
{}
