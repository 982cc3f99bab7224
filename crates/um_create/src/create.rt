//! Creates the file of a store.
ghost use Rattle.std.specs.Prelude.{◌≡◌, IfOk, IfErr};
ghost use Rattle.um_create.specs.Statuses.{IsMet};
ghost use Rattle.um_filedisk.specs.Counts.{calls_in, sectors_in};
ghost use Rattle.um_keeper.specs.Creating.{create_calls};
ghost use Rattle.um_model.specs.Store.{store_sectors};
ghost use Rattle.um_sector.specs.Runs.{more};

use crate::fault::CreateFault;
use std::alloc::Global;
use std::fs;
use std::fs::{File, Files};
use um_filedisk::FileDisk;
use um_model::Layout;

/// Makes the store of the empty state in a new file, and hands it out. At Ok the store, the file and its name are
/// durable, and exactly the disk calls that a store takes were made on the file.
///
/// `Exists` where something stands at the path, which is left as it was; `File` where the file can't be made; `Store`
/// with E15 or E16 where the store can't be written: then the new file is removed.
pub fn create_store<'a, R: Files<File = File>>(
    rt: &'a R,
    alloc: Global,
    layout: Layout,
    path: &'a str,
) -> Result<FileDisk<'a, R>, CreateFault>
    ensures made { IfOk result (λ disk. calls_in disk ≡ more 0 (create_calls layout)) }
    ensures size { IfOk result (λ disk. sectors_in disk ≡ store_sectors layout) }
    ensures met { IfErr result IsMet }
{
    let mut disk = FileDisk::create(rt, path, layout.sectors())?;
    match um_keeper::create(alloc, &mut disk, layout) {
        Ok(()) => Ok(disk),
        Err(refusal) => {
            // Nobody has seen it; where it can't be removed, it is no store.
            let _unheard = fs::remove_file(rt, path);
            Err(CreateFault::Store(refusal))
        }
    }
}
