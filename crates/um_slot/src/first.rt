//! Sector 0 of a store, which names its format and its layout.
ghost use Rattle.std.specs.Prelude.{◌≡◌, ◌⊎◌, ◌↔◌, Err, IfOk, IfErr, take};
ghost use Rattle.um_model.specs.declared.layout.Format.{Format};
ghost use Rattle.um_model.specs.declared.layout.Layout as declared;
ghost use Rattle.um_model.specs.Store as store;

use um_model::{Format, Layout};
use um_sector::{Fields, Sector, u32_at};
use um_wire::Refusal;

/// The first bytes of sector 0 of a store of any format.
const NAME: &[u8] = b"UMDISK";

/// Those of a store of the first format.
const NAME_ONE: &[u8] = b"UMDISK01";

/// Those of a store of the second format.
const NAME_TWO: &[u8] = b"UMDISK02";

/// The byte of sector 0 at which the number of sectors of a slot begins, in four bytes.
const SLOT_SECTORS_AT: usize = 8;

/// The byte of sector 0 at which the number of sectors of the log begins, in four bytes.
const LOG_SECTORS_AT: usize = 12;

/// The first bytes of sector 0 of a store in a format.
fn name_of(format: Format) -> &'static [u8]
    ensures { result.now ≡ store.format_name format }
{
    match format {
        Format::One => NAME_ONE,
        Format::Two => NAME_TWO,
    }
}

/// Sector 0 of a store: it names the format and the layout.
pub fn superblock(format: Format, layout: Layout) -> Sector
    ensures { result ≡ store.superblock format layout }
{
    let mut fields = Fields::new();
    fields.put(name_of(format));
    fields.put_u32(layout.slot_sectors);
    fields.put_u32(layout.log_sectors);
    fields.sector()
}

/// The format that sector 0 of a store begins with: E19 where it is of no store, E22 where it is of a store in another format.
fn read_format(sector: &Sector) -> Result<Format, Refusal>
    ensures unformatted { (result ≡ Err Refusal.NotFormatted) ↔ ¬ (take 6 sector.now ≡ store.store_name) }
    ensures other { (result ≡ Err Refusal.OtherLayout) ↔ ((take 6 sector.now ≡ store.store_name) × ((format : Format) → ¬ (take 8 sector.now ≡ store.format_name format))) }
    ensures only { IfErr result (λ e. (e ≡ Refusal.NotFormatted) ⊎ (e ≡ Refusal.OtherLayout)) }
    ensures name { IfOk result (λ format. take 8 sector.now ≡ store.format_name format) }
{
    let (name, _) = sector.split_at(NAME.len());
    if name != NAME {
        return Err(Refusal::NotFormatted);
    }
    let (name, _) = sector.split_at(NAME_ONE.len());
    if name == NAME_ONE {
        return Ok(Format::One);
    }
    if name == NAME_TWO {
        Ok(Format::Two)
    } else {
        Err(Refusal::OtherLayout)
    }
}

/// The format and the layout that sector 0 of a store names.
///
/// E19 where it doesn't begin as that of a store; E22 where it begins as that of a store in another format; E18 with
/// sector 0 where it isn't exactly as this format writes it for a layout within the limits.
pub fn read_superblock(sector: &Sector) -> Result<(Format, Layout), Refusal>
    ensures ok { IfOk result (λ told. sector.now ≡ store.superblock told.0 told.1) }
    ensures err { IfErr result (λ e. ((e ≡ Refusal.NotFormatted) ⊎ (e ≡ Refusal.OtherLayout))
        ⊎ ((e ≡ Refusal.Damaged 0) × ((format : Format) (layout : declared.Layout) → ¬ (sector.now ≡ store.superblock format layout)))) }
    ensures unformatted { (result ≡ Err Refusal.NotFormatted) ↔ ¬ (take 6 sector.now ≡ store.store_name) }
    ensures other { (result ≡ Err Refusal.OtherLayout) ↔ ((take 6 sector.now ≡ store.store_name) × ((format : Format) → ¬ (take 8 sector.now ≡ store.format_name format))) }
{
    let format = read_format(sector)?;
    let Some(layout) = Layout::new(
        u32_at(sector, SLOT_SECTORS_AT),
        u32_at(sector, LOG_SECTORS_AT),
    ) else {
        return Err(Refusal::Damaged { sector: 0 });
    };
    if *sector == superblock(format, layout) {
        Ok((format, layout))
    } else {
        Err(Refusal::Damaged { sector: 0 })
    }
}
