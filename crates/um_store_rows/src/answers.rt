//! Answers and sectors as values that can be compared and shown, and the parts that rows are made of.
use std::process::Abort;
use um_asserts::is_refused;
use um_sector::{Disk, Fault, Sector};
use um_wire::Refusal;

/// Asserts that the disk failed the call, which a request is refused for by the number of a device.
pub fn fails<T: Drop>(rt: &(impl AllocGlobal + Abort), answer: Result<T, Fault>) {
    let answer = match answer {
        Ok(_) => Ok(()),
        Err(fault) => Err(Refusal::from(fault)),
    };
    is_refused!(rt, answer, "E16 Device");
}

/// The content of a sector.
pub fn sector_at<D: Disk>(rt: &impl Abort, disk: &mut D, k: usize) -> Sector {
    let mut sector: Sector = [1; 512];
    disk.read(k, &mut sector).expect(rt, "not read");
    sector
}

/// A sector with these bytes in front and zeros after them.
pub fn filled(bytes: &[u8]) -> Sector {
    let mut sector: Sector = [0; 512];
    for (place, byte) in sector.iter_mut().zip(bytes) {
        *place = *byte;
    }
    sector
}

/// Changes a byte of a sector.
pub fn change<D: Disk>(rt: &impl Abort, disk: &mut D, k: usize, at: usize, byte: u8) {
    let mut sector = sector_at(rt, disk, k);
    assert!(rt; at < 512, "a sector has no such byte");
    sector[at] = byte;
    disk.write(k, &sector).expect(rt, "not written");
}
