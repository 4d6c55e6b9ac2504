// Kind 7: the build, by the call that a bench makes. The case has the bytes of the description record, both layouts, the images and
// the lent table's length.
use crate::images::{checksum, fill, span_bytes};
use crate::layouts::{addr_bytes, select_bytes};
use case_numbers::answer::{put, returned};
use case_numbers::case::{byte_at, number_at, record_bytes};
use onerom::onerom_build_rom_image;

// Cases are low byte first.
const LOW_FIRST: u64 = 0;

fn put_table(ours: &mut [u64], begun: usize, table: &[u8]) -> usize {
    let long = put(ours, begun, table.len() as u64);
    put(ours, long, checksum(table))
}

// The table at the front of the buffer: as many words as the address layout's pins have indices. The build was accepted, so that the
// pins are few and the buffer is long enough.
fn put_built(case: &[u64], ours: &mut [u64], begun: usize, lent: &[u8]) -> usize {
    let pins = byte_at(case, 426);
    let word_bytes = byte_at(case, 4);
    if 31 < pins {
        return 0;
    }
    let size = (word_bytes as usize) << pins;
    if lent.len() < size {
        return 0;
    }
    put_table(ours, begun, &lent[0..size])
}

fn built(case: &[u64], images: &[u8], lent: &mut [u8]) -> u64 {
    let description = record_bytes(case, 1);
    let a = addr_bytes(case, 425);
    let c = select_bytes(case, 455);
    let spans = span_bytes(case);
    onerom_build_rom_image(&description, &a, &c, &spans, images, LOW_FIRST, lent)
}

// A case whose table or images are too large for the buffers is none here.
fn answered(case: &[u64], ours: &mut [u64], table: &mut [u8]) -> usize {
    let mut images = [0u8; 32768];
    let lent = number_at(case, 567);
    if (table.len() as u64) < lent {
        return 0;
    }
    if !fill(case, &mut images) {
        return 0;
    }
    let result = built(case, &images, &mut table[0..lent as usize]);
    let begun = returned(case, ours, result);
    if result == 0 {
        return put_built(case, ours, begun, table);
    }
    begun
}

pub(crate) fn answer(case: &[u64], ours: &mut [u64]) -> usize {
    if case.len() != 568 {
        return 0;
    }
    let mut table = [0u8; 8192];
    answered(case, ours, &mut table)
}
