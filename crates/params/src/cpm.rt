// CP/M 2.2: the table, and its rows as blocks and as bytes.
ghost use Rattle.params.specs.Blocks.{cpm_block, cpm_bytes};

use crate::{BYTES, Block, CpmBlock, row_of};

// SPT, BSH, BLM, EXM, DSM, DRM, AL0, AL1, CKS, OFF.
#[derive(Clone, Copy)]
struct CpmRow(u16, u8, u8, u8, u16, u16, u8, u8, u16, u16);

const TABLE: [CpmRow; 6] = [
    CpmRow(128, 3, 7, 0, 255, 63, 0xC0, 0x00, 16, 0),
    CpmRow(128, 4, 15, 0, 255, 127, 0xC0, 0x00, 32, 0),
    CpmRow(128, 4, 15, 0, 511, 255, 0xF0, 0x00, 64, 0),
    CpmRow(128, 4, 15, 0, 1023, 511, 0xFF, 0x00, 128, 0),
    CpmRow(128, 4, 15, 0, 2047, 1023, 0xFF, 0xFF, 256, 0),
    CpmRow(128, 5, 31, 1, 2047, 1023, 0xFF, 0x00, 256, 0),
];

impl Block for CpmBlock {
    ghost block = { cpm_block };

    ghost laid = { cpm_bytes };

    fn of_size(size: u32) -> CpmBlock {
        let row = TABLE[row_of(size)];
        CpmBlock {
            spt: row.0,
            bsh: row.1,
            blm: row.2,
            exm: row.3,
            dsm: row.4,
            drm: row.5,
            al0: row.6,
            al1: row.7,
            cks: row.8,
            off: row.9,
        }
    }

    fn to_bytes(self) -> [u8; BYTES] {
        let [spt_low, spt_high] = self.spt.to_le_bytes();
        let [dsm_low, dsm_high] = self.dsm.to_le_bytes();
        let [drm_low, drm_high] = self.drm.to_le_bytes();
        let [cks_low, cks_high] = self.cks.to_le_bytes();
        let [off_low, off_high] = self.off.to_le_bytes();
        [
            spt_low, spt_high, self.bsh, self.blm, self.exm, dsm_low, dsm_high, drm_low, drm_high,
            self.al0, self.al1, cks_low, cks_high, off_low, off_high,
        ]
    }
}
