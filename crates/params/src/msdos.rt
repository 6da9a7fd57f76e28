// MS-DOS 2.0: the table, and its rows as blocks and as bytes.
ghost use Rattle.params.specs.Blocks.{msdos_block, msdos_bytes};

use crate::{BYTES, Block, MsdosBlock, row_of};

// Bytes per sector, sectors per cluster, reserved sectors, FATs, root entries, sectors, media, sectors per FAT, sectors per
// track.
#[derive(Clone, Copy)]
struct MsdosRow(u16, u8, u16, u8, u16, u16, u8, u16, u16);

const TABLE: [MsdosRow; 6] = [
    MsdosRow(128, 8, 1, 2, 64, 2048, 0, 3, 128),
    MsdosRow(128, 8, 1, 2, 128, 4096, 1, 6, 128),
    MsdosRow(128, 8, 1, 2, 256, 8192, 2, 12, 128),
    MsdosRow(128, 16, 1, 2, 256, 16384, 3, 12, 128),
    MsdosRow(128, 16, 1, 2, 256, 32768, 4, 24, 128),
    MsdosRow(128, 32, 1, 2, 256, 65535, 5, 24, 128),
];

impl Block for MsdosBlock {
    ghost block = { msdos_block };

    ghost laid = { msdos_bytes };

    fn of_size(size: u32) -> MsdosBlock {
        let row = TABLE[row_of(size)];
        MsdosBlock {
            bytes_per_sector: row.0,
            sectors_per_cluster: row.1,
            reserved_sectors: row.2,
            fats: row.3,
            root_entries: row.4,
            sectors: row.5,
            media: row.6,
            sectors_per_fat: row.7,
            sectors_per_track: row.8,
        }
    }

    fn to_bytes(self) -> [u8; BYTES] {
        let [bytes_per_sector_low, bytes_per_sector_high] = self.bytes_per_sector.to_le_bytes();
        let [reserved_sectors_low, reserved_sectors_high] = self.reserved_sectors.to_le_bytes();
        let [root_entries_low, root_entries_high] = self.root_entries.to_le_bytes();
        let [sectors_low, sectors_high] = self.sectors.to_le_bytes();
        let [sectors_per_fat_low, sectors_per_fat_high] = self.sectors_per_fat.to_le_bytes();
        let [sectors_per_track_low, sectors_per_track_high] = self.sectors_per_track.to_le_bytes();
        [
            bytes_per_sector_low,
            bytes_per_sector_high,
            self.sectors_per_cluster,
            reserved_sectors_low,
            reserved_sectors_high,
            self.fats,
            root_entries_low,
            root_entries_high,
            sectors_low,
            sectors_high,
            self.media,
            sectors_per_fat_low,
            sectors_per_fat_high,
            sectors_per_track_low,
            sectors_per_track_high,
        ]
    }
}
