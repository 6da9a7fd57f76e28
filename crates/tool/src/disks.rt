// The disk parameters as a person types them in: for each system a line for each field of its block, in the block's order,
// with a column for each size code, and then the blocks in bytes. All numbers are those of `params`.
ghost use Rattle.std.specs.Prelude.{◌≡◌};

use pages::Page;
use params::{CpmBlock, MsdosBlock, System};
use refusals::Refusal;
use std::fmt;
use std::fmt::Display;

// Room for both systems, which take fewer than 2,500 bytes.
pub const PAGE: usize = 4096;

// A column: a size code, and its blocks.
#[derive(Clone, Copy)]
struct Column {
    size: u32,
    cpm: CpmBlock,
    msdos: MsdosBlock,
}

impl Column {
    // The column of a size code; 16 for another number.
    fn of_size(size: u32) -> Result<Column, Refusal> {
        let cpm = params::cpm_parameters(size)?;
        let msdos = params::msdos_parameters(size)?;
        Ok(Column { size, cpm, msdos })
    }

    // The partition's kilobytes are MS-DOS's sectors, eight a kilobyte, rounded up: at size 6 it counts one too few.
    fn kilobytes(&self) -> u32 {
        u32::from(self.msdos.sectors).div_ceil(8)
    }
}

// A byte that is told by its bits, in hex, at the right of a column of seven.
#[derive(Clone, Copy)]
struct Bits(u8);

impl fmt::Display for Bits {
    fn fmt<W: fmt::Write>(&self, f: &mut fmt::Formatter<W>) -> fmt::Result {
        write!(f, "    {:02X}h", self.0)
    }
}

// Puts down a line: what it is about, and this field in the columns.
fn append_line<D: Display + Drop, F: Fn(&Column) -> D>(
    page: &mut Page,
    sizes: &[u32],
    label: &str,
    field: F,
)
    requires { F.IsAlwaysCallable field }
    ensures { page.new.room.ghost_name ≡ page.old.room.ghost_name }
{
    write!(page, "{label:<26}");
    for size in sizes {
        if let Ok(column) = Column::of_size(*size) {
            write!(page, "{:>7}", field(&column));
        }
    }
    writeln!(page);
}

// The lines at the head of both tables.
fn append_head(page: &mut Page, sizes: &[u32])
    ensures { page.new.room.ghost_name ≡ page.old.room.ghost_name }
{
    append_line(page, sizes, "size code", |c| c.size);
    append_line(page, sizes, "partition in kilobytes", |c| c.kilobytes());
}

// The lines of CP/M's fields.
fn append_cpm(page: &mut Page, sizes: &[u32])
    ensures { page.new.room.ghost_name ≡ page.old.room.ghost_name }
{
    append_line(page, sizes, "SPT  sectors per track", |c| c.cpm.spt);
    append_line(page, sizes, "BSH  block shift", |c| c.cpm.bsh);
    append_line(page, sizes, "BLM  block mask", |c| c.cpm.blm);
    append_line(page, sizes, "EXM  extent mask", |c| c.cpm.exm);
    append_line(page, sizes, "DSM  blocks - 1", |c| c.cpm.dsm);
    append_line(page, sizes, "DRM  directory entries - 1", |c| c.cpm.drm);
    append_line(page, sizes, "AL0  directory blocks", |c| Bits(c.cpm.al0));
    append_line(page, sizes, "AL1", |c| Bits(c.cpm.al1));
    append_line(page, sizes, "CKS  check vector", |c| c.cpm.cks);
    append_line(page, sizes, "OFF  system tracks", |c| c.cpm.off);
}

// The lines of MS-DOS's fields.
fn append_msdos(page: &mut Page, sizes: &[u32])
    ensures { page.new.room.ghost_name ≡ page.old.room.ghost_name }
{
    append_line(
        page,
        sizes,
        "bytes per sector",
        |c| c.msdos.bytes_per_sector,
    );
    append_line(
        page,
        sizes,
        "sectors per cluster",
        |c| c.msdos.sectors_per_cluster,
    );
    append_line(
        page,
        sizes,
        "reserved sectors",
        |c| c.msdos.reserved_sectors,
    );
    append_line(page, sizes, "FATs", |c| c.msdos.fats);
    append_line(
        page,
        sizes,
        "root directory entries",
        |c| c.msdos.root_entries,
    );
    append_line(page, sizes, "sectors", |c| c.msdos.sectors);
    append_line(page, sizes, "media byte", |c| c.msdos.media);
    append_line(page, sizes, "sectors per FAT", |c| c.msdos.sectors_per_fat);
    append_line(
        page,
        sizes,
        "sectors per track",
        |c| c.msdos.sectors_per_track,
    );
}

// A system's blocks in bytes, a line for each size code.
fn append_blocks(page: &mut Page, sizes: &[u32], system: System)
    ensures { page.new.room.ghost_name ≡ page.old.room.ghost_name }
{
    for size in sizes {
        let mut block = [0u8; params::BYTES];
        if params::write(system, *size, &mut block).is_ok() {
            write!(page, "bytes of size code {size}");
            page.append_hex(&block);
            writeln!(page);
        }
    }
}

// A system's table below its title: the lines at the head, those of its fields, and the blocks in bytes.
fn append_table(page: &mut Page, sizes: &[u32], system: System)
    ensures { page.new.room.ghost_name ≡ page.old.room.ghost_name }
{
    append_head(page, sizes);
    match system {
        System::Cpm => append_cpm(page, sizes),
        System::Msdos => append_msdos(page, sizes),
    }
    append_blocks(page, sizes, system);
}

// Puts down both systems' tables for these size codes.
pub fn append_tables(page: &mut Page, sizes: &[u32])
    ensures { page.new.room.ghost_name ≡ page.old.room.ghost_name }
{
    writeln!(page, "CP/M 2.2 disk parameter block");
    append_table(page, sizes, System::Cpm);
    writeln!(
        page,
        "\nMS-DOS 2.0 parameter block, up to sectors per track"
    );
    append_table(page, sizes, System::Msdos);
}
