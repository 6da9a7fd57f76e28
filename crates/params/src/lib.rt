// Disk parameters for each size code (02, Req 03): CP/M 2.2's disk parameter block, and MS-DOS 2.0's parameter block up to
// sectors per track, each as a record and as 15 bytes. Both come from a constant table with a row for each size code.
#![tactic(auto)]

mod cpm;
mod msdos;

ghost use Rattle.std.specs.Prelude.{◌≡◌, ℕ, List, true, ◌-◌, ◌<◌};
ghost use Rattle.refusals.specs.Outcomes.{refusal_in, GivesUnless};
ghost use Rattle.params.specs.Tables.{sized};
ghost use Rattle.params.specs.Blocks.{cpm_block, msdos_block};
ghost use Rattle.params.specs.Answers.{size_refusal, write_refusal, Puts, Writes};

use refusals::Refusal;

// How many bytes each block has.
pub const BYTES: usize = 15;

// CP/M 2.2's disk parameter block.
#[derive(Clone, Copy, Debug, PartialEq, Eq)]
pub struct CpmBlock {
    pub spt: u16,
    pub bsh: u8,
    pub blm: u8,
    pub exm: u8,
    pub dsm: u16,
    pub drm: u16,
    pub al0: u8,
    pub al1: u8,
    pub cks: u16,
    pub off: u16,
}

// MS-DOS 2.0's parameter block up to sectors per track.
#[derive(Clone, Copy, Debug, PartialEq, Eq)]
pub struct MsdosBlock {
    pub bytes_per_sector: u16,
    pub sectors_per_cluster: u8,
    pub reserved_sectors: u16,
    pub fats: u8,
    pub root_entries: u16,
    pub sectors: u16,
    pub media: u8,
    pub sectors_per_fat: u16,
    pub sectors_per_track: u16,
}

// The systems that have a block.
#[derive(Clone, Copy, Debug, PartialEq, Eq)]
pub enum System {
    Cpm,
    Msdos,
}

// A block of disk parameters: a row of a constant table as a record, and the record as bytes.
pub trait Block: Copy {
    ghost block: { ℕ → Self };

    ghost laid: { Self → List ℕ };

    // The block of a size code 1 to 6.
    fn of_size(size: u32) -> Self
        requires { sized size ≡ true }
        ensures { result ≡ block size };

    // The block in bytes.
    fn to_bytes(self) -> [u8; BYTES]
        ensures { result ≡ laid self };
}

// The number is a size code.
fn is_size(size: u32) -> bool
    ensures { result ≡ sized size }
{
    if size < 1 {
        return false;
    }
    size <= 6
}

// The row of a size code in the tables.
fn row_of(size: u32) -> usize
    requires { sized size ≡ true }
    ensures { (result ≡ size - 1) × (result < 6) }
{
    (size - 1) as usize
}

// The block of a size code; 16 for another number.
fn parameters<B: Block>(size: u32) -> Result<B, Refusal>
    ensures { GivesUnless (size_refusal size) (B.block size) result }
{
    if !is_size(size) {
        return Err(Refusal::NoSuchSize);
    }
    Ok(B::of_size(size))
}

// CP/M's parameters of a size code; 16 for another number.
pub fn cpm_parameters(size: u32) -> Result<CpmBlock, Refusal>
    ensures { GivesUnless (size_refusal size) (cpm_block size) result }
{
    parameters(size)
}

// MS-DOS's parameters of a size code; 16 for another number.
pub fn msdos_parameters(size: u32) -> Result<MsdosBlock, Refusal>
    ensures { GivesUnless (size_refusal size) (msdos_block size) result }
{
    parameters(size)
}

// Puts the block of a size code down at the start of the buffer; 13 where the buffer is shorter, and then nothing is written.
fn put_block<B: Block>(size: u32, buffer: &mut [u8]) -> Result<(), Refusal>
    ensures { Puts (write_refusal size buffer.old) (B.laid (B.block size)) buffer.old (refusal_in result) buffer.new }
{
    let block = parameters::<B>(size)?;
    if buffer.len() < BYTES {
        return Err(Refusal::ShortBuffer);
    }
    rows::put(buffer, 0, &block.to_bytes());
    Ok(())
}

// Writes a system's block of a size code at the start of the buffer: 16, 13, or it is written.
pub fn write(system: System, size: u32, buffer: &mut [u8]) -> Result<(), Refusal>
    ensures { Writes system size buffer.old (refusal_in result) buffer.new }
{
    match system {
        System::Cpm => put_block::<CpmBlock>(size, buffer),
        System::Msdos => put_block::<MsdosBlock>(size, buffer),
    }
}
