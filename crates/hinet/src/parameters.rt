// The entries that write the disk parameters of a size code (specs/ParameterEntries.antt): 16, 13, or the length, 15.
ghost use Rattle.params.specs.declared.System.TheVariants.{Cpm, Msdos};
ghost use Rattle.hinet.specs.ParameterEntries.{Parameters};

use crate::packing::{Packed, Written};
use params::System;

// Writes a system's block.
fn write_block(system: System, size: u32, buffer: &mut [u8]) -> u64
    ensures { Parameters system size buffer.old result buffer.new }
{
    match params::write(system, size, buffer) {
        Ok(()) => Written(params::BYTES as u8).pack(),
        Err(refusal) => refusal.pack(),
    }
}

// CP/M 2.2's disk parameter block.
pub fn hinet_cpm_parameters(size: u32, buffer: &mut [u8]) -> u64
    ensures { Parameters Cpm size buffer.old result buffer.new }
{
    write_block(System::Cpm, size, buffer)
}

// MS-DOS 2.0's parameter block, up to sectors per track.
pub fn hinet_msdos_parameters(size: u32, buffer: &mut [u8]) -> u64
    ensures { Parameters Msdos size buffer.old result buffer.new }
{
    write_block(System::Msdos, size, buffer)
}
