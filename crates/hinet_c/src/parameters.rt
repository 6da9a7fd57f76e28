// The entries that write disk parameters.
ghost use Rattle.params.specs.declared.System.TheVariants.{Cpm, Msdos};
ghost use Rattle.hinet.specs.ParameterEntries.{Parameters};

// CP/M 2.2's disk parameter block.
#[unsafe(no_mangle)]
pub extern "C" fn hinet_cpm_parameters(size: u32, buffer: &mut [u8]) -> u64
    ensures { Parameters Cpm size buffer.old result buffer.new }
{
    hinet::parameters::hinet_cpm_parameters(size, buffer)
}

// MS-DOS 2.0's parameter block, up to sectors per track.
#[unsafe(no_mangle)]
pub extern "C" fn hinet_msdos_parameters(size: u32, buffer: &mut [u8]) -> u64
    ensures { Parameters Msdos size buffer.old result buffer.new }
{
    hinet::parameters::hinet_msdos_parameters(size, buffer)
}
