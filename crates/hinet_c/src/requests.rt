// The entries that write and read one request frame.
ghost use Rattle.rows.specs.Outcomes.{Gives};
ghost use Rattle.terms.specs.Strings.{string_at};
ghost use Rattle.frames.specs.declared.Command.TheVariants.{Acknowledge, Read, Write, Assign, Lock, Unlock, Clear};
ghost use Rattle.frames.specs.Requests.{plain};
ghost use Rattle.hinet.specs.FrameEntries.{disk_of, logout_of, login_of, named_of, string_of, Composes, read_word};

// 41: acknowledge.
#[unsafe(no_mangle)]
pub extern "C" fn hinet_write_acknowledge(buffer: &mut [u8]) -> u64
    ensures { Composes (plain Acknowledge) buffer.old result buffer.new }
{
    hinet::requests::hinet_write_acknowledge(buffer)
}

// 11: read the sector at an address.
#[unsafe(no_mangle)]
pub extern "C" fn hinet_write_read(
    src: u32,
    volume: u32,
    partition: u32,
    track: u32,
    sector: u32,
    buffer: &mut [u8],
) -> u64
    ensures { Composes (disk_of Read src volume partition track sector) buffer.old result buffer.new }
{
    hinet::requests::hinet_write_read(src, volume, partition, track, sector, buffer)
}

// 12: write the sector at an address.
#[unsafe(no_mangle)]
pub extern "C" fn hinet_write_write(
    src: u32,
    volume: u32,
    partition: u32,
    track: u32,
    sector: u32,
    buffer: &mut [u8],
) -> u64
    ensures { Composes (disk_of Write src volume partition track sector) buffer.old result buffer.new }
{
    hinet::requests::hinet_write_write(src, volume, partition, track, sector, buffer)
}

// 13: login.
#[unsafe(no_mangle)]
pub extern "C" fn hinet_write_login(
    name: &[u8; 8],
    password: &[u8; 6],
    serial: &[u8; 4],
    product: u8,
    buffer: &mut [u8],
) -> u64
    ensures { Composes (login_of name.now password.now serial.now product) buffer.old result buffer.new }
{
    hinet::requests::hinet_write_login(name, password, serial, product, buffer)
}

// 17: assign a partition.
#[unsafe(no_mangle)]
pub extern "C" fn hinet_write_assign(name: &[u8; 8], password: &[u8; 6], buffer: &mut [u8]) -> u64
    ensures { Composes (named_of Assign name.now password.now) buffer.old result buffer.new }
{
    hinet::requests::hinet_write_assign(name, password, buffer)
}

// 19: lock.
#[unsafe(no_mangle)]
pub extern "C" fn hinet_write_lock(lockstring: &[u8; 14], buffer: &mut [u8]) -> u64
    ensures { Composes (string_of Lock (string_at lockstring.now 0)) buffer.old result buffer.new }
{
    hinet::requests::hinet_write_lock(lockstring, buffer)
}

// 1A: unlock.
#[unsafe(no_mangle)]
pub extern "C" fn hinet_write_unlock(lockstring: &[u8; 14], buffer: &mut [u8]) -> u64
    ensures { Composes (string_of Unlock (string_at lockstring.now 0)) buffer.old result buffer.new }
{
    hinet::requests::hinet_write_unlock(lockstring, buffer)
}

// 1B: clear all locks.
#[unsafe(no_mangle)]
pub extern "C" fn hinet_write_clear(buffer: &mut [u8]) -> u64
    ensures { Composes (plain Clear) buffer.old result buffer.new }
{
    hinet::requests::hinet_write_clear(buffer)
}

// 1F: instant logout.
#[unsafe(no_mangle)]
pub extern "C" fn hinet_write_logout(src: u32, buffer: &mut [u8]) -> u64
    ensures { Composes (logout_of src) buffer.old result buffer.new }
{
    hinet::requests::hinet_write_logout(src, buffer)
}

// Reads a frame by itself: 1, 3, 4, 6, or its code.
#[unsafe(no_mangle)]
pub extern "C" fn hinet_read_frame(frame: &[u8]) -> u64
    ensures { Gives (read_word frame.now) result }
{
    hinet::requests::hinet_read_frame(frame)
}
