// The entry that chooses the system of a login (specs/BootEntries.antt).
ghost use Rattle.boot.specs.Tables.{lent};
ghost use Rattle.hinet.specs.BootEntries.{SystemChosen};

use crate::packing::Packed;
use boot::{Login, Tables};

// Chooses the system: 23, 13, or the honor flag.
pub fn hinet_boot(
    serial: &[u8; 4],
    name: &[u8; 8],
    password: &[u8; 6],
    machines: &[u8],
    products: &[u8],
    users: &[u8],
    configurations: &[u8],
    systems: &[u8],
    directory: &[u8],
    block: &mut [u8],
) -> u64
    ensures { SystemChosen (lent machines.now products.now users.now configurations.now systems.now directory.now) serial.now name.now password.now block.old result block.new }
{
    let login = Login {
        serial,
        name,
        password,
    };
    let tables = Tables {
        machines,
        products,
        users,
        configurations,
        systems,
        directory,
    };
    boot::boot(&login, &tables, block).pack()
}
