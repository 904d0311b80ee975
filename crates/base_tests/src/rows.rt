//! A session's row and the register of its new disks, for the tests of stores and receivers.

ghost use Rattle.std.specs.Prelude.{◌≡◌, ◌≤◌, []};
ghost use Rattle.disk_model.specs.Disk.{Settled};
ghost use Rattle.pump_frame.specs.Rows.{IsLawfulRow};
ghost use Rattle.stable_buffer.specs.Format.{FormatStands, second_of};
ghost use Rattle.stable_buffer.specs.Register.{IsReady, register_disk, register_value};

use disk_model::{Disk, Role};
use pump_frame::SessionRow;
use stable_buffer::{Register, format};
use std::process::Abort;

/// Session 1 of capacity 3, with this message size.
pub fn row(rt: &impl Abort, message: u32) -> SessionRow
    requires some { 1 ≤ message }
    requires short { message ≤ 1024 }
    ensures lawful { IsLawfulRow result }
    ensures size { result.message ≡ message }
{
    fixtures::row(message).expect(rt, "a row")
}

fn second(role: Role) -> u64
    ensures { result ≡ second_of role }
{
    match role {
        Role::Low | Role::High => 0,
        Role::Recv => 80,
    }
}

/// The register of a new disk of the row, with the count 0.
pub fn new_register<D: Disk>(
    rt: &impl Abort,
    mut disk: D,
    row: &SessionRow,
    role: Role,
) -> Register<D>
    requires empty { D.told.tells → D.told.reading disk ≡ [] }
    requires lawful { IsLawfulRow row.now }
    ensures ready { IsReady D.told result }
    ensures value { register_value result ≡ (0, second_of role) }
    ensures settled { Settled D.told (register_disk result) }
    ensures stands { D.told.tells
        → FormatStands row.now role 0 (D.told.reading (register_disk result)) }
{
    assert!(rt; format(&mut disk, row, role, 0).is_ok());
    match Register::open(disk) {
        Ok(register) => {
            assert_eq!(rt; register.value(), (0, second(role)));
            register
        }
        Err(_) => panic!(rt; "the disk does not open"),
    }
}
