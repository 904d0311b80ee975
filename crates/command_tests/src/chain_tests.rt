//! A chain of two pumps where a call of the first receiver's disk fails. All else of a chain is tried in
//! `tests/`.

use crate::stage::{Play, Stage};
use disk_model::{DiskName, MemDisk, Role};
use std::alloc::Global;
use std::test::Fail;

const P: &str = "session 1 3 8 2 20000 100000 500000 weather watch\n";

const Q: &str = "session 2 3 8 2 20000 100000 500000 watch vault\n";

const SENT_ON: &str = "look 1 10 00000000 hello weather watch
look 1 100 00000000 data 0 61
look 1 100 00000000
step 2 105 00000000
step 2 110 00000000
done 1 120 50
step 2 180 00000000
step 2 190 00000000
look 1 200 00000000
done 2 200 30
step 2 268 00000000
";

const PRINTED: &str = "low 1 10 welcome 0
stored 1 100 0
passed 1 100 0 20000
low 2 105 welcome 0
sent 1 120 0
took 1 0
removed 1 170 0 50
stored 2 180 0
passed 2 190 0 20000
low 1 200 ack 0
sent 2 200 0
took 2 0
removed 2 230 0 30
low 2 268 ack 0
end 1 1 1 1
end 2 1 1 1
";

/// A stage with new disks for both sessions, where this call of the first receiver's disk fails, counted
/// from 0.
fn failing_stage(alloc: Global, call: u64) -> Result<Stage<MemDisk>, Fail> {
    let mut disks = Vec::new(alloc);
    for session in [1, 2] {
        for role in [Role::Low, Role::High, Role::Recv] {
            let fails = match (session, role) {
                (1, Role::Recv) => vec![in alloc; call]?,
                _ => Vec::new(alloc),
            };
            let disk = MemDisk::new(alloc, 4096, 256, fails)?;
            disks.push((DiskName { session, role }, disk))?;
        }
    }
    Ok(Stage::new(disks))
}

/// What is printed before the message is read that is to be sent on.
const UNREAD: &str = "low 1 10 welcome 0
stored 1 100 0
passed 1 100 0 20000
low 2 105 welcome 0
sent 1 120 0
took 1 0
removed 1 170 0 50
fault device 1 recv
";

#[test]
fn a_message_that_is_not_read_is_not_sent_on(rt: HostRuntime) -> Result<(), Fail> {
    let alloc = rt.alloc();
    let mut unread = 0u32;
    for call in 0..64 {
        let mut stage = failing_stage(alloc, call)?;
        let (status, written) = stage.play(alloc, Play::Chain, &[P, Q, SENT_ON])?;
        let prefix = written
            .as_slice()
            .strip_suffix(b"fault device 1 recv\n".as_slice());
        let fails = prefix.is_some_and(|prefix| PRINTED.as_bytes().starts_with(prefix));
        let goes = written.as_slice() == PRINTED.as_bytes();
        assert!(rt;
            if status == 7 {
                fails
            } else {
                status == 0 && goes
            }
        );
        if written.as_slice() == UNREAD.as_bytes() {
            unread = unread.saturating_add(1);
        }
    }
    assert!(rt; unread >= 1);
    Ok(())
}
