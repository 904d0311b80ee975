//! A record that can't be read. What is said of records that can be is tried in `tests/`.

use pump_audit::{AuditFault, audit};
use pump_link::MemSource;
use std::alloc::Global;

const OPENING: &[u8] = b"low-session 1 3 8 2 20000 100000 500000 a b 0 0";

// The bytes of these lines.
fn joined(alloc: Global, lines: &[&[u8]]) -> Result<Vec<u8>, AuditFault> {
    let mut bytes = Vec::new(alloc);
    for line in lines {
        bytes
            .extend_from_slice(line)
            .map_err(|_| AuditFault::Memory)?;
        bytes.push(b'\n').map_err(|_| AuditFault::Memory)?;
    }
    Ok(bytes)
}

#[test]
fn a_failed_read_is_no_verdict(rt: HostRuntime) -> Result<(), AuditFault> {
    let alloc = rt.alloc();
    let bytes = joined(alloc, &[OPENING])?;
    let mut fails = Vec::new(alloc);
    fails.push(2).map_err(|_| AuditFault::Memory)?;
    let mut tape = MemSource::new(bytes, 7, fails);
    assert_eq!(rt; audit(alloc, &mut tape), Err(AuditFault::Read));
    Ok(())
}
