//! Session tables: the rows that are read, with their ports, and the one refusal that no document brings
//! about. All other tables are tried in `tests/`.

use pump_frame::{Name, SessionRow};
use session_table::{Table, TableFault};
use std::alloc::{AllocError, Global};
use std::test::Fail;

// The example of `docs/formats.md`.
const FIRST: &str = r#"[[session]]
id = 1
low = "weather"
high = "watch"
capacity = 3
message = 8
window = 2
start = 20000
longest = 100000
resend = 500000
low_port = 7001
high_port = 7002
"#;

// Each number at an end of its range, and the keys in another order.
const SECOND: &str = r#"[[session]]
high_port = 0x1b5c
low_port = 65_535
resend = 1
longest = 1_000_000_000
start = 0
window = 256
message = 1024
capacity = 256
coarse = true
high = "-"
low = "a-name-of-thirty-two-bytes-00009"
id = 4294967295
"#;

fn is_first(row: &SessionRow) -> bool {
    (row.id, row.capacity, row.message, row.window) == (1, 3, 8, 2)
        && !row.coarse
        && (row.start, row.longest, row.resend) == (20000, 100_000, 500_000)
        && (row.low_port, row.high_port) == (7001, 7002)
        && row.low.as_slice() == b"weather".as_slice()
        && row.high.as_slice() == b"watch".as_slice()
}

fn is_second(row: &SessionRow) -> bool {
    (row.id, row.capacity, row.message, row.window) == (u32::MAX, 256, 1024, 256)
        && row.coarse
        && (row.start, row.longest, row.resend) == (0, 1_000_000_000, 1)
        && (row.low_port, row.high_port) == (65535, 7004)
        && row.low.as_slice() == b"a-name-of-thirty-two-bytes-00009".as_slice()
        && row.high.as_slice() == b"-".as_slice()
}

fn has_both(table: &Table) -> bool {
    match table.rows() {
        [first, second] => is_first(first) && is_second(second),
        _ => false,
    }
}

#[test]
fn a_table_has_the_rows_of_its_document(rt: HostRuntime) -> Result<(), Fail> {
    let text = format!(in rt.alloc(); "{FIRST}{SECOND}")?;
    let table = Table::read(rt.alloc(), text.as_bytes())
        .ok()
        .ok_or("it is refused")?;
    assert!(rt; has_both(&table));
    assert!(rt; table.row(1).is_some_and(|row| is_first(&row)));
    assert!(rt; table.row(u32::MAX).is_some_and(|row| is_second(&row)));
    assert!(rt; table.row(2).is_none());
    let low = Name::from_slice(b"weather").ok_or("low")?;
    let high = Name::from_slice(b"watch").ok_or("high")?;
    assert!(rt; table.permits(1, &low, &high));
    assert!(rt; !table.permits(1, &high, &low) && !table.permits(2, &low, &high));
    for (document, rows) in [(FIRST, 1), (SECOND, 1), ("session = []", 0)] {
        let table = Table::read(rt.alloc(), document.as_bytes());
        assert!(rt;
            table.is_ok_and(|table| table.rows().len() == rows),
            "{document}"
        );
    }
    Ok(())
}

fn says(alloc: Global, fault: TableFault, sentence: &str) -> Result<bool, AllocError> {
    Ok(fault.to_string(alloc)?.as_str() == sentence)
}

#[test]
fn a_refusal_says_what_to_mend(rt: HostRuntime) -> Result<(), Fail> {
    let alloc = rt.alloc();
    assert!(rt;
        says(
            alloc,
            TableFault::Memory,
            "there is not enough memory for the table; end other programs and try again"
        )?
    );
    Ok(())
}
