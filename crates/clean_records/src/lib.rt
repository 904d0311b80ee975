//! Laws alone, without code that runs: the records that the program prints are clean, as `pump_audit` judges
//! them. They are told of the record of a low process's looks (`records_are_clean`), of a race
//! (`race_records_are_clean`) and of a session that is served (`served_records_are_clean`). They stand apart
//! since neither the workers nor the auditor know one another.
#![tactic(auto)]

mod laws;

pub use laws::{race_records_are_clean, records_are_clean, served_records_are_clean};
