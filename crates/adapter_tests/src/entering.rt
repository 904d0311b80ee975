//! Folders of the machine for one test each.

use std::test::Fail;
use std::{env, fs, process};

/// Makes a folder that no other process uses, and goes there. It is named by its whole path.
pub fn enter(rt: &HostRuntime, name: &str) -> Result<String, Fail> {
    let folder = format!(in rt.alloc(); "/tmp/netpump_{}_{}", name, process::id(rt.process()))?;
    fs::create_dir(rt, folder.as_str())?;
    env::set_current_dir(rt, folder.as_str())?;
    Ok(folder)
}
