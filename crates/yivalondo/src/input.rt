// What the program is given: files, or standard input.
use anyhow::anyhow;
use std::fs;
use std::io::Read;

// All of standard input.
pub fn read_input(rt: &HostRuntime) -> anyhow::Result<Vec<u8>> {
    let mut bytes = Vec::new(rt.alloc());
    rt.stdin().read_to_end(&mut bytes)?;
    Ok(bytes)
}

// The bytes of a file.
pub fn read_file(rt: &HostRuntime, path: &str) -> anyhow::Result<Vec<u8>> {
    fs::read(rt, path).map_err(|why| anyhow!("cannot read {path}: {why}"))
}
