//! The table of instructions against its rows: each line of the input is a row, and each that differs is printed. Run it by
//! `rt run` in its folder.
#![tactic(auto)]

mod reader;
mod row;

use anyhow::{Context, Result};
use row::is_met;

fn main(rt: HostRuntime) -> Result<()> {
    let mut rows = 0u64;
    let mut differ = 0u64;
    for line in rt.lines(rt.alloc()) {
        let line = line?;
        let line = line.as_str();
        if !is_row(line) {
            continue;
        }
        rows = rows.saturating_add(1);
        if !is_met(rt.alloc(), line).context(format_args!("row {rows}: {line}"))? {
            differ = differ.saturating_add(1);
            println!(rt; "differs: {line}")?;
        }
    }
    println!(rt; "{rows} rows, {differ} differ")?;
    Ok(())
}

// Whether a line is a row: neither empty nor a comment.
fn is_row(line: &str) -> bool {
    !line.is_empty() && !line.starts_with('%')
}
