//! What a measurement found, as it is printed.

use crate::rate::Rate;
use anyhow::Result;

/// Prints how many rounds a second has, and how many megabytes of 1,000,000 bytes.
pub fn print(rt: &HostRuntime, rate: &Rate<'_>) -> Result<()> {
    let (a_second, megabytes) = (rate.a_second(), rate.megabytes());
    println!(rt; "  {}: {a_second} a second, {megabytes} MB/s", rate.name)?;
    Ok(())
}
