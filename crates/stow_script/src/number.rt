//! Numbers in a script's lines.
ghost use Rattle.stow_commands.specs.StowBytes.Limits.{number_limit};
ghost use Rattle.stow_script.specs.Read.{IsNumberRead};

use crate::text::TextFault;
use stow_commands::number::magnitude;
use stow_commands::stow_bytes::limits::NUMBER_LIMIT;

/// The number within these limits whose decimal text this is, without a sign or a leading zero.
pub fn number(text: &[u8], low: u32, high: u32) -> Result<u32, TextFault<'_>>
    ensures { IsNumberRead low high text.now result }
{
    match magnitude(text) {
        Some(value) if u64::from(low) <= value && value <= u64::from(high) => Ok(value as u32),
        _ => Err(TextFault::Malformed(text)),
    }
}

/// The quota, in bytes, whose decimal text this is, without a sign or a leading zero.
pub fn quota(text: &[u8]) -> Result<u64, TextFault<'_>>
    ensures { IsNumberRead 0 number_limit text.now result }
{
    let Some(value) = magnitude(text) else {
        return Err(TextFault::Malformed(text));
    };
    if value > NUMBER_LIMIT {
        return Err(TextFault::Malformed(text));
    }
    Ok(value)
}
