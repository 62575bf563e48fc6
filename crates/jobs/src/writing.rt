// The log as it grows.
ghost use Rattle.std.specs.Prelude.{◌≡◌, ◌++◌, OnOk};
ghost use Rattle.loglines.specs.Text.{log_line};

use loglines::{LogLine, ROOM};
use std::alloc::AllocError;

// Adds a line to the log.
pub(crate) fn add(log: &mut Vec<u8>, line: &LogLine) -> Result<(), AllocError>
    ensures { OnOk result (log.new.items ≡ log.old.items ++ log_line line.now) }
{
    let mut text = [0; ROOM];
    match line.write(&mut text) {
        Ok(len) => log.extend_from_slice(&text[0..len]),
        Err(_) => unreachable(),
    }
}
