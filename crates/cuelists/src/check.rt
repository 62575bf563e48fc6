// What an operator wants to know of a list before a job: its first fault, or its calls in the order in which they run.
ghost use Rattle.std.specs.Prelude.{◌≡◌, Some, IfOk, string_bytes};
ghost use Rattle.queue.specs.Held.{held};
ghost use Rattle.cuelists.specs.Checks.{calls_text, check_text};

use crate::due::Due;
use crate::list::{MOST_CALLS, read_list};
use layers::plan::Entries;
use queue::Queue;
use std::alloc::{AllocError, Global};

// The text for a list: number, line and place of its first fault; or each call as its line, in the order in which they
// run, and their number. Memory may run out.
pub fn check_list(heap: Global, input: &[u8]) -> Result<String, AllocError>
    ensures { IfOk result (λ text. string_bytes text ≡ check_text input.now) }
{
    let mut memory = [Due::FILLER; MOST_CALLS];
    let mut queue = Queue::new(&mut memory);
    let mut entries = Entries::new();
    match read_list(input, &mut entries, &mut queue) {
        Err(fault) => format!(in heap; "{fault}\n"),
        Ok(()) => in_order(heap, &mut queue),
    }
}

// Each call that waits as its line, and their number.
fn in_order(heap: Global, queue: &mut Queue<Due>) -> Result<String, AllocError>
    ensures { IfOk result (λ text. string_bytes text ≡ calls_text (held queue.old)) }
{
    let count = queue.len();
    let mut text = String::new(heap);
    while let Some(due) = queue.pop() {
        writeln!(text, "{due}")?;
    }
    writeln!(text, "{count}")?;
    Ok(text)
}
