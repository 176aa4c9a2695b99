//! The line that tells an answer.

ghost use Rattle.std.specs.Prelude.{◌≡◌, IfOk, string_bytes};
ghost use Rattle.answering.specs.Answers.{line_of, told};

use crate::fault::InputFault;
use auditing::audits::Counts;
use faults::report::Report;
use std::alloc::{AllocError, Global};

/// One line: `ok` and the counts, or `no` and how the refusal is told.
// It tells what the two audit programs print, so it may use the heap.
pub fn line(heap: Global, answer: Result<Counts, Report>) -> Result<String, AllocError>
    ensures { IfOk result (λ s. string_bytes s ≡ line_of answer) }
{
    match answer {
        Ok(counts) => format!(in heap; "ok,{counts}\n"),
        Err(report) => format!(in heap; "no,{report}\n"),
    }
}

/// The line that tells the answer for an input.
// Both programs print it, so that no step between the answer and the line is left to them.
pub fn answer_line(heap: Global, answer: Result<Counts, InputFault>) -> Result<String, AllocError>
    ensures { IfOk result (λ s. string_bytes s ≡ line_of (told answer)) }
{
    line(heap, answer.map_err(Report::from))
}
