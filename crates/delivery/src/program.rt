//! The program's answer to its input.
ghost use Rattle.std.specs.Prelude.{◌≡◌, IfOk};
ghost use Rattle.delivery.specs.Answer.{answered};

use super::output;
use super::running::run;
use file::FILE_MOST;
use job::parse;
use std::alloc::{AllocError, Global};

/// What the program writes for this input. The file that it shows is the one that was put together, not the one that
/// came in.
pub fn answer(heap: Global, input: &[u8]) -> Result<Vec<u8>, AllocError>
    ensures { IfOk result (λ v. v.items ≡ answered input.now) }
{
    let job = match parse(input) {
        Ok(job) => job,
        Err(refusal) => return job::refused(heap, refusal),
    };
    // Behind the parse, since filling it takes longer than all else that a refused job needs.
    let mut buffer = [0; FILE_MOST];
    match run(job, &mut buffer) {
        Ok(outcome) => output::outcome(heap, outcome, &buffer),
        Err(refusal) => job::refused(heap, refusal),
    }
}
