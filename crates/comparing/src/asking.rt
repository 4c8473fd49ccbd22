ghost use Rattle.std.specs.Prelude.{MatchResult, IfOk};
ghost use Rattle.comparing.specs.Comparisons.{Answered, Stops, Exact};

use super::answer::{Answer, FileFault};
use super::judging::compare_nodes;
use super::stop::Stop;
use designs::check::check_nodes;
use files::reader::read_designs;
use std::alloc::{AllocError, Global};

// Asks the file's questions, then those of the first design and of the second, and then compares.
fn asked(heap: Global, bytes: &[u8]) -> Result<Answer, Stop>
    ensures { MatchResult result (λ a. Answered bytes.now a) (λ e. Stops bytes.now e) }
{
    let pair = read_designs(heap, bytes)?;
    check_nodes(pair.first.as_slice()).map_err(FileFault::First)?;
    check_nodes(pair.second.as_slice()).map_err(FileFault::Second)?;
    Ok(compare_nodes(heap, &pair)?)
}

// Whether the two designs in a file are equal. Only memory can be wanting.
pub fn compare_file(heap: Global, bytes: &[u8]) -> Result<Answer, AllocError>
    ensures answered { IfOk result (λ a. Answered bytes.now a) }
    ensures exact { IfOk result (λ a. Exact bytes.now a) }
{
    match asked(heap, bytes) {
        Ok(answer) => Ok(answer),
        Err(Stop::Fault(fault)) => Ok(Answer::Refused(fault)),
        Err(Stop::Memory(e)) => Err(e),
    }
}
