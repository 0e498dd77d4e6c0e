// The lines that tell a verdict: accepted, refused with its cause, or where a claims list is wrong.
ghost use Rattle.std.specs.Prelude.{◌≡◌, ◌++◌, IfOk, string_bytes, codes, decimal};
ghost use Rattle.faults.specs.Numbers.{number_of};
ghost use Rattle.faults.specs.Words.{words_of};
ghost use Rattle.notation.specs.Words.{words_of as mistake_words};

use faults::Fault;
use listing::Misplaced;
use std::alloc::{AllocError, Global};

pub fn accepted(heap: Global, count: usize) -> Result<String, AllocError>
    ensures { IfOk result (λ s. string_bytes s ≡ codes "accepted " ++ (decimal count ++ codes " claims")) }
{
    format!(in heap; "accepted {count} claims")
}

pub fn refused(heap: Global, fault: Fault) -> Result<String, AllocError>
    ensures { IfOk result (λ s. string_bytes s ≡ codes "refused " ++ (decimal (number_of fault.cause) ++ (codes " at " ++ (decimal fault.place ++ (codes ": " ++ words_of fault.cause))))) }
{
    format!(in heap; "refused {fault}")
}

// Where a claims list is wrong, and what is.
pub fn misplaced(heap: Global, file: &str, found: Misplaced) -> Result<String, AllocError>
    ensures { IfOk result (λ s. string_bytes s ≡ file.now ++ (codes ":" ++ (decimal found.line ++ (codes ":" ++ (decimal found.column ++ (codes ": " ++ mistake_words found.mistake)))))) }
{
    format!(in heap; "{file}:{found}")
}

// The last line of a packet that was shown.
pub fn size_line(heap: Global, size: usize) -> Result<String, AllocError>
    ensures { IfOk result (λ s. string_bytes s ≡ decimal size ++ codes " bytes, written back byte for byte") }
{
    format!(in heap; "{size} bytes, written back byte for byte")
}
