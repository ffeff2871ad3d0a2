// Valid results and faults.

ghost use Rattle.std.specs.Prelude.{◌≡◌, ◌≢◌, IfOk, IfSome, MatchResult, None, Ok, Some};

use std::alloc::AllocError;
use tq_event::LoadFaultKind;

/// The value read, or `None` after any fault but a failed allocation. `AllocError` if an allocation failed.
pub fn if_valid<T: Drop>(read: Result<T, LoadFaultKind>) -> Result<Option<T>, AllocError>
    ensures found { IfOk result (λ found. IfSome found (λ x. read ≡ Ok x)) }
    ensures parsed { MatchResult read (λ x. result ≡ Ok (Some x)) (λ fault. MatchResult result (λ found. (found ≡ None) × (fault ≢ LoadFaultKind.OutOfMemory)) (λ _. fault ≡ LoadFaultKind.OutOfMemory)) }
{
    match read {
        Ok(x) => Ok(Some(x)),
        Err(LoadFaultKind::OutOfMemory) => Err(AllocError),
        Err(_) => Ok(None),
    }
}
