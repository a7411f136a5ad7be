//! What an error of `csv` over memory means: an allocation failed.
ghost use Rattle.std.specs.Prelude.{◌≡◌, alloc_error};

use std::alloc::AllocError;

/// Turns an error of `csv` over memory into an allocation failure.
///
/// `csv` has one type of error for everything. Here records may differ in length, fields need not
/// be UTF-8, and nothing is serialized. Reading a slice or writing a vector fails only if an
/// allocation fails. So no other error can occur.
pub(crate) fn out_of_memory<E: Drop>(_error: E) -> AllocError
    ensures { result ≡ alloc_error }
{
    AllocError
}
