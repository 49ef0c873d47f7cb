//! A value, put into its place.
ghost use Rattle.std.specs.Prelude.{◌≡◌, Err, MatchResult, Ok};

use for_c::call_error::CallError;

/// Puts a value into its place. Fails with the error if there is no value; then the place is unchanged.
pub(crate) fn put<T: Copy>(found: Result<T, CallError>, place: &mut T) -> Result<(), CallError>
    ensures { MatchResult found (λ value. (result ≡ Ok tt) × (place.new ≡ value))
        (λ error. (result ≡ Err error) × (place.new ≡ place.old)) }
{
    *place = found?;
    Ok(())
}
