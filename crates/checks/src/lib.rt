//! Inner: what the helpers of tests demand. A demand that is not met is returned, so that a helper's contract holds then too.
#![tactic(auto)]

ghost use Rattle.std.specs.Prelude.{◌≡◌, ◌+◌, is_ok, length, nat_le, OnOk, OnErr};
ghost use Rattle.byte_lists.specs.Bytes.{laid, word as bytes_of};

use byte_lists::slices::lay_over;
use std::fmt::Debug;
use std::test::Fail;

/// Fails where a condition does not hold.
pub fn check(holds: bool) -> Result<(), Fail>
    ensures { is_ok result ≡ holds }
{
    if holds {
        Ok(())
    } else {
        Err(Fail::new("a condition does not hold"))
    }
}

/// Fails where a value is not the one that is wanted, and tells both.
pub fn check_eq<T: PartialEq + Debug + Drop>(got: T, want: T) -> Result<(), Fail>
    ensures { is_ok result ≡ T.eq got want }
{
    if got == want {
        Ok(())
    } else {
        Err(Fail::new(format_args!("{got:?}, and not {want:?}")))
    }
}

/// Writes a word at a place of a file that a test makes, and fails where the file has no such place.
pub fn put_word(file: &mut [u8], place: usize, number: u32) -> Result<(), Fail>
    ensures fits { is_ok result ≡ nat_le (place + 4) (length file.old) }
    ensures written { OnOk result (file.new ≡ laid file.old place (bytes_of number)) }
    ensures left { OnErr result (file.new ≡ file.old) }
{
    check(file.len() >= 4 && place <= file.len() - 4)?;
    lay_over(file, place, &number.to_le_bytes());
    Ok(())
}
