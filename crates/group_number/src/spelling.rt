ghost use Rattle.std.specs.Prelude.{◌≡◌, ◌++◌, OnOk};
ghost use Rattle.group_number.specs.Groups.{group_bytes};

use std::alloc::AllocError;

/// Writes the number at the end, in 1 to 10 bytes.
///
/// # Errors
///
/// `AllocError` where there is no memory for the bytes. Some of them may have been written then.
#[inline(always)]
#[tactic(auto, using(crate::proofs::GroupLaws::group_bytes_low, crate::proofs::GroupLaws::group_bytes_two, crate::proofs::GroupLaws::group_bytes_three))]
pub fn put_group(out: &mut Vec<u8>, number: u64) -> Result<(), AllocError>
    ensures { OnOk result (out.new.items ≡ out.old.items ++ group_bytes number) }
{
    if number < 128 {
        out.push(number as u8)?;
        return Ok(());
    }
    if number < 16_384 {
        return out.extend_from_slice(&[128 + (number % 128) as u8, (number / 128) as u8]);
    }
    if number < 2_097_152 {
        let rest = number / 128;
        return out.extend_from_slice(&[
            128 + (number % 128) as u8,
            128 + (rest % 128) as u8,
            (rest / 128) as u8,
        ]);
    }
    put_groups(out, number)
}

/// The groups of a number, one after the other.
#[inline(never)]
fn put_groups(out: &mut Vec<u8>, number: u64) -> Result<(), AllocError>
    ensures { OnOk result (out.new.items ≡ out.old.items ++ group_bytes number) }
{
    let mut rest = number;
    while rest >= 128 {
        out.push(128 + (rest % 128) as u8)?;
        rest /= 128;
    }
    out.push(rest as u8)?;
    Ok(())
}
