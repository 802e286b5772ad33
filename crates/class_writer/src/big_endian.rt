//! Numbers in bytes, the high byte first; of one that is too great the low bytes.
ghost use Rattle.std.specs.Prelude.{◌≡◌, ◌++◌, OnOk};
ghost use Rattle.std.specs.Int.{w8, w16, w32, to_be_bytes};

use hdr_core::Memory;

pub fn put_u8(out: &mut Vec<u8>, number: usize) -> Result<(), Memory>
    ensures { OnOk result (out.new.items ≡ out.old.items ++ to_be_bytes w8 number) }
{
    let bytes = (number as u64).to_be_bytes();
    out.extend_from_slice(&bytes[7..])?;
    Ok(())
}

pub fn put_u16(out: &mut Vec<u8>, number: usize) -> Result<(), Memory>
    ensures { OnOk result (out.new.items ≡ out.old.items ++ to_be_bytes w16 number) }
{
    let bytes = (number as u64).to_be_bytes();
    out.extend_from_slice(&bytes[6..])?;
    Ok(())
}

pub fn put_u32(out: &mut Vec<u8>, number: u64) -> Result<(), Memory>
    ensures { OnOk result (out.new.items ≡ out.old.items ++ to_be_bytes w32 number) }
{
    let bytes = number.to_be_bytes();
    out.extend_from_slice(&bytes[4..])?;
    Ok(())
}
