// What C and Rust call to read and store little-endian fields in a lent slice (docs/FORMAT.md, "Finding bytes").
ghost use Rattle.std.specs.Prelude.{◌≡◌};
ghost use Rattle.format.specs.Field.{stands, field_at, put_at};

// ---- reading: the number, or 0 where the field does not lie wholly in the slice

#[unsafe(no_mangle)]
pub extern "C" fn rig_u16_at(s: &[u8], at: usize) -> u16
    ensures answer { result ≡ field_at 2 s.now at }
{
    fields::read::<u16>(s, at)
}

#[unsafe(no_mangle)]
pub extern "C" fn rig_u32_at(s: &[u8], at: usize) -> u32
    ensures answer { result ≡ field_at 4 s.now at }
{
    fields::read::<u32>(s, at)
}

#[unsafe(no_mangle)]
pub extern "C" fn rig_u64_at(s: &[u8], at: usize) -> u64
    ensures answer { result ≡ field_at 8 s.now at }
{
    fields::read::<u64>(s, at)
}

// ---- storing: true where the field was stored; false where it does not lie wholly in the slice, and every byte is as it was

#[unsafe(no_mangle)]
pub extern "C" fn rig_put16(d: &mut [u8], at: usize, v: u16) -> bool
    ensures answer { result ≡ stands 2 d.old at }
    ensures slice { d.new ≡ put_at 2 d.old at v }
{
    fields::put::<u16>(d, at, v).is_ok()
}

#[unsafe(no_mangle)]
pub extern "C" fn rig_put32(d: &mut [u8], at: usize, v: u32) -> bool
    ensures answer { result ≡ stands 4 d.old at }
    ensures slice { d.new ≡ put_at 4 d.old at v }
{
    fields::put::<u32>(d, at, v).is_ok()
}

#[unsafe(no_mangle)]
pub extern "C" fn rig_put64(d: &mut [u8], at: usize, v: u64) -> bool
    ensures answer { result ≡ stands 8 d.old at }
    ensures slice { d.new ≡ put_at 8 d.old at v }
{
    fields::put::<u64>(d, at, v).is_ok()
}
