// Numbers as bytes and back.
ghost use Rattle.std.specs.Prelude.{◌≡◌, ◌*◌, ◌^◌, ◌≤◌, ◌<◌, length};
ghost use Rattle.lists.specs.Ranges.{Below};
ghost use Rattle.packing.specs.Packing.{packed, unpacked};

#[unsafe(no_mangle)]
pub extern "C" fn packing_pack(w: u32, xs: &[u32], out: &mut [u8])
    requires w_nonzero { (0 < w) × (w ≤ 32) × Below (2 ^ w) xs.now }
    requires xs_value { w * length xs.now ≡ 8 * length out.old }
    ensures { out.new ≡ packed w xs.now }
{
    packing::pack(w, xs, out);
}

#[unsafe(no_mangle)]
pub extern "C" fn packing_unpack(w: u32, bytes: &[u8], out: &mut [u32])
    requires w_nonzero { (0 < w) × (w ≤ 32) }
    requires bytes_value { 8 * length bytes.now ≡ w * length out.old }
    ensures { out.new ≡ unpacked w (length out.old) bytes.now }
{
    packing::unpack(w, bytes, out);
}
