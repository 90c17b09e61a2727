// For measuring only: the varint crate's functions on whole slices. The crate bench_c exports them for a Rust program.
#![tactic(auto)]

ghost use Rattle.std.specs.Prelude.{◌≡◌, length};
ghost use Rattle.std.proofs.lemmas.List.Edits.{sets};
ghost use Rattle.varint.specs.Stores.{part, clear_from};
ghost use Rattle.varint.specs.Utf8.{utf8};

pub fn bench_is_utf8(s: &[u8]) -> bool
    ensures { result ≡ utf8 s.now }
{
    varint::utf8::is_utf8(s, 0, s.len())
}

pub fn bench_copy(src: &[u8], dst: &mut [u8])
    ensures { dst.new ≡ sets dst.old 0 (part src.now 0 (length src.now)) }
{
    varint::store::copy_bytes(src, 0, src.len(), dst, 0);
}

pub fn bench_clear_bytes(out: &mut [u8])
    ensures { out.new ≡ clear_from out.old 0 }
{
    varint::store::fill_from(out, 0, 0);
}

pub fn bench_clear_numbers(out: &mut [u64])
    ensures { out.new ≡ clear_from out.old 0 }
{
    varint::store::fill_from(out, 0, 0);
}
