// For measuring only: the functions of the crate bench under names that a Rust program can call, with the same clauses.
#![tactic(auto)]

ghost use Rattle.std.specs.Prelude.{◌≡◌, length};
ghost use Rattle.std.proofs.lemmas.List.Edits.{sets};
ghost use Rattle.varint.specs.Stores.{part, clear_from};
ghost use Rattle.varint.specs.Utf8.{utf8};

#[unsafe(no_mangle)]
pub extern "C" fn bench_is_utf8(s: &[u8]) -> bool
    ensures { result ≡ utf8 s.now }
{
    bench::bench_is_utf8(s)
}

#[unsafe(no_mangle)]
pub extern "C" fn bench_copy(src: &[u8], dst: &mut [u8])
    ensures { dst.new ≡ sets dst.old 0 (part src.now 0 (length src.now)) }
{
    bench::bench_copy(src, dst);
}

#[unsafe(no_mangle)]
pub extern "C" fn bench_clear_bytes(out: &mut [u8])
    ensures { out.new ≡ clear_from out.old 0 }
{
    bench::bench_clear_bytes(out);
}

#[unsafe(no_mangle)]
pub extern "C" fn bench_clear_numbers(out: &mut [u64])
    ensures { out.new ≡ clear_from out.old 0 }
{
    bench::bench_clear_numbers(out);
}
