// Storing into lent buffers. A store past a buffer's end does nothing, so none of these asks for room; nor that the place is inside, as `&mut out[at..]` would.
ghost use Rattle.std.specs.Prelude.{◌≡◌, ◌+◌, ◌≤◌, length, set};
ghost use Rattle.std.proofs.lemmas.List.Edits.{sets};
ghost use Rattle.varint.specs.Stores.{part, fill_from};

// The most bytes that are copied as one block.
const BLOCK: usize = 16;

// Stores a byte or a number.
#[inline(always)]
pub fn store<T: Copy>(out: &mut [T], at: usize, x: T)
    ensures { out.new ≡ set out.old at x }
{
    if at < out.len() {
        out[at] = x;
    }
}

// Copies `len` bytes of `src` from place `from` on to `dst` from place `at` on, all of them inside. It goes by blocks, the
// widest that `len` has room for; the last one ends where the run ends and may lie over the one before it. `copy_from_slice` of two runs is a call of C's `memmove`,
// since the compiler does not know that they lie apart, and the archive would need that name from its host.
fn copy_run(src: &[u8], from: usize, len: usize, dst: &mut [u8], at: usize)
    requires { (from + len ≤ length src.now) × (at + len ≤ length dst.old) }
    ensures { dst.new ≡ sets dst.old at (part src.now from len) }
{
    if BLOCK <= len {
        let mut k: usize = 0;
        while BLOCK <= len - k {
            copy_block(src, from + k, BLOCK, dst, at + k);
            k += BLOCK;
        }
        copy_block(src, from + len - BLOCK, BLOCK, dst, at + len - BLOCK);
        return;
    }
    if 8 <= len {
        copy_ends(src, from, len, 8, dst, at);
        return;
    }
    if 4 <= len {
        copy_ends(src, from, len, 4, dst, at);
        return;
    }
    if 2 <= len {
        copy_ends(src, from, len, 2, dst, at);
        return;
    }
    if 0 < len {
        dst[at] = src[from];
    }
}

// Copies a run by its first block and its last one, of `width` bytes each, which meet or lie over one another.
fn copy_ends(src: &[u8], from: usize, len: usize, width: usize, dst: &mut [u8], at: usize)
    requires { (width ≤ 16) × (width ≤ len) × (len ≤ width + width) × (from + len ≤ length src.now) × (at + len ≤ length dst.old) }
    ensures { dst.new ≡ sets dst.old at (part src.now from len) }
{
    copy_block(src, from, width, dst, at);
    copy_block(src, from + len - width, width, dst, at + len - width);
}

// Copies a block of at most 16 bytes, all of them inside. It is read whole into an array before it is stored: the compiler
// knows that the array lies over neither slice, and so moves many bytes at a time without a test.
fn copy_block(src: &[u8], from: usize, len: usize, dst: &mut [u8], at: usize)
    requires { (len ≤ 16) × (from + len ≤ length src.now) × (at + len ≤ length dst.old) }
    ensures { dst.new ≡ sets dst.old at (part src.now from len) }
{
    let mut block = [0u8; BLOCK];
    let mut i: usize = 0;
    while i < len {
        block[i] = src[from + i];
        i += 1;
    }
    let mut j: usize = 0;
    while j < len {
        dst[at + j] = block[j];
        j += 1;
    }
}

// Copies the `len` bytes of `src` from place `from` on, as far as `src` goes, to `dst` from place `at` on, as far as `dst` goes.
pub fn copy_bytes(src: &[u8], from: usize, len: usize, dst: &mut [u8], at: usize)
    ensures { dst.new ≡ sets dst.old at (part src.now from len) }
{
    if src.len() < from {
        return;
    }
    if dst.len() < at {
        return;
    }
    let n = len.min(src.len() - from).min(dst.len() - at);
    copy_run(src, from, n, dst, at);
}

// Sets each element from place `at` to the end to `x`. The library's `fill` asks more of `T`: that a clone of it can't fail.
pub fn fill_from<T: Copy>(out: &mut [T], at: usize, x: T)
    ensures { out.new ≡ fill_from x out.old at }
{
    if at < out.len() {
        for place in &mut out[at..] {
            *place = x;
        }
    }
}
