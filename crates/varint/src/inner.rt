// What the crates above call: each function relies on what its caller has proved.
//
// A message is read twice, and its texts are tested in the first reading alone. The second finds them by their lengths: that they were accepted says that they are
// texts. Which of the two readings it is, the caller asks (point 94 of docs/DECISIONS.md).
ghost use Rattle.std.specs.Prelude.{◌≡◌};
ghost use Rattle.varint.specs.Texts.{get_text, get_name};
ghost use Rattle.varint.specs.Inner.Again.{Accepted};

use crate::Got;
use crate::text::{Span, skim_str};

// The text at place `at` of `s`, which was accepted before.
#[inline(always)]
#[tactic(auto, using(crate::proofs::Agains::text_again))]
pub fn find_str(s: &[u8], at: usize) -> Got<Span>
    requires { Accepted (get_text s.now at) }
    ensures { result ≡ get_text s.now at }
{
    skim_str(s, at)
}

// The name, likewise. It has its own function, as `take_name` has.
#[inline(always)]
#[tactic(auto, using(crate::proofs::Agains::name_again))]
pub fn find_name(s: &[u8], at: usize) -> Got<Span>
    requires { Accepted (get_name s.now at) }
    ensures { result ≡ get_name s.now at }
{
    skim_str(s, at)
}
