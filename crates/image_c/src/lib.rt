// The image check and the block check for C, in a library of their own: what the bench's editor links. `include/khilzurgee.h` declares them.
//
// Each is one call of the function of its name in `image`, whose promise it says again: C links these names, and a static library exports those of its own
// crate alone.
#![tactic(auto)]

ghost use Rattle.std.specs.Prelude.{◌≡◌};
ghost use Rattle.answers.specs.Answer.{refusal_of};
ghost use Rattle.image.specs.Load.{load_of};
ghost use Rattle.sealed.specs.Sealed.{block_check};

// The image check, for the editor: the number by which loading would refuse the bytes, 0 for none.
#[unsafe(no_mangle)]
pub extern "C" fn khilzurgee_image_check(bytes: &[u8]) -> u8
    ensures { result ≡ refusal_of (load_of bytes.now).outcome }
{
    image::khilzurgee_image_check(bytes)
}

// The check that a block of 512 bytes has to end with, for whoever makes one: 1 to 65,521. For any other length it is 0, which is no block's check.
#[unsafe(no_mangle)]
pub extern "C" fn khilzurgee_block_check(block: &[u8]) -> u16
    ensures { result ≡ block_check block.now }
{
    image::khilzurgee_block_check(block)
}
