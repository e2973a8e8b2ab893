// The executive for C and Rust: the static library that a station links, with the two loads, the call, the image check and the block check.
// `include/khilzurgee.h` declares them and the layout of the structs.
//
// Each is one call of the function of its name in `executive`, whose promise it says again: any bytes, any tables, nothing is asked. C links these names, and a
// static library exports those of its own crate alone.
#![tactic(auto)]

ghost use Rattle.std.specs.Prelude.{[], ◌∷◌, ◌≡◌};
ghost use Rattle.answers.specs.Answer.{refusal_of};
ghost use Rattle.image.specs.Load.{load_of};
ghost use Rattle.sealed.specs.Sealed.{block_check};
ghost use Rattle.pools.specs.Pools.{LowestStart, SmallestHole};
ghost use Rattle.meaning.specs.Step.{tables_of, step_of, line_of, load_line};

use calls::Answer;
use tables::Tables;

// The image check: the number by which loading would refuse the bytes, 0 for none.
#[unsafe(no_mangle)]
pub extern "C" fn khilzurgee_image_check(bytes: &[u8]) -> u8
    ensures { result ≡ refusal_of (load_of bytes.now).outcome }
{
    executive::khilzurgee_image_check(bytes)
}

// The check that a block of 512 bytes has to end with, 1 to 65,521; 0 for any other length.
#[unsafe(no_mangle)]
pub extern "C" fn khilzurgee_block_check(block: &[u8]) -> u16
    ensures { result ≡ block_check block.now }
{
    executive::khilzurgee_block_check(block)
}

// Loads an image into the tables that are lent, whatever they hold: all zero where it is refused. The answer is refusal, M or 0, 0.
#[unsafe(no_mangle)]
pub extern "C" fn khilzurgee_load(t: &mut Tables, image: &[u8]) -> Answer
    ensures { (result.refusal ∷ result.result ∷ result.running ∷ [] ≡ load_line image.now) × (t.new ≡ tables_of SmallestHole image.now) }
{
    executive::khilzurgee_load(t, image)
}

// The same for the old program: grants go by the lowest start, as in recordings made before E8. Calls go on with `khilzurgee_advance`.
#[unsafe(no_mangle)]
pub extern "C" fn khilzurgee_load_lowest(t: &mut Tables, image: &[u8]) -> Answer
    ensures { (result.refusal ∷ result.result ∷ result.running ∷ [] ≡ load_line image.now) × (t.new ≡ tables_of LowestStart image.now) }
{
    executive::khilzurgee_load_lowest(t, image)
}

// Answers one call on the tables that are lent, and leaves there the tables of after the call.
#[unsafe(no_mangle)]
pub extern "C" fn khilzurgee_advance(t: &mut Tables, call: &[u8]) -> Answer
    ensures { (result.refusal ∷ result.result ∷ result.running ∷ [] ≡ line_of (step_of t.old call.now))
        × (t.new ≡ (step_of t.old call.now).tables) }
{
    executive::khilzurgee_advance(t, call)
}
