// The block of an image: what is wrong with it before its fields are read, and the bytes that no field has.
ghost use Rattle.std.specs.Prelude.{◌≡◌, ◌≤◌, length};
ghost use Rattle.words.specs.Rows.{first_of};
ghost use Rattle.answers.specs.Answer.{refused_by};
ghost use Rattle.image.specs.Load.{block_rows};
ghost use Rattle.image.specs.Block.{fillers_zero};

use answers::Refusal;

// Whether the bytes that no field has are zero.
pub fn clear(bytes: &[u8]) -> bool
    requires { 512 ≤ length bytes.now }
    ensures { result ≡ fillers_zero bytes.now }
{
    sealed::zeros(bytes, 3, 1, 5)
        & sealed::zeros(bytes, 19, 8, 32)
        & sealed::zeros(bytes, 272, 1, 238)
}

// The lowest of 1 to 3 that applies to the bytes.
pub fn check(bytes: &[u8]) -> Result<(), Refusal>
    ensures { refused_by result ≡ first_of (block_rows bytes.now) }
{
    if bytes.len() != 512 {
        return Err(Refusal::Length);
    }
    if !sealed::passes(bytes) {
        return Err(Refusal::BlockCheck);
    }
    if bytes[0] != 1 {
        return Err(Refusal::Form);
    }
    Ok(())
}
