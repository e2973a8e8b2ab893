// The bytes of an image from a directory.
ghost use Rattle.std.specs.Prelude.{◌≡◌, ◌<◌};
ghost use Rattle.image.specs.Write.{Small, entry_byte, byte_of, image_of};

use crate::{Directory, Entry};

// Byte j of an entry.
fn entry_byte(e: Entry, j: usize) -> u8
    requires { (j < 8) × (e.flags < 256) }
    ensures { result ≡ entry_byte e j }
{
    if j == 0 {
        return e.level;
    }
    if j == 1 {
        return e.units;
    }
    if j == 2 {
        return e.flags as u8;
    }
    if j == 3 {
        return 0;
    }
    words::digit(e.point as u64, j as u32 - 4)
}

// Byte i of a directory's image, below the check.
fn byte(d: Directory, i: usize) -> u8
    requires { (i < 510) × Small d }
    ensures { result ≡ byte_of d i }
{
    if i == 0 {
        return 1;
    }
    if i == 1 {
        return d.modules as u8;
    }
    if i == 2 {
        return d.every as u8;
    }
    if i < 8 {
        return 0;
    }
    if i < 16 {
        return words::digit(d.defined, i as u32 - 8);
    }
    if i < 272 {
        return entry_byte(d.entries[(i - 16) / 8], (i - 16) % 8);
    }
    0
}

// The image of a directory.
pub fn image(d: Directory) -> [u8; 512]
    requires { Small d }
    ensures { result ≡ image_of d }
{
    let mut out = [0u8; 512];
    for i in 0..510 {
        out[i] = byte(d, i);
    }
    sealed::seal(&mut out);
    out
}
