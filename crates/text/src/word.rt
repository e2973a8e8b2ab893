// Words: parted by blanks, with a comma and a dash each a word of its own.
ghost use Rattle.std.specs.Prelude.{◌≡◌, ◌≤◌, length};
ghost use Rattle.text.specs.Words.{class_of, class_number, Past, First};

// Where a word begins, and where it has ended: an empty word too has a place, which a message tells.
#[derive(Clone, Copy, Debug, PartialEq, Eq)]
pub struct Word {
    pub from: usize,
    pub to: usize,
}

// What a byte is in a line: part of a word, a blank, or a word of its own.
#[derive(Clone, Copy, Debug, PartialEq, Eq)]
enum Class {
    Plain,
    Blank,
    Alone,
}

impl Class {
    fn of(byte: u8) -> Class
        ensures { class_number result ≡ class_of byte }
    {
        match byte {
            b' ' | b'\t' | b'\r' => Class::Blank,
            b',' | b'-' => Class::Alone,
            _ => Class::Plain,
        }
    }
}

// Past the bytes of a class that stand from `at` on.
fn past(line: &[u8], at: usize, class: Class) -> usize
    requires { at ≤ length line.now }
    ensures { Past line.now at (class_number class) result }
{
    at + line[at..]
        .iter()
        .take_while(|byte| Class::of(**byte) == class)
        .count()
}

// The first word of some bytes, as a place in them: an empty one, at their end, where nothing but blanks is there.
pub fn first(line: &[u8]) -> Word
    ensures { First line.now result }
{
    let from = past(line, 0, Class::Blank);
    let to = if from == line.len() {
        from
    } else if Class::of(line[from]) == Class::Alone {
        from + 1
    } else {
        past(line, from, Class::Plain)
    };
    Word { from, to }
}
