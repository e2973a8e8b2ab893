// Reading a line word by word: the first word that is not what should stand there is what is wrong with the line.
ghost use Rattle.std.specs.Prelude.{◌≤◌, length};

use faults::{Fault, Wrong};
use text::decimals::NumberError;
use text::word::Word;

// A line, and where its next word is looked for.
#[derive(Clone, Copy)]
pub struct Scan<'a> {
    pub line: &'a [u8],
    pub at: usize,
    ghost inside: { at ≤ length line.now },
}

impl<'a> Scan<'a> {
    ghost use Rattle.std.specs.Prelude.{◌≡◌, ◌+◌, ◌↔◌, IsTrue, IsOk, IfOk, false};
    ghost use Rattle.phrases.specs.Words.{Next, bytes_of};
    ghost use Rattle.compose.specs.Words.{Further, Ended, Quotes, next_word};

    pub fn new(line: &'a [u8]) -> Scan<'a>
        ensures line { result.line.now ≡ line.now }
        ensures at { result.at ≡ 0 }
    {
        Scan { line, at: 0 }
    }

    fn next(&self) -> Word
        ensures { Next self.now.line.now self.now.at result }
    {
        phrases::next(self.line, self.at)
    }

    // The next word is wrong.
    pub fn wrong(&self, fault: Fault) -> Wrong<'a>
        ensures line { result.line.now ≡ self.now.line.now }
        ensures fault { result.fault ≡ fault }
        ensures word { Next self.now.line.now self.now.at result.word }
    {
        Wrong {
            fault,
            line: self.line,
            word: self.next(),
        }
    }

    // Whether no word is left.
    pub fn ended(&self) -> bool
        ensures { IsTrue result ↔ Ended self.now }
    {
        let word = self.next();
        word.from == word.to
    }

    // The next word may be this one: then it is passed.
    pub fn option(&mut self, name: &[u8]) -> bool
        ensures further { Further self.old self.new }
        ensures taken { IsTrue result ↔ bytes_of self.old.line.now (next_word self.old) ≡ name.now }
        ensures behind { IsTrue result → self.new.at ≡ (next_word self.old).to }
        ensures left { result ≡ false → self.new ≡ self.old }
        ensures passed { IsTrue result → self.old.at + length name.now ≤ self.new.at }
    {
        let word = self.next();
        let here = phrases::named(self.line, word, name);
        if here {
            self.at = word.to;
        }
        here
    }

    // The next word has to be this one; where it is not, that is the fault.
    pub fn expect(&mut self, name: &[u8], fault: Fault) -> Result<(), Wrong<'a>>
        ensures further { Further self.old self.new }
        ensures quotes { Quotes self.old.line.now result }
    {
        if self.option(name) {
            Ok(())
        } else {
            Err(self.wrong(fault))
        }
    }

    // The next word has to be a number, at most `most`.
    pub fn number(&mut self, most: u64) -> Result<u64, Wrong<'a>>
        ensures further { Further self.old self.new }
        ensures low { IfOk result (λ n. n ≤ most) }
        ensures quotes { Quotes self.old.line.now result }
    {
        let word = self.next();
        match phrases::number(self.line, word, most) {
            Ok(value) => {
                self.at = word.to;
                Ok(value)
            }
            Err(NumberError::TooLarge) => Err(self.wrong(Fault::Large(most))),
            Err(NumberError::NotANumber) => Err(self.wrong(Fault::WantsNumber)),
        }
    }

    // A number of one byte.
    pub fn byte(&mut self) -> Result<u8, Wrong<'a>>
        ensures further { Further self.old self.new }
        ensures quotes { Quotes self.old.line.now result }
    {
        Ok(self.number(255)? as u8)
    }

    // A number of four bytes.
    pub fn amount(&mut self) -> Result<u32, Wrong<'a>>
        ensures further { Further self.old self.new }
        ensures quotes { Quotes self.old.line.now result }
    {
        Ok(self.number(4294967295)? as u32)
    }

    // The line has to end here.
    pub fn end(&self) -> Result<(), Wrong<'a>>
        ensures ended { IsOk result ↔ Ended self.now }
        ensures quotes { Quotes self.now.line.now result }
    {
        if self.ended() {
            Ok(())
        } else {
            Err(self.wrong(Fault::Surplus))
        }
    }
}
