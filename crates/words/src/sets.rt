// Sets of small numbers as one number: bit e for the number e. A u32 holds the numbers below 32, a u64 those below 64.
ghost use Rattle.std.specs.Prelude.{◌≡◌, ℕ, ◌^◌, ◌<◌, ◌≤◌};
ghost use Rattle.std.proofs.Common.{lit≤};
ghost use Rattle.words.specs.Words.{has, adding, dropping, least, size};

// What is such a set: as a u64 it is a number below 2 to its width.
pub trait Set: Copy {
    ghost WIDTH: { ℕ };

    ghost number: { Self → ℕ };

    const WIDTH: u32;

    fn wide(self) -> u64
        ensures value { result ≡ number self }
        ensures fits { number self < 2 ^ WIDTH };

    fn narrow(wide: u64) -> Self
        requires { wide < 2 ^ WIDTH }
        ensures { number result ≡ wide };

    ghost most: { WIDTH ≤ 64 };
}

impl Set for u32 {
    const WIDTH: u32 = 32;

    ghost WIDTH = { 32 };

    ghost number = { λ set. set };

    ghost most = { lit≤ tt };

    fn wide(self) -> u64 {
        u64::from(self)
    }

    fn narrow(wide: u64) -> u32 {
        wide as u32
    }
}

impl Set for u64 {
    const WIDTH: u32 = 64;

    ghost WIDTH = { 64 };

    ghost number = { λ set. set };

    ghost most = { lit≤ tt };

    fn wide(self) -> u64 {
        self
    }

    fn narrow(wide: u64) -> u64 {
        wide
    }
}

// The least of the set; 32 where it is empty, and no Option: so has `least` of specs/ it, which the free blocks are taken by.
pub fn least(set: u32) -> u32
    ensures { result ≡ least set }
{
    u32::trailing_zeros(set)
}

// How many are in the set.
pub fn ones(set: u64) -> u32
    ensures { result ≡ size set }
{
    u64::count_ones(set)
}

// The number e is in the set.
pub fn has<S: Set>(set: S, e: u32) -> bool
    ensures { result ≡ has (S.number set) e }
{
    let wide = set.wide();
    if S::WIDTH <= e {
        return false;
    }
    (wide >> e) % 2 == 1
}

// The set with the number e in it.
pub fn adding<S: Set>(set: S, e: u32) -> S
    requires { e < S.WIDTH }
    ensures { S.number result ≡ adding (S.number set) e }
{
    S::narrow(set.wide() | (1 << e))
}

// The set without the number e.
pub fn dropping<S: Set>(set: S, e: u32) -> S
    ensures { S.number result ≡ dropping (S.number set) e }
{
    let wide = set.wide();
    if S::WIDTH <= e {
        return set;
    }
    S::narrow(wide & !(1 << e))
}
