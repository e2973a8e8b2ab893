// Pools: the 64 core units of a level as a mask, granted units as ones.
//
// It answers for 'a core pool of 64 units, one bit for each unit' of document 01, and for E8 of document 02: whether a free run is long enough, the start
// that a grant takes by either rule, granting it, giving it back. It knows masks, and nothing of tasks or queues.
#![tactic(auto)]

ghost use Rattle.std.specs.Prelude.{not, ◌&&◌, ◌||◌, ◌≡◌, ℕ, ◌+◌, ◌-◌, ◌≤◌, eqb};
ghost use Rattle.words.specs.Words.{has};
ghost use Rattle.pools.specs.Pools.{run, free_at, long_enough, hole_at, shortest};
ghost use Rattle.pools.specs.Runs.{FreeRun, HeldRun};
ghost use Rattle.pools.specs.Find.{found_in, found_of};
ghost use Rattle.pools.specs.Rule.{rule_number};

// The two rules of a grant: the lowest start at which enough units are free, document 01's; or the start of the smallest hole, E8's.
#[derive(Clone, Copy, Debug, PartialEq, Eq)]
pub enum Rule {
    LowestStart,
    SmallestHole,
}

// The rules as the tables hold them. They stay numbers here, since the tables' field `holes` is one, which C reads and which a caller may have set to any
// other.
pub const LOWEST_START: u64 = 0;

pub const SMALLEST_HOLE: u64 = 1;

impl From<Rule> for u64 {
    ghost from_gives = { λ rule result. result ≡ rule_number rule };

    fn from(rule: Rule) -> u64 {
        match rule {
            Rule::LowestStart => LOWEST_START,
            Rule::SmallestHole => SMALLEST_HOLE,
        }
    }
}

// The starts of free runs of n units, as a set. The starts of runs of a units, met with themselves shifted down by b, b at most a, are those of runs
// of a + b: so six shifts at most.
fn free_starts(granted: u64, n: u8) -> u64
    requires { (1 ≤ n) × (n ≤ 64) }
    ensures { (i : ℕ) → has result i ≡ free_at granted n i }
{
    let mut found = !granted;
    let mut length: u8 = 1;
    while length < n {
        let more = (n - length).min(length);
        found = found & (found >> more);
        length += more;
    }
    found
}

// The members of a set whose neighbours are not in it. Of the starts of free runs of m units these are the holes of m: a longer run has two starts or more,
// side by side, and between those of two runs lies at least the unit that parts them.
fn alone(set: u64) -> u64
    ensures { (i : ℕ) → has result i ≡ (has set i && not (has set (i + 1)) && (eqb i 0 || not (has set (i - 1)))) }
{
    set & !(set >> 1) & !(set << 1)
}

// The starts of the shortest holes of n units or more, as a set: one length after the other, until there is one or no run is as long.
fn hole_starts(granted: u64, n: u8) -> u64
    requires { (1 ≤ n) × (n ≤ 64) }
    ensures { (i : ℕ) → has result i ≡ hole_at granted (shortest granted n) i }
{
    let mut runs = free_starts(granted, n);
    let mut holes = alone(runs);
    while (holes == 0) & (runs != 0) {
        runs = runs & (runs >> 1);
        holes = alone(runs);
    }
    holes
}

// The lowest of a set of starts.
fn lowest_of(starts: u64) -> Option<u8>
    ensures { result ≡ found_in starts }
{
    let start = u64::trailing_zeros(starts);
    if start < 64 { Some(start as u8) } else { None }
}

// The start at which a grant takes n units, by the rule; none where no free run is long enough.
pub fn find(holes: u64, granted: u64, n: u8) -> Option<u8>
    ensures { result ≡ found_of holes granted n }
{
    if n == 0 {
        return Some(0);
    }
    if 64 < n {
        return None;
    }
    if holes == LOWEST_START {
        return lowest_of(free_starts(granted, n));
    }
    lowest_of(hole_starts(granted, n))
}

// Some free run is long enough for n units: who waits is the same by either rule.
pub fn long_enough(granted: u64, n: u8) -> bool
    ensures { result ≡ long_enough granted n }
{
    find(LOWEST_START, granted, n).is_some()
}

// The bits of a run: n units from the start on.
pub fn mask(start: u8, n: u8) -> u64
    requires { start + n ≤ 64 }
    ensures { result ≡ run start n }
{
    if n == 0 {
        return 0;
    }
    (u64::MAX >> (64 - n)) << start
}

// The pool with a free run granted.
pub fn grant(granted: u64, start: u8, n: u8) -> u64
    requires { FreeRun granted start n }
    ensures { result ≡ granted + run start n }
{
    granted | mask(start, n)
}

// The pool with a granted run given back.
pub fn give_back(granted: u64, start: u8, n: u8) -> u64
    requires { HeldRun granted start n }
    ensures { result ≡ granted - run start n }
{
    granted & !mask(start, n)
}
