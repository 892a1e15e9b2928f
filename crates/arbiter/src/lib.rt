// Arbitration: which submission queue is served next. Candidates are 16-bit masks, bit n for queue n. Candidate, turn holder and
// remainder are document 01's terms.
// Tests are joined by `&` and `|`, which do not branch.
#![tactic(auto)]

ghost use Rattle.std.specs.Prelude.{◌≡◌, false, ◌%◌, ◌<◌, eqb};
ghost use Rattle.bits.specs.Bits.{is_set};
ghost use Rattle.arbiter.specs.Word.{burst_of, weight_at};
ghost use Rattle.arbiter.specs.Turns.{next_after, above_zero, remainder_answer, remainder_number, lowered, served, turn};
ghost use Rattle.arbiter.specs.Arbiter.{some, level_full, ready, level_turn, fresh, refilled, some_waits, some_ready, refilled_if_due};
ghost use Rattle.arbiter.specs.Arbiter.{by_group, by_level, by_weight, choice, next_answer, turn_answer, level_answer};
ghost use Rattle.arbiter.specs.Arbiter.{group_refusal, level_refusal, chosen_answer, choice_refusal};

// What is left of a turn. An enum of its own, since `None` would read as nothing left, where it means no limit.
#[derive(Clone, Copy)]
pub enum Remainder {
    Left(u32),
    NoLimit,
}

// Queues that take turns: who holds the turn, and what is left of it.
#[derive(Clone, Copy)]
pub struct Group {
    pub holder: u32,
    pub remainder: Remainder,
}

// A priority level of the weighted mechanism: a group that pays for its turns.
#[derive(Clone, Copy)]
pub struct Level {
    pub group: Group,
    pub credit: u32,
}

// Mechanism 0, round robin, or 1, weighted with urgent; its feature word; and whose turn it is.
#[derive(Clone, Copy)]
pub struct Arbiter {
    pub weighted: bool,
    pub word: u32,
    // all queues under mechanism 0, the urgent ones under mechanism 1
    pub group: Group,
    pub high: Level,
    pub medium: Level,
    pub low: Level,
}

// The candidates among all queues, and among those of each class.
#[derive(Clone, Copy)]
pub struct Candidates {
    pub all: u16,
    pub urgent: u16,
    pub high: u16,
    pub medium: u16,
    pub low: u16,
}

fn is_candidate(mask: u16, id: u32) -> bool
    ensures { result ≡ is_set mask id }
{
    bits::is_set(mask as u64, id as u64)
}

fn has_candidate(mask: u16) -> bool
    ensures { result ≡ some (is_set mask) }
{
    0 < mask
}

// The burst that the feature word grants.
fn burst(word: u32) -> Remainder
    ensures value { result ≡ burst_of word }
    ensures unlimited { (remainder_answer result).0 ≡ eqb (word % 8) 7 }
{
    let exponent = word % 8;
    if exponent == 7 {
        Remainder::NoLimit
    } else {
        Remainder::Left(1u32 << exponent)
    }
}

// The weight whose byte begins at bit `at` of the feature word.
fn weight(word: u32, at: u32) -> u32
    requires { at < 32 }
    ensures { result ≡ weight_at at word }
{
    (word >> at) % 256 + 1
}

impl Remainder {
    // As a number: the largest stands for no limit.
    pub fn number(self) -> u64
        ensures { result ≡ remainder_number self }
    {
        match self {
            Remainder::Left(n) => n as u64,
            Remainder::NoLimit => u64::MAX,
        }
    }
}

fn above_zero(r: Remainder) -> bool
    ensures { result ≡ above_zero r }
{
    match r {
        Remainder::Left(n) => 0 < n,
        Remainder::NoLimit => true,
    }
}

fn lower(r: Remainder) -> Remainder
    ensures value { result ≡ lowered r }
    ensures unlimited { (remainder_answer result).0 ≡ (remainder_answer r).0 }
{
    match r {
        Remainder::Left(n) => Remainder::Left(n.saturating_sub(1)),
        Remainder::NoLimit => Remainder::NoLimit,
    }
}

// The next candidate after the holder, wrapping, the holder last. The mask stands twice in a row; from the bit after the holder's on, the
// candidates come in the order of their turns, and the trailing zeros are the ids that are passed over.
fn next_turn(mask: u16, holder: u32) -> Option<u32>
    ensures value { result ≡ next_after (is_set mask) holder }
    ensures refusal { (next_answer result).0 ≡ group_refusal (is_set mask) }
{
    if mask == 0 {
        return None;
    }
    let after = holder % 16 + 1;
    let twice = (mask as u32) * 65537;
    let passed = u32::trailing_zeros(twice >> after);
    Some((after + passed) % 16)
}

// Queue `id` is served out of the remainder `r`, and holds the turn.
fn serve(id: u32, r: Remainder) -> (u32, Group)
    ensures { result ≡ served id r }
{
    (
        id,
        Group {
            holder: id,
            remainder: lower(r),
        },
    )
}

impl Group {
    // The holder goes on, or the next candidate takes the turn with the remainder `full`.
    fn turn(self, full: Remainder, mask: u16) -> Option<(u32, Group)>
        ensures value { result ≡ turn full self (is_set mask) }
        ensures refusal { (turn_answer self result).0 ≡ group_refusal (is_set mask) }
    {
        let holder = self.holder;
        let left = self.remainder;
        if is_candidate(mask, holder) & above_zero(left) {
            return Some(serve(holder, left));
        }
        let id = next_turn(mask, holder)?;
        Some(serve(id, full))
    }
}

// The smaller of burst and credit.
fn level_full(b: Remainder, credit: u32) -> Remainder
    ensures value { result ≡ level_full b credit }
    ensures unlimited { (remainder_answer result).0 ≡ false }
{
    match b {
        Remainder::Left(n) => Remainder::Left(n.min(credit)),
        Remainder::NoLimit => Remainder::Left(credit),
    }
}

impl Level {
    // Whether it has a candidate and credit.
    fn is_ready(self, mask: u16) -> bool
        ensures { result ≡ ready self (is_set mask) }
    {
        has_candidate(mask) & (0 < self.credit)
    }

    // A turn at the burst `b`, which costs one credit.
    fn turn(self, b: Remainder, mask: u16) -> Option<(u32, Level)>
        ensures value { result ≡ level_turn b self (is_set mask) }
        ensures refusal { (level_answer self result).0 ≡ level_refusal self (is_set mask) }
    {
        if !self.is_ready(mask) {
            return None;
        }
        let credit = self.credit;
        let group = self.group;
        let (id, next) = group.turn(level_full(b, credit), mask)?;
        Some((
            id,
            Level {
                group: next,
                credit: credit - 1,
            },
        ))
    }
}

// Whether a level has a candidate.
fn some_waits(c: Candidates) -> bool
    ensures { result ≡ some_waits c }
{
    has_candidate(c.high) | has_candidate(c.medium) | has_candidate(c.low)
}

impl Arbiter {
    // An arbiter before its first choice.
    pub fn new(weighted: bool, word: u32) -> Arbiter
        ensures { result ≡ fresh weighted word }
    {
        let start = Group {
            holder: 15,
            remainder: Remainder::Left(0),
        };
        let empty = Level {
            group: start,
            credit: 0,
        };
        let a = Arbiter {
            weighted,
            word,
            group: start,
            high: empty,
            medium: empty,
            low: empty,
        };
        a.refilled()
    }

    // Every level's credit is its weight again.
    fn refilled(mut self) -> Arbiter
        ensures { result ≡ refilled self }
    {
        let word = self.word;
        let mut high = self.high;
        high.credit = weight(word, 24);
        self.high = high;
        let mut medium = self.medium;
        medium.credit = weight(word, 16);
        self.medium = medium;
        let mut low = self.low;
        low.credit = weight(word, 8);
        self.low = low;
        self
    }

    // Whether a level has a candidate and credit.
    fn some_ready(self, c: Candidates) -> bool
        ensures { result ≡ some_ready self c }
    {
        self.high.is_ready(c.high) | self.medium.is_ready(c.medium) | self.low.is_ready(c.low)
    }

    // Refilled where levels have candidates but none of these has credit.
    fn refilled_if_due(self, c: Candidates) -> Arbiter
        ensures { result ≡ refilled_if_due self c }
    {
        if some_waits(c) & !self.some_ready(c) {
            self.refilled()
        } else {
            self
        }
    }

    // A turn of the one group: all queues, or the urgent ones.
    fn choose_group(mut self, mask: u16) -> Option<(u32, Arbiter)>
        ensures { result ≡ by_group self (is_set mask) }
    {
        let group = self.group;
        let (id, next) = group.turn(burst(self.word), mask)?;
        self.group = next;
        Some((id, self))
    }

    // A turn of the first level that is ready.
    fn choose_level(mut self, c: Candidates) -> Option<(u32, Arbiter)>
        ensures { result ≡ by_level self c }
    {
        let high = self.high;
        if let Some((id, next)) = high.turn(burst(self.word), c.high) {
            self.high = next;
            return Some((id, self));
        }
        let medium = self.medium;
        if let Some((id, next)) = medium.turn(burst(self.word), c.medium) {
            self.medium = next;
            return Some((id, self));
        }
        let low = self.low;
        if let Some((id, next)) = low.turn(burst(self.word), c.low) {
            self.low = next;
            return Some((id, self));
        }
        None
    }

    // Queue 0 first, then the urgent group, then the levels.
    fn choose_weighted(self, c: Candidates) -> Option<(u32, Arbiter)>
        ensures { result ≡ by_weight self c }
    {
        if is_candidate(c.all, 0) {
            return Some((0, self));
        }
        if let Some(urgent) = self.choose_group(c.urgent) {
            return Some(urgent);
        }
        self.refilled_if_due(c).choose_level(c)
    }

    // The queue to serve next, with the arbiter that is left. Where it is nobody, the arbiter stays as it was.
    pub fn choose(self, c: Candidates) -> Option<(u32, Arbiter)>
        ensures value { result ≡ choice self c }
        ensures refusal { (chosen_answer self result).0 ≡ choice_refusal self c }
    {
        if self.weighted {
            self.choose_weighted(c)
        } else {
            self.choose_group(c.all)
        }
    }
}
