// The bits of a mask, and the mask of free tags: bit n is set where tag n is free.
#![tactic(auto)]

ghost use Rattle.std.specs.Prelude.{◌≡◌, true, ◌<◌};
ghost use Rattle.bits.specs.Bits.{is_set};
ghost use Rattle.bits.specs.Tags.{is_free, without, taken_one, taken_two, given_back, one_answer, two_answer, tag_refusal};

// Whether bit `n` is set, for a number of any size: no bit from 64 on is.
pub fn is_set(mask: u64, n: u64) -> bool
    ensures { result ≡ is_set mask n }
{
    if 64 <= n {
        return false;
    }
    (mask >> n) % 2 == 1
}

// Whether a tag is free, for a tag of any size.
pub fn is_free(mask: u64, tag: u64) -> bool
    ensures { result ≡ is_free mask tag }
{
    is_set(mask, tag)
}

// The mask without a tag that is free.
fn clear(mask: u64, tag: u32) -> u64
    requires { (tag < 64) × (is_set mask tag ≡ true) }
    ensures { result ≡ without mask tag }
{
    mask - (1u64 << tag)
}

// The lowest free tag, and the mask without it.
pub fn take_one(mask: u64) -> Option<(u32, u64)>
    ensures value { result ≡ taken_one mask }
    ensures refusal { (one_answer mask result).0 ≡ tag_refusal 1 mask }
{
    if mask == 0 {
        return None;
    }
    let tag = u64::trailing_zeros(mask);
    Some((tag, clear(mask, tag)))
}

// The two lowest free tags, the lower first, and the mask without them. Kept apart from `take_one`: what they answer differs.
pub fn take_two(mask: u64) -> Option<(u32, u32, u64)>
    ensures value { result ≡ taken_two mask }
    ensures refusal { (two_answer mask result).0 ≡ tag_refusal 2 mask }
{
    if u64::count_ones(mask) < 2 {
        return None;
    }
    let first = u64::trailing_zeros(mask);
    let rest = clear(mask, first);
    let second = u64::trailing_zeros(rest);
    Some((first, second, clear(rest, second)))
}

// The mask with a tag free again. A tag that is free already, or above 63, changes nothing.
pub fn give_back(mask: u64, tag: u64) -> u64
    ensures { result ≡ given_back mask tag }
{
    if 64 <= tag {
        return mask;
    }
    if is_free(mask, tag) {
        return mask;
    }
    mask + (1u64 << tag)
}
