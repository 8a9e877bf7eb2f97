ghost use Rattle.std.specs.Prelude.{◌≡◌, ◌<◌, ◌≤◌, ◌+◌, ◌-◌, ◌^◌, ◌&&◌, cond, min, not, if◌then◌else◌};

/// How many ready notices are held, when they were so many and are so many, and those of one path
/// alone came or went.
pub fn recounted(held: usize, is_out: bool, was: usize, is: usize) -> usize
    ensures { result ≡ (if is_out then is - (was - held) else held) }
{
    if is_out {
        is.saturating_sub(was.saturating_sub(held))
    } else {
        held
    }
}

/// A number below which all ready notices are held, when the one with this number, if there is one,
/// is or isn't.
pub fn lowered(from: u64, has: bool, is: bool, number: u64) -> u64
    ensures { result ≡ (if has && not is then min from number else from) }
{
    if has && !is { from.min(number) } else { from }
}

/// How many of all ready notices are held, when one of them, if there is one, was or wasn't and is
/// or isn't.
pub fn moved(held: usize, all: usize, has: bool, was: bool, is: bool) -> usize
    requires { all < 2 ^ 63 }
    ensures { held ≤ all → result ≡ held + cond (has && is) 1 0 - cond (has && was) 1 0 }
{
    if !has {
        return held;
    }
    (held.min(all) + usize::from(is)).saturating_sub(usize::from(was))
}
