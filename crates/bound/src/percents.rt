// A share in whole percent.
ghost use Rattle.bound.specs.Bounds.{Percent};

// What part of the whole in percent, a half going up, and 0 of nothing.
pub(crate) fn percent(part: u32, whole: u32) -> u64
    ensures { Percent part whole result }
{
    if whole == 0 {
        return 0;
    }
    (200 * part as u64 + whole as u64) / (2 * whole as u64)
}
