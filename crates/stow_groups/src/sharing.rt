//! How many groups there are, and what the last one gets.
ghost use Rattle.std.specs.Prelude.{◌≡◌, ◌+◌, ◌-◌, ◌*◌, ◌<◌, ◌≤◌, IsTrue};
ghost use Rattle.stow_groups.specs.Groups.{groups, IsLast};

/// How many groups of at most `most` hold so many, at least.
pub fn groups(most: usize, count: usize) -> usize
    requires some { 1 ≤ count }
    requires most { 1 ≤ most }
    ensures { result ≡ groups most count }
{
    (count - 1) / most + 1
}

/// How many of so many the last of some groups gets: as many as the others, or, where the others are to be full, what
/// they leave, one at least.
pub fn share_of_last(most: usize, count: usize, groups: usize, full: bool) -> usize
    requires many { (2 ≤ groups) × (groups ≤ count) }
    requires hold { count ≤ groups * most }
    ensures last { IsLast most count groups result }
    ensures full { IsTrue full → 1 < result → count ≡ (groups - 1) * most + result }
{
    if !full {
        return count / groups;
    }
    let rest = (groups - 1).saturating_mul(most);
    if rest < count { count - rest } else { 1 }
}
