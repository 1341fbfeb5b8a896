//! Which archives know nothing of series that send more slowly than the store steps.

ghost use Rattle.std.specs.Prelude.{◌≡◌};
ghost use Rattle.rr_config.specs.Slow.{fewest_known, slowest};

use rr_schema::ArchiveSpec;

/// The fewest steps of a row that must be known for the row to be: all but the fraction xff.
fn fewest_known(archive: &ArchiveSpec) -> u64
    ensures { result ≡ fewest_known archive.now }
{
    let most_unknown = u64::from(archive.num) * u64::from(archive.steps);
    u64::from(archive.steps).saturating_sub(most_unknown / u64::from(archive.den.max(1)))
}

/// The greatest k for which a series that sends once in k steps still has known rows in an archive.
/// None if it has for every k, since one step is enough. Of s steps at most `ceil(s / k)` are known
/// then, which are enough while `k * (fewest - 1) < s`.
pub(crate) fn slowest(archive: &ArchiveSpec) -> Option<u64>
    ensures { result ≡ slowest archive.now }
{
    let fewest = fewest_known(archive);
    if fewest < 2 {
        return None;
    }
    Some(u64::from(archive.steps).saturating_sub(1) / (fewest - 1))
}
