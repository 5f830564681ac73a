//! The keys whose flag changed, as a list.
ghost use Rattle.std.specs.Prelude.{◌≡◌, ◌++◌, filter, OnOk};
ghost use Rattle.cluster_rules.specs.Derived.{below};
ghost use Rattle.key_sets.specs.Sets.{has};
ghost use Rattle.spread_flags.specs.Spread.{size};

use cluster_msgs::KeyList;
use spread_flags::Flags;
use std::alloc::AllocError;

/// Appends the keys whose flag is another than when the changes were last forgotten, ascending.
///
/// # Errors
/// Where no memory is left.
pub fn list_changes(flags: &Flags, out: &mut KeyList) -> Result<(), AllocError>
    ensures { OnOk result (out.new ≡ out.old ++ filter (has flags.now.changed) (below (size flags.now))) }
{
    flags.sound();
    let mut from = 0;
    while let Some(key) = flags.changed_from(from) {
        out.push(key)?;
        from = key + 1;
    }
    Ok(())
}
