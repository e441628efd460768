//! How top layers move with a clock: a region keeps its values as they were when its pace began.

ghost use Rattle.std.specs.Prelude.{◌≡◌, ◌<◌, ◌^◌, All};
ghost use Rattle.fb_regions.specs.InternalClock.{HasBegun, HaveBegun, all_at, now_at, value_at};

use crate::Role;
use crate::region::Region;

/// What a kept value of the region is at this time.
fn value_at(region: &Region, clock: u64, value: u64) -> u64
    requires begun { HasBegun clock region.now }
    requires fits { value_at clock region.now value < 2 ^ 64 }
    ensures { result ≡ value_at clock region.now value }
{
    let passed = clock - region.since;
    match region.pace {
        Role::Plus => value + passed,
        Role::Minus => value.saturating_sub(passed),
        Role::Out => value,
    }
}

/// The value of the region's top layer at this time.
pub fn top_at(region: &Region, clock: u64) -> u64
    requires begun { HasBegun clock region.now }
    requires fits { (now_at clock region.now).top_value < 2 ^ 64 }
    ensures { result ≡ (now_at clock region.now).top_value }
{
    value_at(region, clock, region.top_value)
}

/// The sum of the values of the region's layers at this time.
pub fn radius_at(region: &Region, clock: u64) -> u64
    requires begun { HasBegun clock region.now }
    requires fits { (now_at clock region.now).radius < 2 ^ 64 }
    ensures { result ≡ (now_at clock region.now).radius }
{
    value_at(region, clock, region.radius)
}

/// Writes down the region's values at this time, from which its pace goes on.
pub fn settle(region: &mut Region, clock: u64)
    requires begun { HasBegun clock region.old }
    requires top { (now_at clock region.old).top_value < 2 ^ 64 }
    requires radius { (now_at clock region.old).radius < 2 ^ 64 }
    ensures { region.new ≡ record (now_at clock region.old) { since = clock } }
{
    let top_value = top_at(region, clock);
    let radius = radius_at(region, clock);
    region.top_value = top_value;
    region.radius = radius;
    region.since = clock;
}

/// Writes down the values of all regions at this time, and sets the time back to 0.
pub fn settle_all(regions: &mut [Region], clock: u64)
    requires begun { HaveBegun clock regions.old }
    requires tops { All (λ r. (now_at clock r).top_value < 2 ^ 64) regions.old }
    requires radii { All (λ r. (now_at clock r).radius < 2 ^ 64) regions.old }
    ensures { regions.new ≡ all_at clock regions.old }
{
    for i in 0..regions.len() {
        settle(&mut regions[i], clock);
        regions[i].since = 0;
    }
}
