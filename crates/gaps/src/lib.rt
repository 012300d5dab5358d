// Gaps between consecutive points of a curve, and where the step test quits.
#![tactic(auto)]

ghost use Rattle.std.specs.Prelude.{◌≡◌, ◌*◌};
ghost use Rattle.drawing.specs.Axis.{axis_of};
ghost use Rattle.gaps.specs.Gaps.{gap_along, largest_gap, ends_along, ends_apart, quits};

use drawing::Axis;

// The largest gap on one axis.
#[tactic(auto, unfolding(crate::specs::Gaps::gap_along, crate::specs::Gaps::gap_after, crate::specs::Gaps::gap, drawing::specs::Object::coordinate))]
fn along(points: &[u8; 12], axis: Axis) -> u8
    ensures { result ≡ gap_along points.now (axis_of axis) }
{
    let a = axis.offset();
    let g0 = points[a];
    let g1 = points[3 + a];
    let g2 = points[6 + a];
    let g3 = points[9 + a];
    g0.abs_diff(g1).max(g1.abs_diff(g2).max(g2.abs_diff(g3)))
}

// The largest gap on every axis.
#[tactic(auto, unfolding(crate::specs::Gaps::largest_gap))]
fn largest_gap(points: &[u8; 12]) -> u8
    ensures { result ≡ largest_gap points.now }
{
    along(points, Axis::X).max(along(points, Axis::Y).max(along(points, Axis::Z)))
}

// The distance from the first point to the last on one axis.
#[tactic(auto, unfolding(crate::specs::Gaps::ends_along, crate::specs::Gaps::gap, drawing::specs::Object::coordinate))]
fn ends_along(points: &[u8; 12], axis: Axis) -> u8
    ensures { result ≡ ends_along points.now (axis_of axis) }
{
    let a = axis.offset();
    points[a].abs_diff(points[9 + a])
}

// The largest such distance.
#[tactic(auto, unfolding(crate::specs::Gaps::ends_apart))]
pub fn ends_apart(points: &[u8; 12]) -> u32
    ensures { result ≡ ends_apart points.now }
{
    let x = ends_along(points, Axis::X);
    let y = ends_along(points, Axis::Y);
    let z = ends_along(points, Axis::Z);
    u32::from(x.max(y.max(z)))
}

// Three times the largest gap.
pub fn three_gaps(points: &[u8; 12]) -> u32
    ensures { result ≡ 3 * largest_gap points.now }
{
    3 * u32::from(largest_gap(points))
}

// The step test of a curve with n steps quits.
#[tactic(auto, unfolding(crate::specs::Gaps::quits))]
pub fn does_quit(points: &[u8; 12], n: u32) -> bool
    ensures { result ≡ quits points.now n }
{
    three_gaps(points) <= n
}
