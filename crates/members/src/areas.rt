// The areas of bars, the roots of concrete types, and products that keep within bounds.
ghost use Rattle.std.specs.Prelude.{◌≡◌, ◌*◌, ◌%◌, ◌^◌, ◌<◌, ◌≤◌};
ghost use Rattle.members.specs.Areas.{area, greatest_area, area_of_bars, root_of, greatest_root};

use sheets::sheet::Bars;
use tables::materials::{BARS, ROOTS, ZONES, bar_area, root};

// The area in mm² of the thickest bar, the root of the strongest concrete and the greatest zone factor: each stands
// last in its table.
pub const GREATEST_AREA: u64 = BARS[BARS.len() - 1].value as u64;

pub const GREATEST_ROOT: u64 = ROOTS[ROOTS.len() - 1].value as u64;

pub const GREATEST_ZONE: u64 = ZONES[ZONES.len() - 1] as u64;

// The greatest number that a count can hold.
const MOST_COUNT: u64 = 0xFFFF_FFFF;

// The area in mm² of one bar of this diameter; 0 where no bar has it, as its definition says. Kept beside `root_of`, alike in
// shape alone: one function over both tables would only hand the table on.
#[tactic(auto, using(crate::proofs::Bounds::area_bounded), unfolding(crate::specs::Areas::area))]
pub fn bar_area_of(diameter: u32) -> u64
    ensures area_by_the_table { result ≡ area diameter }
    ensures at_most_the_greatest { result ≤ greatest_area }
{
    u64::from(bar_area(diameter).unwrap_or(0))
}

// The area in mm² of a number of bars of one diameter.
pub fn area_of(bars: Bars) -> u64
    ensures count_times_area { result ≡ area_of_bars bars }
    ensures at_most_a_full_count_of_the_greatest { result ≤ 2 ^ 32 * greatest_area }
{
    product::<MOST_COUNT, GREATEST_AREA>(u64::from(bars.count), bar_area_of(bars.diameter))
}

// 1,000 times the root of this concrete type, rounded down; 0 where no concrete has it.
#[tactic(auto, using(crate::proofs::Bounds::root_bounded), unfolding(crate::specs::Areas::root_of))]
pub fn root_of(concrete: u32) -> u64
    ensures root_by_the_table { result ≡ root_of concrete }
    ensures at_most_the_greatest { result ≤ greatest_root }
{
    u64::from(root(concrete).unwrap_or(0))
}

// The product of two numbers. Where they keep these bounds, and the product of the bounds fits, so does theirs.
pub fn product<const LEFT: u64, const RIGHT: u64>(left: u64, right: u64) -> u64
    ensures left_times_right_in_64_bits { result ≡ (left * right) % 2 ^ 64 }
    ensures exact_within_the_bounds { left ≤ LEFT → right ≤ RIGHT → LEFT * RIGHT < 2 ^ 64 → (result ≡ left * right) × (result ≤ LEFT * RIGHT) }
{
    product_in_64_bits(left, right)
}

// The product of two numbers, modulo 2⁶⁴.
fn product_in_64_bits(left: u64, right: u64) -> u64
    ensures left_times_right_in_64_bits { result ≡ (left * right) % 2 ^ 64 }
{
    left.wrapping_mul(right)
}
