// The constant tables: bars by diameter, concrete types by number, zone factors.
ghost use Rattle.std.specs.Prelude.{◌≡◌, IfSome};
ghost use Rattle.tables.specs.Materials.{lookup, listed, bars, roots, zones, RootRoundedDown};

// One line of a table: the number that it is looked up by, and the number that it gives.
#[derive(Clone, Copy)]
pub struct Entry {
    pub key: u32,
    pub value: u32,
}

// The bar diameters in mm, each with the area of one bar in mm².
pub const BARS: [Entry; 7] = [
    Entry { key: 6, value: 28 },
    Entry { key: 8, value: 50 },
    Entry { key: 10, value: 79 },
    Entry {
        key: 12,
        value: 113,
    },
    Entry {
        key: 16,
        value: 201,
    },
    Entry {
        key: 20,
        value: 314,
    },
    Entry {
        key: 25,
        value: 491,
    },
];

// The concrete types, each with 1,000 times its square root, rounded down.
pub const ROOTS: [Entry; 5] = [
    Entry {
        key: 17,
        value: 4123,
    },
    Entry {
        key: 21,
        value: 4582,
    },
    Entry {
        key: 30,
        value: 5477,
    },
    Entry {
        key: 38,
        value: 6164,
    },
    Entry {
        key: 47,
        value: 6855,
    },
];

// The zone factors in hundredths.
pub const ZONES: [u32; 4] = [100, 105, 115, 125];

// What the first line with this key gives.
fn looked_up(table: &[Entry], key: u32) -> Option<u32>
    ensures gives_the_first_line { result ≡ lookup table.now key }
{
    table
        .iter()
        .find(|line| line.key == key)
        .map(|line| line.value)
}

// The area of one bar of this diameter, or none where no bar has it.
pub fn bar_area(diameter: u32) -> Option<u32>
    ensures area_of_the_table { result ≡ lookup bars diameter }
{
    looked_up(&BARS, diameter)
}

// 1,000 times the root of this concrete type, rounded down, or none where no concrete has it.
pub fn root(concrete: u32) -> Option<u32>
    ensures root_of_the_table { result ≡ lookup roots concrete }
    ensures root_rounded_down { IfSome result (λ x. RootRoundedDown concrete x) }
{
    looked_up(&ROOTS, concrete)
}

// Whether a zone has this factor.
pub(crate) fn is_zone(factor: u32) -> bool
    ensures tells_the_zones { result ≡ listed zones factor }
{
    ZONES.contains(&factor)
}
