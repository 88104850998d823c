// The limits of every number on a sheet: one table for each kind, in the order of its message.
use tables::limits::Limit;

// The limits that several sheets share.
const MARK: Limit = Limit::Between(1, 65_535);

const STRENGTH: Limit = Limit::Between(100, 300);

const SIDE: Limit = Limit::Between(100, 2_000);

const BAR_COUNT: Limit = Limit::Between(1, 100);

const SPACING: Limit = Limit::Between(1, 500);

const SHEAR: Limit = Limit::Between(0, 10_000_000);

const SHEAR_AREA: Limit = Limit::Between(1, 5_000_000);

const STOREY: Limit = Limit::Between(1, 40);

// A beam's numbers.
pub const BEAM_LIMITS: [Limit; 16] = [
    MARK,
    Limit::Zone,
    Limit::Concrete,
    STRENGTH,
    // width, depth
    SIDE,
    SIDE,
    // top bars
    BAR_COUNT,
    Limit::Diameter,
    // bottom bars
    BAR_COUNT,
    Limit::Diameter,
    // stirrups
    Limit::Diameter,
    SPACING,
    SHEAR,
    SHEAR_AREA,
    // face bars on each side
    Limit::Between(0, 20),
    Limit::Diameter,
];

// A column's numbers.
pub const COLUMN_LIMITS: [Limit; 11] = [
    MARK,
    Limit::Zone,
    Limit::Concrete,
    STRENGTH,
    // the two sides
    SIDE,
    SIDE,
    // bars
    BAR_COUNT,
    Limit::Diameter,
    // bars of the tension face
    BAR_COUNT,
    // confined and normal spacing
    SPACING,
    SPACING,
];

// A wall's numbers.
pub const WALL_LIMITS: [Limit; 20] = [
    MARK,
    Limit::Zone,
    Limit::Concrete,
    STRENGTH,
    // storey, storeys
    STOREY,
    STOREY,
    // analysis
    Limit::Between(1, 2),
    // thickness, length, height, support distance
    Limit::Between(50, 600),
    Limit::Between(200, 20_000),
    Limit::Between(1_000, 200_000),
    Limit::Between(500, 20_000),
    SHEAR,
    // least axial compression
    Limit::Between(0, 100_000_000),
    SHEAR_AREA,
    // layers
    Limit::Between(1, 4),
    // vertical bars: diameter, spacing, count
    Limit::Diameter,
    SPACING,
    Limit::Between(1, 2_000),
    // horizontal bars
    Limit::Diameter,
    SPACING,
];
