// The limits of what is passed to a call.
use tables::limits::Limit;

// A job's number or a mark.
pub(crate) const MARK: Limit = Limit::Between(1, 65_535);

// A storey.
pub(crate) const STOREY: Limit = Limit::Between(1, 40);

// The newtons that one call may move.
pub(crate) const NEWTONS: Limit = Limit::Between(1, 10_000_000);
