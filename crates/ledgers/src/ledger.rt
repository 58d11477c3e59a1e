//! The ledger as it is kept.
ghost use Rattle.ledgers.specs.Holding.{fit};
ghost use Rattle.std.specs.Prelude.{◌≡◌, true};

use sheets::{Sheet, Slip};

/// An open sheet together with its slip while there is one.
///
/// A ledger may not be let go: `close` ends it, and gives up a slip still held.
pub struct Ledger<K> {
    pub(crate) sheet: Sheet<K>,
    pub(crate) slip: Option<Slip>,
    ghost held: { fit slip sheet.unit sheet.parked ≡ true },
}
