//! The entries of an open sheet, as a run.
ghost use Rattle.sheets.specs.Few.{entries_few};
ghost use Rattle.sheets.specs.History.{History};
ghost use Rattle.sheets.specs.Sheets.{Keeps, entries_of};
ghost use Rattle.std.specs.Prelude.{◌≡◌};

use crate::sheet::Sheet;
use kinds::{Kind, Reckoned, Refusal};
use runs::Run;

/// The entries of a sheet that stays open, lent as a run.
#[derive(Drop)]
pub struct Entries<'a, K> {
    sheet: &'a Sheet<K>,
}

impl<K: Reckoned> Sheet<K> {
    /// The entries so far, as a run, without taking the sheet up.
    pub fn entries(&self) -> Entries<'_, K>
        ensures lends { result.sheet.now ≡ self.now }
        ensures has_history { (h : History K) → Keeps K.Kind K.Reckoned.own h self.now → entries_of K.Reckoned.own result.sheet.now ≡ h.entries }
    {
        Entries { sheet: self }
    }
}

/// An open sheet's entries are a run.
impl<'a, K: Reckoned> Run for Entries<'a, K> {
    type Entry = K;

    ghost entries = { λ s. entries_of K.Reckoned.own s.sheet.now };

    ghost few = { λ s. entries_few K.Reckoned.own s.sheet.now };

    fn count(&self) -> u32 {
        self.sheet.count()
    }

    fn at(&self, place: u32) -> Result<K, Refusal> {
        self.sheet.at(place)
    }
}
