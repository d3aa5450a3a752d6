//! The months that were seen.

ghost use Rattle.std.specs.Prelude.{◌≡◌, ℕ, [], not, ◌||◌, ◌==◌, ◌-◌, nat_lt, length, slice_index, IfOk, OnOk};
ghost use Rattle.ghcn_series.specs.SeenMonths as seen;

use ghcn_fields::Memory;
use std::alloc::Global;
use std::collections::BTreeSet;
use std::marker::Model;

/// The months that were seen: a list as long as they rise, and a set from the first on that doesn't.
#[derive(Drop)]
pub(crate) struct Months {
    rising: Vec<u32>,
    all: Option<BTreeSet<u32>>,
}

impl Model for Months {
    ghost use Rattle.std.specs.Prelude.{ℕ, List};
    ghost use Rattle.ghcn_series.specs.SeenMonths.{seen_months, RiseUnless};

    ghost Value = { List ℕ };

    ghost view = { λ m. seen_months m.rising.items m.all };

    ghost invariant = { λ m. RiseUnless m.rising.items m.all };
}

impl Months {
    /// No month yet.
    pub(crate) fn new(alloc: Global) -> Self
        ensures { result ≡ [] }
    {
        Months {
            rising: Vec::new(alloc),
            all: None,
        }
    }

    /// Adds a month, or returns false if it was added before. Most come after all others, which takes no call.
    #[inline(always)]
    pub(crate) fn add(&mut self, alloc: Global, month: u32) -> Result<bool, Memory>
        ensures is_new { IfOk result (λ is_new. is_new ≡ not (seen.has_month self.old month)) }
        ensures added { OnOk result (seen.NotesMonth self.old self.new month) }
    {
        match self.all {
            None if is_after(&self.rising, month) => {
                self.rising.push(month)?;
                Ok(true)
            }
            _ => self.add_to_all(alloc, month),
        }
    }

    /// Adds a month to the set of all, which is made if there is none yet. It isn't built into its caller, since few
    /// months come out of order.
    #[inline(never)]
    fn add_to_all(&mut self, alloc: Global, month: u32) -> Result<bool, Memory>
        ensures is_new { IfOk result (λ is_new. is_new ≡ not (seen.has_month self.old month)) }
        ensures added { OnOk result (seen.NotesMonth self.old self.new month) }
    {
        if let Some(all) = &mut self.all {
            return Ok(all.insert(month)?);
        }
        let mut all = set_of(alloc, &self.rising)?;
        let is_new = all.insert(month)?;
        self.all = Some(all);
        Ok(is_new)
    }
}

/// Whether a month is greater than the last.
fn is_after(rising: &[u32], month: u32) -> bool
    ensures { result ≡ (length rising.now == 0 || nat_lt (slice_index rising.now (length rising.now - 1)) month) }
{
    match rising {
        [.., last] => *last < month,
        [] => true,
    }
}

/// The set of some months.
fn set_of(alloc: Global, months: &[u32]) -> Result<BTreeSet<u32>, Memory>
    ensures { IfOk result (λ all. (t : ℕ) → seen.has_month all.keys t ≡ seen.has_month months.now t) }
{
    Ok(months.iter().copied().collect(alloc)?)
}
