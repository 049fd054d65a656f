ghost use Rattle.std.specs.Prelude.{◌≡◌, ◌++◌, ℕ, List, Option, option_map};
ghost use Rattle.cv_seq.specs.Cause.{CausedBy};
ghost use Rattle.cv_hook.specs.Offers.{added_offer, is_failed};
ghost use Rattle.cv_hook.specs.declared.offer.Offer.{Offer};

use crate::fault::HookFault;
use crate::took::Took;
use cv_base::Row;

/// Where notifications are handed to.
pub trait Hook {
    /// The offers so far, the first one first, if they are known.
    ghost offers: { Self → Option (List Offer) };

    /// How often it failed. The count never falls.
    ghost faults: { Self → ℕ };

    /// Offers a notification with all its rows. What it took is the hook's from then on. One that was refused, or whose offer
    /// failed, may be offered again.
    fn offer(&mut self, number: u64, rows: &[Row]) -> Result<Took, HookFault>
        ensures offers { offers self.new ≡ option_map (λ made. made ++ added_offer number rows.now result) (offers self.old) }
        ensures cause { CausedBy (faults self.old) (faults self.new) (is_failed result) };
}
