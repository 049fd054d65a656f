use std::marker::Brand;
use std::sync::ledger::Ledger;

/// Which hub it is: the ledger that counts the events of its seats, the book of its list, and the limits of its core. The caller
/// of `Hub::start` picks it, with `Brand`.
pub trait Identity: Ledger {
    ghost use Rattle.logbook.specs.Pages.{Book};
    ghost use Rattle.cv_core_machine.specs.declared.limits.Limits.{Limits};

    ghost book: { Book };

    ghost limits: { Limits };
}

impl Identity for Brand {
    ghost book = { record { number = 0; log_name = 0; cells_name = 0 } };

    ghost limits = { record { images = 1; feeds = 1 } };
}
