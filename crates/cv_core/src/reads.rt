ghost use Rattle.std.specs.Prelude.{◌≡◌, IfOk};
ghost use Rattle.cv_core_machine.specs.Answer.{report_of, waiting_for, waiting_in};
ghost use Rattle.cv_core_machine.specs.Board.{board_of};
ghost use Rattle.cv_core_machine.specs.Scans.{StatesEveryLayer, trees_of};
ghost use Rattle.cv_core.specs.Boards.{ShowsWaiting};
ghost use Rattle.cv_core.specs.Reports.{shown};

use crate::board::Board;
use crate::machine::Core;
use crate::report::{Report, ReportRefusal, report_by};
use cv_base::{Digest, NoMemory};
use cv_desk::Desk;
use cv_tree::Share;

impl<D: Desk + Drop> Core<D> {
    /// The report of an image. It is read from the outcome that is kept of the image: it matches nothing and takes no memory. It is
    /// `NotRegistered` and `Pending` exactly if the machine's is, whatever the layers have.
    pub fn report(&self, image: &Digest) -> Result<Report<'_>, ReportRefusal<'_>>
        ensures waiting { waiting_in (shown result) ≡ waiting_for self.now.state image.now }
        ensures report { StatesEveryLayer D.tree → shown result ≡ report_of (trees_of D.tree) self.now.state image.now }
    {
        let outcome = self.inventory().outcome(image);
        report_by(self.generation(), outcome)
    }

    /// The board of the core as it is. It takes no memory, and fails only if a count of owners is saturated.
    pub fn board(&self) -> Result<Board, NoMemory>
        ensures waiting { IfOk result (λ board. ShowsWaiting self.now.state board) }
        ensures board { StatesEveryLayer D.tree → IfOk result (λ board. board ≡ board_of (trees_of D.tree) self.now.state) }
    {
        let outcomes = self.inventory().outcomes()?;
        let notices = self.shared_notices().share()?;
        Ok(Board::of(outcomes, notices, self.generation()))
    }
}
