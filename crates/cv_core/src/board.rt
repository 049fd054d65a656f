ghost use Rattle.std.specs.Prelude.{◌≡◌, IfOk};
ghost use Rattle.cv_core_machine.specs.Answer.{Read};
ghost use Rattle.cv_core_machine.specs.Board.{board_answer};
ghost use Rattle.cv_core.specs.Boards.{board_view};
ghost use Rattle.cv_core.specs.Reports.{report_answer, shown};

use crate::report::{Report, ReportRefusal, report_by};
use cv_base::{Digest, NoMemory};
use cv_core_inventory::Outcomes;
use cv_notice::Notices;
use cv_tree::{Share, Shared};
use std::marker::Model;

/// All that reads are answered from, at one moment: the reports of the registered images, and the notifications. It shares them
/// with the core, and stays as it is while the core goes on.
pub struct Board {
    outcomes: Outcomes,
    notices: Shared<Notices>,
    generation: u64,
}

/// Written out, so that the crates above call it, and do not prove anew how each part is dropped.
impl Drop for Board {
    fn drop(self) {
        let Board {
            outcomes: _,
            notices: _,
            generation: _,
        } = self;
    }
}

impl Model for Board {
    ghost use Rattle.cv_core_machine.specs.Board.{BoardView};
    ghost use Rattle.cv_core.specs.Boards.{board_view};

    ghost Value = { BoardView };

    ghost view = { λ b. board_view b.outcomes b.notices b.generation };
}

impl Board {
    /// The board of the outcomes of all images, the notifications, and a generation. It takes no memory.
    pub fn of(outcomes: Outcomes, notices: Shared<Notices>, generation: u64) -> Board
        ensures { result ≡ board_view outcomes notices generation }
    {
        Board {
            outcomes,
            notices,
            generation,
        }
    }

    /// An equal board, which shares all parts. It takes no memory, and fails only if a count of owners is saturated.
    pub fn share(&self) -> Result<Board, NoMemory>
        ensures { IfOk result (λ board. board ≡ self.now) }
    {
        let outcomes = self.outcomes.share()?;
        let notices = self.notices.share()?;
        Ok(Board {
            outcomes,
            notices,
            generation: self.generation,
        })
    }

    /// The report of an image. It takes no memory.
    pub fn report(&self, image: &Digest) -> Result<Report<'_>, ReportRefusal<'_>>
        ensures { report_answer image.now (shown result) ≡ board_answer self.now (Read.Report image.now) }
    {
        report_by(self.generation, self.outcomes.get(image))
    }

    /// The notifications that are not acknowledged. It takes no memory.
    pub fn notices(&self) -> &Notices
        ensures { result.now ≡ self.now.notifications }
    {
        self.notices.value()
    }
}
