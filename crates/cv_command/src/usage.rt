ghost use Rattle.std.specs.Prelude.{◌≡◌};
ghost use Rattle.cv_seq.specs.Cause.{Rose};
ghost use Rattle.cv_command.specs.Printed.{IsPrinted, usage};

use crate::printing::print;
use crate::status::Status;
use cv_io::Sink;

/// What is printed if the arguments are not a command.
const USAGE: &str = "usage: cvwatch serve|scan|order|drill|sbom|scan-list|keep|push\n";

/// Prints the usage line.
pub fn print_usage<K: Sink>(output: &mut K) -> Status
    ensures printed { IsPrinted usage (K.contents output.old) (K.contents output.new) result }
    ensures write_fault { result ≡ Status.WriteFault → Rose (K.faults output.old) (K.faults output.new) }
{
    print(output, USAGE, Status::Usage)
}
