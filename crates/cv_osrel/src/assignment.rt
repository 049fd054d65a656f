//! The lines that assign a value to a name.
ghost use Rattle.std.specs.Prelude.{◌≡◌, IfOk, IsTrue};
ghost use Rattle.cv_osrel.specs.System.{is_name, value_by};

use crate::value::value_of;
use cv_base::{NoMemory, Text, cut_at};
use std::alloc::Global;

/// The value that a line gives to a name, if it is an assignment of this name.
#[tactic(auto, using(crate::proofs::Assignments::other_name, crate::proofs::Assignments::own_name))]
pub fn value_by(alloc: Global, name: &[u8], line: &[u8]) -> Result<Option<Text>, NoMemory>
    requires { IsTrue (is_name name.now) }
    ensures { IfOk result (λ value. value ≡ value_by name.now line.now) }
{
    let Some((front, rest)) = cut_at(line, b'=') else {
        return Ok(None);
    };
    if front == name {
        value_of(alloc, rest)
    } else {
        Ok(None)
    }
}
