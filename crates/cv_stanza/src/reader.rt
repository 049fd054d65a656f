//! A whole file.
ghost use Rattle.std.specs.Prelude.{◌≡◌, ◌∷◌, ◌≤◌, IfErr, IfSome, Some, [], false, length, map};
ghost use Rattle.std.specs.List.{slice_split};
ghost use Rattle.std.specs.Option.{option_map};
ghost use Rattle.cv_base.specs.Answer.{MatchesUnlessOutOfMemory};
ghost use Rattle.cv_base.specs.Cuts.{is_lf};
ghost use Rattle.cv_base.specs.code.Cuts.{remaining_len};
ghost use Rattle.cv_base.specs.Reading.{read_fault};
ghost use Rattle.cv_stanza.specs.Blocks.{IsFirstBad, read_blocks};
ghost use Rattle.cv_stanza.specs.code.Steps.{at_line, ended, trimmed_lines, read_on};

use crate::format::BlockFormat;
use crate::line_error::LineError;
use cv_base::ReadBad;
use std::alloc::Global;

/// What the blocks of a file are read into, in order, or the fault at the least faulty line.
///
/// One pass over the bytes.
pub fn read_blocks<'a, F: BlockFormat<'a>>(
    alloc: Global,
    format: &F,
    bytes: &'a [u8],
) -> Result<Vec<F::Item>, ReadBad>
    ensures answer { MatchesUnlessOutOfMemory read_fault (λ items. items.items) result (read_blocks (F.rules format.now) (map F.trimmed (slice_split is_lf bytes.now))) }
    ensures first { IfErr result (λ error. IfSome (read_fault error) (IsFirstBad (F.rules format.now) (map F.trimmed (slice_split is_lf bytes.now)))) }
{
    read_all(alloc, format, bytes)
}

#[tactic(auto, using(crate::proofs::Reading::stopped))]
fn read_all<'a, F: BlockFormat<'a>>(
    alloc: Global,
    format: &F,
    bytes: &'a [u8],
) -> Result<Vec<F::Item>, ReadBad>
    ensures { MatchesUnlessOutOfMemory read_fault (λ items. items.items) result (read_on (F.steps format.now) 0 false (F.steps format.now).opening [] (trimmed_lines F.trimmed (Some bytes.now))) }
{
    let mut found = Vec::new(alloc);
    let mut block = format.open(alloc);
    let mut begun = false;
    let mut number = 0;
    let mut remaining = Some(bytes);
    while let Some(rest) = remaining {
        let (line, after) = next_line::<F>(rest);
        if line.is_empty() {
            end_block(alloc, format, begun, number, &block, &mut found)?;
            block = format.open(alloc);
            begun = false;
            number += 1;
        } else {
            number += 1;
            take_line(format, &mut block, line, number)?;
            begun = true;
        }
        remaining = after;
    }
    end_block(alloc, format, begun, number, &block, &mut found)?;
    Ok(found)
}

fn take_line<'a, F: BlockFormat<'a>>(
    format: &F,
    block: &mut F::Block,
    line: &'a [u8],
    number: u64,
) -> Result<(), ReadBad>
    ensures { MatchesUnlessOutOfMemory read_fault (λ _. F.state block.new) result (at_line number ((F.steps format.now).step (F.state block.old) line.now)) }
{
    format.take(block, line).map_err(|error| error.at(number))
}

/// Ends a block after this line, if it has begun.
fn end_block<'a, F: BlockFormat<'a>>(
    alloc: Global,
    format: &F,
    begun: bool,
    number: u64,
    block: &F::Block,
    found: &mut Vec<F::Item>,
) -> Result<(), ReadBad>
    ensures { MatchesUnlessOutOfMemory read_fault (λ _. found.new.items) result (ended (F.steps format.now) number begun (F.state block.now) found.old.items) }
{
    if !begun {
        return Ok(());
    }
    match format.close(alloc, block, found) {
        Ok(()) => Ok(()),
        Err(error) => Err(error.at(number)),
    }
}

/// The first line as it counts, and what stands after its LF, if it has one.
fn next_line<'a, F: BlockFormat<'a>>(bytes: &'a [u8]) -> (&'a [u8], Option<&'a [u8]>)
    ensures lines { trimmed_lines F.trimmed (Some bytes.now) ≡ result.0.now ∷ trimmed_lines F.trimmed (option_map (λ s. s.now) result.1) }
    ensures shorter { remaining_len (option_map (λ s. s.now) result.1) ≤ length bytes.now }
{
    let (line, rest) = cv_base::next_line(bytes);
    (F::trim(line), rest)
}
