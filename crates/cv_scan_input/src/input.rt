ghost use Rattle.std.specs.Prelude.{◌≡◌, ◌≤◌, ◌^◌, [], true, false, length, IfOk, IfSome, IsErrOf, OnOk};
ghost use Rattle.std.specs.Io.KnownBytes.{IsAtEnd};
ghost use Rattle.cv_seq.specs.Cause.{CausedBy};
ghost use Rattle.cv_io.specs.Reader.{reading, room_of, ungiven};
ghost use Rattle.cv_osv.specs.Records.{HasDistinctIds};
ghost use Rattle.cv_scan_input.specs.Answer.{IsRequest, is_input_fault};
ghost use Rattle.cv_scan_input.specs.Request.{input_of, request_by};
ghost use Rattle.cv_scan_input.specs.Taken.{IsTaken, IsTakenWithin};
ghost use Rattle.cv_scan_input.specs.Unrefused.{Unrefused};
ghost use Rattle.cv_scan_input.specs.code.Accepted.{Begun, UnrefusedAfter};
ghost use Rattle.cv_scan_input.specs.code.Remaining.{Begins, remaining_request};
ghost use Rattle.cv_scan_input.specs.code.TakenParts.{IsTakenFrom, IsTakenTo};
ghost use Rattle.cv_scan_input.specs.declared.error.InputError.TheVariants as error;

use crate::error::InputError;
use crate::kind::InputKind;
use crate::line::further_line;
use cv_base::{Advisory, MAX_ADVISORIES, Seq};
use cv_io::{Line, LineReader, Source};
use cv_osv::RecordList;
use cv_osv_text::RecordReader;
use std::alloc::Global;

/// The most bytes of a line of an input.
pub const MAX_LINE: usize = 67_108_864;

/// An input has fewer bytes.
pub const MAX_INPUT: u64 = 1 << 36;

/// What an input requests: what line 1 is, and the records after it.
#[derive(Debug, Drop)]
pub struct InputLines<T> {
    pub first: T,
    pub records: Seq<Advisory>,
}

/// Reads an input to its end, or up to the first line that is refused. At most one record at a time is in
/// memory as JSON. A line with a number is read twice, and all of its texts are copied; of the other lines only the texts that
/// are kept are copied, but for those with escapes.
#[tactic(auto, using(crate::proofs::Accepted::begun_then, crate::proofs::Accepted::begun_new, crate::proofs::Taken::none_taken, crate::proofs::Taken::first_taken, crate::proofs::Taken::first_taken_up, crate::proofs::Taken::rest_taken, crate::proofs::Taken::rest_taken_up))]
pub fn read_input<S: Source, I: InputKind>(
    alloc: Global,
    input: &mut S,
) -> Result<InputLines<I::First>, InputError>
    ensures request { IfSome (S.remaining input.old) (λ bytes. IsRequest (request_by I.first_of I.further (input_of bytes)) result) }
    ensures limit { IsTakenWithin (2 ^ 36) (S.remaining input.old) (S.remaining input.new) }
    ensures taken { IsErrOf result error.InputTooLong → IsTaken (2 ^ 36) (S.remaining input.old) (S.remaining input.new) }
    ensures unrefused { IsErrOf result error.ReadFault → Unrefused I.first_of I.further (S.remaining input.old) (S.remaining input.new) }
    ensures ended { OnOk result (IsAtEnd (S.remaining input.new)) }
    ensures empty { IsErrOf result error.NoLine → IsAtEnd (S.remaining input.new) }
    ensures distinct { IfOk result (λ request. HasDistinctIds request.records) }
    ensures within { IfOk result (λ request. length request.records ≤ MAX_ADVISORIES) }
    ensures right { IfOk result (λ request. I.right request.first) }
    ensures cause { CausedBy (S.faults input.old) (S.faults input.new) (is_input_fault result) }
{
    let mut reader = LineReader::new(alloc, MAX_LINE, MAX_INPUT)?;
    let first = read_first::<S, I>(alloc, &mut reader, input)?;
    read_rest::<S, I>(alloc, reader, input, first)
}

/// Reads line 1.
#[tactic(auto, using(crate::proofs::Progress::begins_more, crate::proofs::Progress::begins_refused, crate::proofs::Progress::begins_end, crate::proofs::Progress::begins_stopped, crate::proofs::Accepted::begun_read, crate::proofs::Taken::taken_next, crate::proofs::Taken::taken_within, crate::proofs::Taken::taken_up))]
fn read_first<S: Source, I: InputKind>(
    alloc: Global,
    reader: &mut LineReader,
    input: &mut S,
) -> Result<I::First, InputError>
    requires not_spent { reader.old.spent ≡ false }
    requires seen { reader.old.ended ≡ true → IsAtEnd (S.remaining input.old) }
    requires limit { reader.old.max_line ≡ 67108864 }
    requires inputs { reader.old.max_input ≡ 2 ^ 36 }
    requires room { room_of reader.old ≤ 2 ^ 36 }
    ensures request { Begins I.first_of I.further (reading reader.old (S.remaining input.old)) (reading reader.new (S.remaining input.new)) result }
    ensures taken { IsTakenTo reader.old.taken reader.new.taken (S.remaining input.old) (S.remaining input.new) }
    ensures within { reader.new.taken ≤ 2 ^ 36 }
    ensures full { IsErrOf result error.InputTooLong → reader.new.taken ≡ 2 ^ 36 }
    ensures begun { IfOk result (λ first. reader.new.ended ≡ false →
        Begun I.first_of first reader.old reader.new (S.remaining input.old) (S.remaining input.new)) }
    ensures unrefused { IsErrOf result error.ReadFault → Unrefused I.first_of I.further (ungiven reader.old (S.remaining input.old)) (S.remaining input.new) }
    ensures not_spent { OnOk result (reader.new.spent ≡ false) }
    ensures limit { OnOk result (reader.new.max_line ≡ 67108864) }
    ensures inputs { OnOk result (reader.new.max_input ≡ 2 ^ 36) }
    ensures seen { reader.new.ended ≡ true → IsAtEnd (S.remaining input.new) }
    ensures empty { IsErrOf result error.NoLine → IsAtEnd (S.remaining input.new) }
    ensures right { IfOk result I.right }
    ensures room { OnOk result (room_of reader.new ≤ room_of reader.old) }
    ensures cause { CausedBy (S.faults input.old) (S.faults input.new) (is_input_fault result) }
{
    match reader.next(alloc, input)? {
        Line::Text(text) => I::read(alloc, text.as_slice()),
        Line::End => Err(InputError::NoLine),
    }
}

/// Reads the lines after line 1, to the end.
#[tactic(auto, using(crate::proofs::Progress::progress_first, crate::proofs::Progress::progress_more, crate::proofs::Progress::progress_refused, crate::proofs::Progress::progress_end, crate::proofs::Progress::progress_stopped, crate::proofs::Accepted::accepted_first, crate::proofs::Accepted::accepted_more, crate::proofs::Accepted::accepted_failed, crate::proofs::Taken::taken_first, crate::proofs::Taken::taken_more, crate::proofs::Taken::taken_within, crate::proofs::Taken::taken_up))]
fn read_rest<S: Source, I: InputKind>(
    alloc: Global,
    mut reader: LineReader,
    input: &mut S,
    first: I::First,
) -> Result<InputLines<I::First>, InputError>
    requires not_spent { reader.spent ≡ false }
    requires seen { reader.ended ≡ true → IsAtEnd (S.remaining input.old) }
    requires limit { reader.max_line ≡ 67108864 }
    requires inputs { reader.max_input ≡ 2 ^ 36 }
    requires room { room_of reader ≤ 2 ^ 36 }
    requires right { I.right first }
    ensures request { IfSome (reading reader (S.remaining input.old)) (λ rest. IsRequest (remaining_request I.further first [] 2 rest) result) }
    ensures limit { IsTakenFrom reader.taken (S.remaining input.old) (S.remaining input.new) }
    ensures taken { IsErrOf result error.InputTooLong → IsTakenTo reader.taken (2 ^ 36) (S.remaining input.old) (S.remaining input.new) }
    ensures before { IsErrOf result error.ReadFault → reader.ended ≡ false }
    ensures unrefused { IsErrOf result error.ReadFault → UnrefusedAfter I.further first reader (S.remaining input.old) (S.remaining input.new) }
    ensures ended { OnOk result (IsAtEnd (S.remaining input.new)) }
    ensures begun { IsErrOf result error.NoLine → ⊥ }
    ensures distinct { IfOk result (λ request. HasDistinctIds request.records) }
    ensures within { IfOk result (λ request. length request.records ≤ MAX_ADVISORIES) }
    ensures right { IfOk result (λ request. I.right request.first) }
    ensures cause { CausedBy (S.faults input.old) (S.faults input.new) (is_input_fault result) }
{
    let mut lines = RecordReader::new(alloc)?;
    let mut records = RecordList::new(alloc);
    let mut number: u64 = 1;
    while let Line::Text(text) = reader.next(alloc, input)? {
        number += 1;
        records = further_line(
            alloc,
            I::later(),
            &mut lines,
            records,
            text.as_slice(),
            number,
        )?;
    }
    Ok(InputLines {
        first,
        records: records.into_seq(),
    })
}
