ghost use Rattle.std.specs.Prelude.{◌≡◌, Ok};
ghost use Rattle.std.specs.Option.{ok_or};
ghost use Rattle.cv_base.specs.Answer.{MatchesUnlessOutOfMemory};
ghost use Rattle.cv_osv.specs.Record.{advisory_of};
ghost use Rattle.cv_request.specs.Fault.{fault_of};
ghost use Rattle.cv_request.specs.declared.error.RequestFault.TheVariants.{BadJson};
ghost use Rattle.cv_request.specs.Line.{json_or};
ghost use Rattle.cv_osv_text.specs.Tree.{data_view, line_read, tree_of};
ghost use Rattle.json.specs.Value.{value_view};

use crate::numbers::has_bad_number;
use crate::shared::SharedTexts;
use cv_osv::{AdvisoryError, Node, RecordRead, Texts, read_node};
use cv_request::RequestError;
use json::{Error, Reader, Scratch, Value};
use std::alloc::Global;
use std::str;

/// How deep arrays and objects nest at most, as for serde_json.
const MAX_DEPTH: usize = 127;

/// Reads a line as a record, as `read_json` of cv_request and `read_advisory` of cv_osv do. `BadJson` if the line is
/// not UTF-8 or not JSON. Only the texts that are kept are copied, but for those with escapes.
pub(crate) fn read_line(
    alloc: Global,
    line: &[u8],
    scratch: &mut Scratch,
    texts: &mut SharedTexts,
) -> Result<RecordRead, RequestError>
    ensures { MatchesUnlessOutOfMemory fault_of (λ found. found) result (line_read line.now) }
{
    let tree = read_tree(alloc, line, scratch)?;
    read_record(alloc, texts, &tree)
}

/// Reads a line as JSON, as `read_json` of cv_request does. The tree borrows from the line, or from `scratch` where a text has
/// escapes. Its numbers are those that serde_json has in range.
#[tactic(auto, using(crate::proofs::Data::json_none, crate::proofs::Data::json_bytes, cv_seq::proofs::Utf8::text_found, cv_seq::proofs::Utf8::none_found))]
pub(crate) fn read_tree<'a>(
    alloc: Global,
    line: &'a [u8],
    scratch: &'a mut Scratch,
) -> Result<Value<'a>, RequestError>
    ensures { MatchesUnlessOutOfMemory fault_of data_view result (json_or line.now) }
{
    let Ok(text) = str::from_utf8(line) else {
        return Err(RequestError::BadJson);
    };
    let tree = tree_of(alloc, text, scratch)?;
    if has_bad_number(&tree) {
        return Err(RequestError::BadJson);
    }
    Ok(tree)
}

/// The tree of a text, which borrows from it, or from `scratch` where the text has escapes.
fn tree_of<'a>(
    alloc: Global,
    text: &'a str,
    scratch: &'a mut Scratch,
) -> Result<Value<'a>, RequestError>
    ensures { MatchesUnlessOutOfMemory fault_of value_view result (ok_or (tree_of text.now) BadJson) }
{
    let Ok(mut reader) = Reader::new(text, scratch) else {
        return Err(RequestError::NoMemory);
    };
    match Value::read(alloc, &mut reader, MAX_DEPTH) {
        Ok(tree) => if reader.next().is_some() {
            Err(RequestError::BadJson)
        } else {
            Ok(tree)
        },
        Err(Error::Invalid) => Err(RequestError::BadJson),
        Err(_) => Err(RequestError::NoMemory),
    }
}

/// Reads a value as a record. `texts` makes the texts of its entries.
fn read_record<V: Node<T>, T: Texts>(
    alloc: Global,
    texts: &mut T,
    value: &V,
) -> Result<RecordRead, RequestError>
    ensures { MatchesUnlessOutOfMemory fault_of (λ found. found) result (Ok (advisory_of (V.data_of value.now))) }
{
    match read_node(alloc, texts, value) {
        Ok(record) => Ok(Ok(record)),
        Err(AdvisoryError::Bad(what)) => Ok(Err(what)),
        Err(AdvisoryError::NoMemory) => Err(RequestError::NoMemory),
    }
}
