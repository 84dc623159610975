// The list of the instances of a text.
ghost use Rattle.std.specs.Prelude.{IfOk, IfErr};
ghost use Rattle.shop_text.specs.{Texts.{IsTextFault, OrNoMemory}, Formats.grammar_of};
ghost use Rattle.shop_engine.specs.Listing.{IsListOf, IsListing};

use crate::args::ListArgs;
use crate::devices::{Sink, Source, read_all, write_all};
use crate::faults::Fault;
use shop_text::{ReadFault, listing, read};
use std::alloc::Global;

/// Lists the instances of `text`: a line for each, with its name and the numbers of its jobs and machines. Reads and
/// writes no device.
///
/// Fails with the fault of the text. Fails with `NoMemory` if memory runs out.
pub fn list_bytes(alloc: Global, text: &[u8], args: &ListArgs) -> Result<Vec<u8>, ReadFault>
    ensures list { IfOk result (λ out. IsListOf args.now.format text.now out.items) }
    ensures refused { IfErr result (λ fault. OrNoMemory (IsTextFault (grammar_of args.now.format)) text.now fault) }
{
    let named = read(alloc, args.format, text)?;
    Ok(listing(alloc, named.as_slice())?)
}

/// Writes the list of the instances of `source`, as `list_bytes` makes it. Writes nothing before all lines are made.
///
/// Fails as `list_bytes` does, and with `ReadFailed` or `WriteFailed` if a device fails.
pub fn list_text<S: Source, K: Sink>(
    alloc: Global,
    source: &mut S,
    sink: &mut K,
    args: &ListArgs,
) -> Result<(), Fault>
    ensures { IsListing args.now (S.device source.old) (S.device source.new)
        (K.device sink.old) (K.device sink.new) result }
{
    let text = read_all(alloc, source)?;
    let lines = list_bytes(alloc, text.as_slice(), args)?;
    write_all(sink, lines.as_slice())
}
