//! The command `verify`: a certificate is verified for a graph.

ghost use Rattle.std.specs.Prelude.{◌≡◌, IfOk};
ghost use Rattle.baggage_cli.specs.Verify as spec;
ghost use Rattle.baggage_cli.specs.Verify.{VerifiesLines};
ghost use Rattle.baggage_cli.specs.Outcomes.{outcome_of};
ghost use Rattle.baggage_cli.specs.Scene.{change};
ghost use Rattle.baggage_cli.specs.Tables.{compiled};
ghost use Rattle.baggage_cli.specs.Work.{ReadsUnderBeside};

use crate::reading::read_input;
use crate::refusals::Refusal;
use crate::tables::{Origin, bring, obtain};
use graph_text::read_graph;
use outside::{Library, Memory, Source};
use std::alloc::Global;
use write_proof::Verified;

/// The line of a verdict.
fn verified_line(alloc: Global, verdict: Verified) -> Result<Vec<u8>, Memory>
    ensures { IfOk result (λ line. line.items ≡ spec.verified_line verdict) }
{
    match verdict {
        Verified::Yes => Ok(Vec::from_slice(alloc, b"yes\n")?),
        Verified::No { line, code } => Ok(format!(in alloc; "no {line} {code}\n")?.into_bytes()),
    }
}

/// Takes the table of a bag of the definition whose root is this file, then a certificate from the
/// file of that name, then reads the source to its end, and answers the verdict on the certificate
/// for the graph that its lines say. No step of the graph is run. Where the table is refused the
/// library isn't asked for the certificate, and where either is refused the source isn't read.
pub(crate) fn verify<L: Library, S: Source>(
    alloc: Global,
    library: &mut L,
    source: &mut S,
    file: &str,
    bag: &str,
    certificate: &str,
) -> Result<Vec<u8>, Refusal>
    ensures { ReadsUnderBeside (compiled file.now bag.now) certificate.now VerifiesLines
        (change L.files L.faults library.old library.new)
        (change L.asked L.faults library.old library.new)
        (change S.left S.faults source.old source.new) (outcome_of result) }
{
    let table = obtain(alloc, library, Origin::Bag { file, bag })?;
    let text = bring(alloc, library, certificate)?;
    let input = read_input(alloc, source)?;
    let graph = read_graph(alloc, &table, input.as_slice())?;
    let verdict = write_proof::verify(alloc, &table, &graph, text.as_slice())?;
    Ok(verified_line(alloc, verdict)?)
}
