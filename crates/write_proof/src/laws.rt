//! Laws of certificates, each the contract of a function that does nothing.

ghost use Rattle.std.specs.Prelude.{ℕ, List};
ghost use Rattle.bag_model.specs.Shapes.{Nodes};
ghost use Rattle.text_lines.specs.Readings.{IsDefinite};
ghost use Rattle.trace_model.specs.Graphs.{Graph, IsRecorded};
ghost use Rattle.write_proof.specs.declared.verdicts.Verified.TheVariants as verdicts;
ghost use Rattle.write_proof.specs.LineRules.{certificate_lines};
ghost use Rattle.write_proof.specs.Certificates.{CertificatesVerify};
ghost use Rattle.write_proof.specs.Verdicts.{IsVerdictOf, TellsTruth, VerdictsAreOne};

/// A line says one entry or breaks one rule first, never both.
pub fn lines_are_definite()
    ensures { (table : Nodes) (graph : Graph) → IsDefinite (certificate_lines table graph) }
{}

/// A certificate has one verdict.
pub fn certificates_have_one_verdict()
    ensures { VerdictsAreOne }
{}

/// A certificate whose verdict is yes tells the truth: the text that it has for a slot at a step is
/// that of all that the steps on the way contribute to the slot, the steps that it lists are
/// exactly those that reach the step, and those that it uses are some of them, which contribute
/// together all that the text says.
pub fn certificates_that_verify_tell_the_truth()
    ensures { (table : Nodes) (graph : Graph) (certificate : List ℕ) → IsRecorded table graph
        → IsVerdictOf table graph certificate verdicts.Yes → TellsTruth table graph certificate }
{}

/// The certificate for a slot that is ended in the list of a step verifies, whatever graph of a
/// table was run.
pub fn runs_have_certificates_that_verify()
    ensures { CertificatesVerify }
{}
