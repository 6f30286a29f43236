//! The one call that does all that the program does.

ghost use Rattle.std.specs.Prelude.{◌≡◌, ◌≢◌, ◌⊎◌, ℕ, ◌+◌, ◌≤◌, List, [], ◌∷◌, ◌++◌, Some, None, Err, length, drop};
ghost use Rattle.std.specs.Io.KnownBytes.{Appends, IsAtEnd};
ghost use Rattle.outside.specs.Causes.{Rose};
ghost use Rattle.outside.specs.Transfers.{Asks};
ghost use Rattle.context_model.specs.Framing.{bytes_of};
ghost use Rattle.context_model.specs.Merged.{IsMerged};
ghost use Rattle.bag_model.specs.Shapes.{Nodes};
ghost use Rattle.bag_model.specs.Slots.{slots_of};
ghost use Rattle.bdl_load.specs.Loading.{Holding};
ghost use Rattle.bdl_check.specs.Compiler.{IsTableOf};
ghost use Rattle.report_text.specs.Blocks.{IsBlock};
ghost use Rattle.def_evolve.specs.Verdicts.{IsVerdict};
ghost use Rattle.def_evolve.specs.declared.verdicts.Verdict.{Verdict};
ghost use Rattle.trace_model.specs.Graphs.{Graph};
ghost use Rattle.trace_model.specs.Runs.{Lists, IsRun};
ghost use Rattle.graph_report.specs.Reports.{IsReport};
ghost use Rattle.report_json.specs.JsonReports.{IsJsonReport};
ghost use Rattle.load_maker.specs.Loads.{load_table, load_text};
ghost use Rattle.table_text.specs.TableTexts.{table_text};
ghost use Rattle.graph_text.specs.Reading.{IsGraphOf};
ghost use Rattle.text_carrier.specs.Carrying.{carried_text};
ghost use Rattle.text_lines.specs.declared.TheConstants.{INPUT_MAX};
ghost use Rattle.text_lines.specs.HexLines.{hex_line};
ghost use Rattle.write_proof.specs.Verdicts.{IsVerdictOf};
ghost use Rattle.write_proof.specs.declared.verdicts.Verified.{Verified};
ghost use Rattle.command_line.specs.Commands.{Task, task_of, command_of, trim, merge, carry, collect, load, check, table, decode, run, run_json, run_table, evolve, why, verify, IsWithinLimits};
ghost use Rattle.baggage_cli.specs.Refusals.{input_status, input_line, notice_line, refusal_line};
ghost use Rattle.baggage_cli.specs.Scene.{change, scene_of, TakesPart, HasNoFault};
ghost use Rattle.baggage_cli.specs.Laws.{Laws};
ghost use Rattle.baggage_cli.specs.Outcomes.{outcome_of};
ghost use Rattle.baggage_cli.specs.Trim.{trimmed_line};
ghost use Rattle.baggage_cli.specs.Merge.{lists_of, widest};
ghost use Rattle.baggage_cli.specs.Reading.{Framed};
ghost use Rattle.baggage_cli.specs.Check.{ok_line};
ghost use Rattle.baggage_cli.specs.Decode.{SaysTyped};
ghost use Rattle.baggage_cli.specs.Verify.{TruthWhereYes, verified_line};
ghost use Rattle.baggage_cli.specs.Evolve.{verdict_line, SafeWhereItFits};
ghost use Rattle.baggage_cli.specs.Why.{IsExplainedAt};
ghost use Rattle.baggage_cli.specs.Load.{load_heading};
ghost use Rattle.baggage_cli.specs.Run.{SaysGraph, ShowsTruth};
ghost use Rattle.baggage_cli.specs.Tables.{IsPrinted};
ghost use Rattle.baggage_cli.specs.Top.{ReadsSource, FetchesFiles, TellsFiles, TellsAll, InputGives, Comes, Answers, SaysList, SaysContexts, SaysBytes, SaysPieces, RefusesFiles, AsksNames, IsRefusedFor, FailsSink, IsFailure};

use crate::commands::carry::carry;
use crate::commands::check::check;
use crate::commands::collect::collect;
use crate::commands::decode::decode;
use crate::commands::evolve::evolve;
use crate::commands::load::load;
use crate::commands::merge::merge;
use crate::commands::run::{ReportForm, run};
use crate::commands::table::table;
use crate::commands::trim::trim;
use crate::commands::verify::verify;
use crate::commands::why::{Place, why};
use crate::delivery::{deliver, notify, refuse};
use crate::refusals::{InputFault, Notice, Refusal};
use crate::tables::Origin;
use bdl_check::laws;
use command_line::{Command, command_of};
use def_evolve::laws::fitting_tables_are_safe;
use graph_report::laws::lists_have_one_report;
use graph_text::laws::{lines_are_definite, texts_give_recorded_graphs};
use outside::{Gate, Library, Sink, Source, Words};
use report_json::laws::lists_have_one_json_report;
use report_text::laws::lists_have_one_block;
use std::alloc::Global;
use std::thread::Threads;
use table_text::laws::{printed_texts_have_no_fault, texts_have_one_fault, texts_have_one_table};
use text_carrier::laws::lines_collect_one_way;
use trace_model::laws::{graphs_have_one_run, shown_values_are_honest};
use write_proof::laws::{certificates_have_one_verdict, certificates_that_verify_tell_the_truth};

/// Tells that a definition and the text of a table have one table or one first fault, that a
/// printed table has no fault, that a list has one block, lines of pieces come to one thing, and a
/// text has one graph or one first fault; that a graph has one run and one report of each form,
/// which shows the truth; that contexts are safe under a table that fits; and that a certificate
/// has one verdict, and tells the truth where that is yes. It does nothing.
fn tell_laws()
    ensures { Laws }
{
    laws::tables_are_unique();
    laws::tables_exclude_faults();
    laws::faults_are_unique();
    laws::definitions_give_tables();
    texts_have_one_table();
    printed_texts_have_no_fault();
    texts_have_one_fault();
    lists_have_one_block();
    lines_collect_one_way();
    lines_are_definite();
    texts_give_recorded_graphs();
    graphs_have_one_run();
    lists_have_one_report();
    lists_have_one_json_report();
    shown_values_are_honest();
    fitting_tables_are_safe();
    certificates_have_one_verdict();
    certificates_that_verify_tell_the_truth();
}

/// Carries a command out: its output, or why there is none.
fn carry_out<R: Threads + Sync, G: Gate, L: Library, S: Source>(
    rt: &R,
    alloc: Global,
    gate: &G,
    command: Command<'_>,
    library: &mut L,
    source: &mut S,
) -> Result<Vec<u8>, Refusal>
    requires { IsWithinLimits (task_of command) }
    ensures { Comes (task_of command.entry) (change L.files L.faults library.old library.new)
        (change L.asked L.faults library.old library.new)
        (change S.left S.faults source.old source.new) (outcome_of result) }
{
    match command {
        Command::Trim { budget } => trim(alloc, source, budget),
        Command::Merge => merge(alloc, source),
        Command::Carry { width } => carry(alloc, source, width),
        Command::Collect => collect(alloc, source),
        Command::Check { file, bag } => check(alloc, library, file, bag),
        Command::Table { file, bag } => table(alloc, library, file, bag),
        Command::Decode { file, bag } => decode(alloc, library, source, file, bag),
        Command::Run { file, bag } => {
            let origin = Origin::Bag { file, bag };
            run(rt, alloc, gate, library, source, origin, ReportForm::Text)
        }
        Command::RunTable { file } => {
            let origin = Origin::Printed { file };
            run(rt, alloc, gate, library, source, origin, ReportForm::Text)
        }
        Command::RunJson { file, bag } => {
            let origin = Origin::Bag { file, bag };
            run(rt, alloc, gate, library, source, origin, ReportForm::Json)
        }
        Command::Load { rounds } => load(rt, alloc, gate, rounds),
        Command::Evolve { old, new, bag } => evolve(alloc, library, old, new, bag),
        Command::Why {
            file,
            bag,
            step,
            path,
        } => {
            let origin = Origin::Bag { file, bag };
            let place = Place { step, path };
            why(rt, alloc, gate, library, source, origin, place)
        }
        Command::Verify {
            file,
            bag,
            certificate,
        } => verify(alloc, library, source, file, bag, certificate),
    }
}

/// Finds the command of the arguments, carries it out and delivers what it comes to.
fn answer_words<R: Threads + Sync, G: Gate, L: Library, S: Source, K: Sink, E: Sink>(
    rt: &R,
    alloc: Global,
    gate: &G,
    words: &Words,
    library: &mut L,
    source: &mut S,
    out: &mut K,
    errs: &mut E,
) -> u8
    ensures { Answers (command_of words.now) (scene_of
        (change L.files L.faults library.old library.new)
        (change L.asked L.faults library.old library.new)
        (change S.left S.faults source.old source.new)
        (change K.written K.faults out.old out.new)
        (change E.written E.faults errs.old errs.new)) result }
{
    let Some(command) = command_of(words) else {
        return notify(errs, Notice::WordsRefused);
    };
    match carry_out(rt, alloc, gate, command, library, source) {
        Ok(output) => deliver(out, errs, output.as_slice()),
        Err(refusal) => refuse(alloc, errs, &refusal),
    }
}

/// All that the program does: finds the command of the arguments, carries it out, and writes its
/// output to `out` or the line of its refusal to `errs`. The answer is the status that the program
/// ends with.
///
/// | arguments | what is read | what is written |
/// |---|---|---|
/// | `trim N` | one line of hexadecimal digits, the bytes of a list of atoms | the line of the list cut to `N` bytes, in its form |
/// | `merge` | up to 4,096 lines, each the bytes of a context | the line of their merge, in form two where one of them is of it; a dash where there is none |
/// | `carry W` | one line, the bytes of a context | a numbered line of base64 for each `W` of its bytes |
/// | `collect` | such lines, in any order and with repeats | the line of the context that they carry |
/// | `check FILE BAG` | the definition of that file with all that it imports | `ok S`, with the number of the bag's slots |
/// | `table FILE BAG` | the same | the text of the bag's table |
/// | `decode FILE BAG` | the same, then one line of a context that is typed under the table | the context's block |
/// | `run FILE BAG` | the same, then a recorded graph of steps | the number and the block of each step that it shows |
/// | `runjson FILE BAG` | the same | these as JSON |
/// | `runtable FILE` | the text of a table, then a graph | as `run` |
/// | `evolve OLD NEW BAG` | the definitions of both files, OLD's first | `ok C`, with the number of slots that are in both of the bag's tables, or `breaks WAY CODE`, with the first field that NEW's table breaks |
/// | `why FILE BAG STEP PATH` | the definition, then a graph | the certificate for the slot `PATH` at step `STEP` |
/// | `verify FILE BAG CERT` | the definition, then the file of a certificate, then a graph | `yes`, or `no LINE CODE` with the line of the certificate that breaks a rule |
/// | `load N` | nothing | the lines `load N` and `steps S`, and the report of a graph of `S = 42 N + 1` steps, which is made here |
///
/// Files come from the library, and lines from the source; lines that are empty or begin with `#`
/// are skipped. Where a definition, a table or the file of a certificate is refused, the source
/// isn't read. A rank of steps and a join of many contexts may be cut into pieces that run in
/// threads; each piece passes the gate.
///
/// The answer is the status of the program, and the line is written to `errs`:
///
/// | status | comes where | line |
/// |---|---|---|
/// | 0 | all is done | none |
/// | 1 | a definition, a printed table or the file of a certificate is refused | `definition FILE LINE:COLUMN CODE` |
/// | 2 | the input or a line of it is refused; line 0 is the input as a whole | `input line LINE CODE` |
/// | 3 | bytes aren't those of a list or a context, or an atom is ill typed | `context line LINE offset OFFSET CODE` |
/// | 4 | the library or the source counted a fault | `library failed` or `source failed` |
/// | 5 | `out` or `errs` counted a fault | `sink failed`, as far as `errs` takes it |
/// | 6 | there is no memory | `memory` |
/// | 7 | the arguments ask for no command | `words refused` |
pub fn baggage_top<R: Threads + Sync, G: Gate, L: Library, S: Source, K: Sink, E: Sink>(
    rt: &R,
    alloc: Global,
    gate: &G,
    words: &Words,
    library: &mut L,
    source: &mut S,
    out: &mut K,
    errs: &mut E,
) -> u8
    // Exactly what the call comes to, and how it is delivered.
    ensures answer { Answers (command_of words.now) (scene_of
        (change L.files L.faults library.old library.new)
        (change L.asked L.faults library.old library.new)
        (change S.left S.faults source.old source.new)
        (change K.written K.faults out.old out.new)
        (change E.written E.faults errs.old errs.new)) result }

    // What follows from it, task by task.
    ensures trim { (budget : ℕ) (input : List ℕ)
        → command_of words.now ≡ Some (trim budget) → S.left source.old ≡ Some input → result ≡ 0
        → (said : Framed) × SaysList budget input said
        × Appends (K.written out.old) (K.written out.new) (trimmed_line budget said) }
    ensures merge { (input : List ℕ)
        → command_of words.now ≡ Some merge → S.left source.old ≡ Some input → result ≡ 0
        → (said : List Framed) × (merged : List (List ℕ))
        × SaysContexts input said × IsMerged (lists_of said) merged
        × Appends (K.written out.old) (K.written out.new)
        (hex_line (bytes_of (widest said) merged)) }
    ensures carry { (width : ℕ) (input : List ℕ)
        → command_of words.now ≡ Some (carry width) → S.left source.old ≡ Some input → result ≡ 0
        → (bytes : List ℕ) × SaysBytes input bytes
        × Appends (K.written out.old) (K.written out.new) (carried_text width bytes) }
    ensures collect { (input : List ℕ)
        → command_of words.now ≡ Some collect → S.left source.old ≡ Some input → result ≡ 0
        → (bytes : List ℕ) × SaysPieces input bytes
        × Appends (K.written out.old) (K.written out.new) (hex_line bytes) }
    ensures check { (file bag : List ℕ) (held : Holding)
        → command_of words.now ≡ Some (check file bag) → L.files library.old ≡ Some held
        → result ≡ 0
        → (table : Nodes) × IsTableOf held file bag table
        × Appends (K.written out.old) (K.written out.new) (ok_line (length (slots_of table))) }
    ensures table { (file bag : List ℕ) (held : Holding)
        → command_of words.now ≡ Some (table file bag) → L.files library.old ≡ Some held
        → result ≡ 0
        → (table : Nodes) × IsTableOf held file bag table
        × Appends (K.written out.old) (K.written out.new) (table_text table) }
    ensures decode { (file bag : List ℕ) (held : Holding) (input : List ℕ)
        → command_of words.now ≡ Some (decode file bag) → L.files library.old ≡ Some held
        → S.left source.old ≡ Some input → result ≡ 0
        → (table : Nodes) × (said : Framed) × (text : List ℕ)
        × IsTableOf held file bag table × SaysTyped table input said
        × IsBlock table said.0 said.1 text
        × Appends (K.written out.old) (K.written out.new) text }
    ensures run { (file bag : List ℕ) (held : Holding) (input : List ℕ)
        → command_of words.now ≡ Some (run file bag) → L.files library.old ≡ Some held
        → S.left source.old ≡ Some input → result ≡ 0
        → (table : Nodes) × (graph : Graph) × (lists : Lists) × (text : List ℕ)
        × IsTableOf held file bag table × SaysGraph table input graph
        × IsRun table graph lists × IsReport table graph lists text
        × ShowsTruth table graph lists
        × Appends (K.written out.old) (K.written out.new) text }
    ensures runtable { (file : List ℕ) (held : Holding) (input : List ℕ)
        → command_of words.now ≡ Some (run_table file) → L.files library.old ≡ Some held
        → S.left source.old ≡ Some input → result ≡ 0
        → (table : Nodes) × (graph : Graph) × (lists : Lists) × (text : List ℕ)
        × IsPrinted (held file) table × SaysGraph table input graph
        × IsRun table graph lists × IsReport table graph lists text
        × ShowsTruth table graph lists
        × Appends (K.written out.old) (K.written out.new) text }
    ensures runjson { (file bag : List ℕ) (held : Holding) (input : List ℕ)
        → command_of words.now ≡ Some (run_json file bag) → L.files library.old ≡ Some held
        → S.left source.old ≡ Some input → result ≡ 0
        → (table : Nodes) × (graph : Graph) × (lists : Lists) × (text : List ℕ)
        × IsTableOf held file bag table × SaysGraph table input graph
        × IsRun table graph lists × IsJsonReport table graph lists text
        × ShowsTruth table graph lists
        × Appends (K.written out.old) (K.written out.new) (text ++ 10 ∷ []) }
    ensures load { (rounds : ℕ) → command_of words.now ≡ Some (load rounds) → result ≡ 0
        → (graph : Graph) × (lists : Lists) × (text : List ℕ)
        × IsGraphOf load_table (load_text rounds) graph
        × IsRun load_table graph lists × IsReport load_table graph lists text
        × ShowsTruth load_table graph lists
        × Appends (K.written out.old) (K.written out.new) (load_heading rounds ++ text) }
    ensures evolve { (old new bag : List ℕ) (held : Holding)
        → command_of words.now ≡ Some (evolve old new bag) → L.files library.old ≡ Some held
        → result ≡ 0
        → (before : Nodes) × (after : Nodes) × (verdict : Verdict)
        × IsTableOf held old bag before × IsTableOf held new bag after
        × IsVerdict before after verdict × SafeWhereItFits before after verdict
        × Appends (K.written out.old) (K.written out.new) (verdict_line verdict) }
    ensures why { (file bag path : List ℕ) (step : ℕ) (held : Holding) (input : List ℕ)
        → command_of words.now ≡ Some (why file bag step path) → L.files library.old ≡ Some held
        → S.left source.old ≡ Some input → result ≡ 0
        → (table : Nodes) × (graph : Graph) × (lists : Lists) × (slot : ℕ) × (text : List ℕ)
        × IsTableOf held file bag table × SaysGraph table input graph
        × IsExplainedAt table graph lists step path slot text
        × Appends (K.written out.old) (K.written out.new) text }
    ensures verify { (file bag name : List ℕ) (held : Holding) (input : List ℕ)
        → command_of words.now ≡ Some (verify file bag name) → L.files library.old ≡ Some held
        → S.left source.old ≡ Some input → result ≡ 0
        → (table : Nodes) × (graph : Graph) × (certificate : List ℕ) × (verdict : Verified)
        × IsTableOf held file bag table × (held name ≡ Some certificate)
        × SaysGraph table input graph
        × IsVerdictOf table graph certificate verdict
        × TruthWhereYes table graph certificate verdict
        × Appends (K.written out.old) (K.written out.new) (verified_line verdict) }
    ensures fetched { (task : Task) (held : Holding)
        → command_of words.now ≡ Some task → FetchesFiles task
        → L.files library.old ≡ Some held → result ≤ 3
        → (names : List (List ℕ)) × AsksNames held task names
        × Asks names (L.asked library.old) (L.asked library.new) }

    // What holds of the objects.
    ensures same { L.files library.new ≡ L.files library.old }
    ensures library_counts { L.faults library.old ≤ L.faults library.new }
    ensures source_counts { S.faults source.old ≤ S.faults source.new }
    ensures out_counts { K.faults out.old ≤ K.faults out.new }
    ensures errs_counts { E.faults errs.old ≤ E.faults errs.new }
    ensures quiet { result ≢ 0 → result ≢ 5 → K.written out.new ≡ K.written out.old }
    ensures ended { (task : Task) → command_of words.now ≡ Some task → ReadsSource task
        → result ≡ 0 → IsAtEnd (S.left source.new) }
    ensures left { (task : Task) (input : List ℕ) → command_of words.now ≡ Some task
        → ReadsSource task → S.left source.old ≡ Some input
        → (result ≡ 0) ⊎ (result ≡ 2) ⊎ (result ≡ 3)
        → S.left source.new ≡ Some (drop (INPUT_MAX + 1) input) }
    // What files or an input come to hides no fault of the library or the source.
    ensures library_steady { result ≤ 3 → L.faults library.new ≡ L.faults library.old }
    ensures source_steady { result ≤ 3 → S.faults source.new ≡ S.faults source.old }
    ensures unread { result ≡ 1 → S.left source.new ≡ S.left source.old }

    // What the arguments don't ask for isn't used: no file is fetched, nothing is read, and
    // arguments that ask for nothing touch the sink of errors alone.
    ensures unfetched { (task : Task) → command_of words.now ≡ Some task → (FetchesFiles task → ⊥)
        → (L.asked library.new ≡ L.asked library.old)
        × (L.faults library.new ≡ L.faults library.old) }
    ensures unread_source { (task : Task) → command_of words.now ≡ Some task
        → (ReadsSource task → ⊥)
        → (S.left source.new ≡ S.left source.old) × (S.faults source.new ≡ S.faults source.old) }
    ensures untouched { command_of words.now ≡ None
        → (L.asked library.new ≡ L.asked library.old)
        × (L.faults library.new ≡ L.faults library.old)
        × (S.left source.new ≡ S.left source.old) × (S.faults source.new ≡ S.faults source.old)
        × (K.written out.new ≡ K.written out.old) × (K.faults out.new ≡ K.faults out.old) }

    // With status 0 no sink counted a fault, and nothing was said.
    ensures out_steady { result ≡ 0 → K.faults out.new ≡ K.faults out.old }
    ensures errs_steady { result ≡ 0 → E.faults errs.new ≡ E.faults errs.old }
    ensures errs { result ≡ 0 → E.written errs.new ≡ E.written errs.old }

    // What is first wrong with where the tables come from is status 1 with its line, unless the
    // world outside or memory failed.
    ensures definition { (task : Task) (held : Holding) → command_of words.now ≡ Some task
        → L.files library.old ≡ Some held → result ≡ 1
        → (refusal : Refusal) × RefusesFiles task held refusal
        × Appends (E.written errs.old) (E.written errs.new) (refusal_line refusal) }
    ensures fault { (task : Task) (held : Holding) (refusal : Refusal)
        → command_of words.now ≡ Some task → L.files library.old ≡ Some held
        → RefusesFiles task held refusal
        → ((result ≡ 1) × Appends (E.written errs.old) (E.written errs.new) (refusal_line refusal))
        ⊎ IsFailure result }

    // What is wrong with an input is status 2 or 3 with its line, unless the same failed.
    ensures input { (task : Task) (input : List ℕ) → command_of words.now ≡ Some task
        → TellsFiles task (L.files library.old) → S.left source.old ≡ Some input
        → (result ≡ 2) ⊎ (result ≡ 3)
        → (number : ℕ) × (fault : InputFault) × (result ≡ input_status fault)
        × InputGives task (L.files library.old) input (Err (Refusal.Input number fault))
        × Appends (E.written errs.old) (E.written errs.new) (input_line number fault) }
    ensures bad_line { (task : Task) (input : List ℕ) (number : ℕ) (fault : InputFault)
        → command_of words.now ≡ Some task → S.left source.old ≡ Some input
        → InputGives task (L.files library.old) input (Err (Refusal.Input number fault))
        → ((result ≡ input_status fault)
        × Appends (E.written errs.old) (E.written errs.new) (input_line number fault))
        ⊎ IsFailure result }

    // The other statuses have their causes and lines.
    ensures failed { (task : Task) → command_of words.now ≡ Some task → result ≡ 4
        → (FetchesFiles task × Rose (L.faults library.old) (L.faults library.new)
        × Appends (E.written errs.old) (E.written errs.new) (notice_line Notice.LibraryFailed))
        ⊎ (ReadsSource task × Rose (S.faults source.old) (S.faults source.new)
        × Appends (E.written errs.old) (E.written errs.new) (notice_line Notice.SourceFailed)) }
    ensures sink_failed { result ≡ 5
        → Rose (K.faults out.old) (K.faults out.new)
        ⊎ Rose (E.faults errs.old) (E.faults errs.new) }
    // Then the output has a prefix of what the task comes to, or the errors have a prefix of the
    // line of a refusal.
    ensures part { (task : Task) → command_of words.now ≡ Some task → result ≡ 5
        → FailsSink task (scene_of
        (change L.files L.faults library.old library.new)
        (change L.asked L.faults library.old library.new)
        (change S.left S.faults source.old source.new)
        (change K.written K.faults out.old out.new)
        (change E.written E.faults errs.old errs.new)) }
    // Where the arguments ask for nothing, the errors have a prefix of their line.
    ensures errs_part { command_of words.now ≡ None → result ≡ 5
        → TakesPart (change E.written E.faults errs.old errs.new)
        (notice_line Notice.WordsRefused) }
    ensures memory { (task : Task) → command_of words.now ≡ Some task → result ≡ 6
        → Appends (E.written errs.old) (E.written errs.new) (notice_line Notice.Memory) }
    ensures words { result ≡ 7 → (command_of words.now ≡ None)
        × Appends (E.written errs.old) (E.written errs.new) (notice_line Notice.WordsRefused) }
    ensures unasked { command_of words.now ≡ None → (result ≡ 7) ⊎ (result ≡ 5) }

    // Where the objects tell what they hold, none of it is refused, and no count rose, only success
    // and out of memory are left.
    ensures complete { (task : Task) → command_of words.now ≡ Some task
        → TellsAll task (L.files library.old) (S.left source.old)
        → ((refusal : Refusal) → IsRefusedFor task (L.files library.old) (S.left source.old) refusal
        → ⊥)
        → HasNoFault (scene_of (change L.files L.faults library.old library.new)
        (change L.asked L.faults library.old library.new)
        (change S.left S.faults source.old source.new)
        (change K.written K.faults out.old out.new)
        (change E.written E.faults errs.old errs.new))
        → (result ≡ 0) ⊎ (result ≡ 6) }
{
    // Only the proof needs it.
    tell_laws();
    answer_words(rt, alloc, gate, words, library, source, out, errs)
}
