//! Calls of laws.

use context_json::laws::{blocks_have_the_same_data, lists_have_one_json};
use graph_report::laws::lists_have_one_report;
use graph_text::laws::texts_have_one_graph;
use load_maker::laws::loads_are_accepted;
use recorded_graph::laws::graphs_of_tables_grow;
use report_json::laws::lists_have_one_json_report;
use write_proof::laws::{
    certificates_have_one_verdict, certificates_that_verify_tell_the_truth,
    runs_have_certificates_that_verify,
};

#[test]
fn all_laws() {
    graph_lines::lines_have_one_form();
    graph_text::laws::lines_are_definite();
    texts_have_one_graph();
    graphs_of_tables_grow();
    lists_have_one_report();
    lists_have_one_json();
    lists_have_one_json_report();
    blocks_have_the_same_data();
    loads_are_accepted();
    write_proof::laws::lines_are_definite();
    certificates_have_one_verdict();
    certificates_that_verify_tell_the_truth();
    runs_have_certificates_that_verify();
}
