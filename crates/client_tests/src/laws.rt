//! The laws of definitions, of their evolution, of the texts of tables and of requests can be called.

#[test]
fn laws_of_texts() {
    bdl_lexer::laws::tokens_are_unique();
    bdl_lexer::laws::tokens_exclude_faults();
    bdl_lexer::laws::faults_are_unique();
    bdl_parser::laws::modules_are_unique();
    bdl_parser::laws::modules_exclude_faults();
    bdl_parser::laws::faults_are_unique();
    bdl_load::laws::loading_is_unique();
    bdl_load::laws::first_names_are_a_front();
    topological_order::laws::orders_exclude_cycles();
}

#[test]
fn laws_of_definitions() {
    bdl_check::laws::faultless_declarations_pass();
    bdl_check::laws::tables_are_unique();
    bdl_check::laws::tables_exclude_faults();
    bdl_check::laws::faults_are_unique();
}

#[test]
fn laws_of_evolution() {
    def_evolve::laws::wider_kinds_spell_alike();
    def_evolve::laws::fitting_tables_are_safe();
    def_evolve::laws::tables_have_one_verdict();
    def_evolve::laws::verdicts_tell_the_first_break();
    def_evolve::laws::versions_live_together();
}

#[test]
fn laws_of_table_texts() {
    table_text::laws::lines_are_definite();
    table_text::laws::texts_have_one_table();
    table_text::laws::printed_texts_have_no_fault();
    table_text::laws::texts_have_one_fault();
}

#[test]
fn laws_of_requests() {
    request_model::laws::requests_are_faithful();
    request_model::laws::calls_hold();
}
