//! Worked cases: scripts.
ghost use Rattle.std.specs.Prelude.{◌≡◌, Some};
ghost use Rattle.exec_doc.specs.Refusals.{refusal_of};
ghost use Rattle.exec_doc.specs.declared.refused.Refused.TheVariants as code;
ghost use Rattle.exec_worked.specs.Answer.{transcript_of};
ghost use Rattle.exec_worked.specs.Scripts as worked;

/// - `a_client_of_another_node`: `cases/scripts/a_client_of_another_node.json` is refused with the code 6.
/// - `a_destination_that_is_read_only`: `cases/scripts/a_destination_that_is_read_only.json` is refused with the code 6.
/// - `a_fault_behind_a_group_variable`: `cases/scripts/a_fault_behind_a_group_variable.json` is refused with the code 6.
/// - `a_form_of_cancel_that_is_none`: `cases/scripts/a_form_of_cancel_that_is_none.json` is refused with the code 6.
/// - `a_number_for_a_word`: `cases/scripts/a_number_for_a_word.json` is refused with the code 6.
/// - `a_register_8`: `cases/scripts/a_register_8.json` is refused with the code 6.
/// - `a_reply_of_a_timer`: `cases/scripts/a_reply_of_a_timer.json` is refused with the code 6.
/// - `a_skip_beyond_the_end`: `cases/scripts/a_skip_beyond_the_end.json` is refused with the code 6.
/// - `a_skip_by_0`: `cases/scripts/a_skip_by_0.json` is refused with the code 6.
/// - `a_skip_by_a_register`: `cases/scripts/a_skip_by_a_register.json` is refused with the code 6.
/// - `a_skip_to_the_end`: `cases/scripts/a_skip_to_the_end.json` has this transcript.
/// - `a_topic_that_is_not_there`: `cases/scripts/a_topic_that_is_not_there.json` is refused with the code 6.
/// - `a_word_in_capitals`: `cases/scripts/a_word_in_capitals.json` is refused with the code 6.
/// - `a_yield_of_a_timer`: `cases/scripts/a_yield_of_a_timer.json` is refused with the code 6.
/// - `an_empty_instruction`: `cases/scripts/an_empty_instruction.json` is refused with the code 6.
/// - `an_operation_that_is_none`: `cases/scripts/an_operation_that_is_none.json` is refused with the code 6.
/// - `comparisons`: `cases/scripts/comparisons.json` has this transcript.
/// - `decide_in_a_goal`: `cases/scripts/decide_in_a_goal.json` is refused with the code 6.
/// - `execute_of_another_node`: `cases/scripts/execute_of_another_node.json` is refused with the code 6.
/// - `pub_to_a_timer`: `cases/scripts/pub_to_a_timer.json` is refused with the code 6.
/// - `pub_to_an_unknown_topic`: `cases/scripts/pub_to_an_unknown_topic.json` is refused with the code 6.
/// - `results_at_the_edges`: `cases/scripts/results_at_the_edges.json` has this transcript.
/// - `set_of_in`: `cases/scripts/set_of_in.json` is refused with the code 6.
/// - `skip_beyond_the_end`: `cases/scripts/skip_beyond_the_end.json` is refused with the code 6.
/// - `skips`: `cases/scripts/skips.json` has this transcript.
/// - `too_few_items`: `cases/scripts/too_few_items.json` is refused with the code 6.
/// - `too_many_items`: `cases/scripts/too_many_items.json` is refused with the code 6.
/// - `unknown_operation`: `cases/scripts/unknown_operation.json` is refused with the code 6.
/// - `unknown_word`: `cases/scripts/unknown_word.json` is refused with the code 6.
pub fn scripts_cases()
    ensures a_client_of_another_node { refusal_of worked.a_client_of_another_node_document ≡ Some code.Script }
    ensures a_destination_that_is_read_only { refusal_of worked.a_destination_that_is_read_only_document ≡ Some code.Script }
    ensures a_fault_behind_a_group_variable { refusal_of worked.a_fault_behind_a_group_variable_document ≡ Some code.Script }
    ensures a_form_of_cancel_that_is_none { refusal_of worked.a_form_of_cancel_that_is_none_document ≡ Some code.Script }
    ensures a_number_for_a_word { refusal_of worked.a_number_for_a_word_document ≡ Some code.Script }
    ensures a_register_8 { refusal_of worked.a_register_8_document ≡ Some code.Script }
    ensures a_reply_of_a_timer { refusal_of worked.a_reply_of_a_timer_document ≡ Some code.Script }
    ensures a_skip_beyond_the_end { refusal_of worked.a_skip_beyond_the_end_document ≡ Some code.Script }
    ensures a_skip_by_0 { refusal_of worked.a_skip_by_0_document ≡ Some code.Script }
    ensures a_skip_by_a_register { refusal_of worked.a_skip_by_a_register_document ≡ Some code.Script }
    ensures a_skip_to_the_end { transcript_of worked.a_skip_to_the_end_document ≡ Some worked.a_skip_to_the_end_transcript }
    ensures a_topic_that_is_not_there { refusal_of worked.a_topic_that_is_not_there_document ≡ Some code.Script }
    ensures a_word_in_capitals { refusal_of worked.a_word_in_capitals_document ≡ Some code.Script }
    ensures a_yield_of_a_timer { refusal_of worked.a_yield_of_a_timer_document ≡ Some code.Script }
    ensures an_empty_instruction { refusal_of worked.an_empty_instruction_document ≡ Some code.Script }
    ensures an_operation_that_is_none { refusal_of worked.an_operation_that_is_none_document ≡ Some code.Script }
    ensures comparisons { transcript_of worked.comparisons_document ≡ Some worked.comparisons_transcript }
    ensures decide_in_a_goal { refusal_of worked.decide_in_a_goal_document ≡ Some code.Script }
    ensures execute_of_another_node { refusal_of worked.execute_of_another_node_document ≡ Some code.Script }
    ensures pub_to_a_timer { refusal_of worked.pub_to_a_timer_document ≡ Some code.Script }
    ensures pub_to_an_unknown_topic { refusal_of worked.pub_to_an_unknown_topic_document ≡ Some code.Script }
    ensures results_at_the_edges { transcript_of worked.results_at_the_edges_document ≡ Some worked.results_at_the_edges_transcript }
    ensures set_of_in { refusal_of worked.set_of_in_document ≡ Some code.Script }
    ensures skip_beyond_the_end { refusal_of worked.skip_beyond_the_end_document ≡ Some code.Script }
    ensures skips { transcript_of worked.skips_document ≡ Some worked.skips_transcript }
    ensures too_few_items { refusal_of worked.too_few_items_document ≡ Some code.Script }
    ensures too_many_items { refusal_of worked.too_many_items_document ≡ Some code.Script }
    ensures unknown_operation { refusal_of worked.unknown_operation_document ≡ Some code.Script }
    ensures unknown_word { refusal_of worked.unknown_word_document ≡ Some code.Script }
{}
