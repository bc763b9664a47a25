//! Worked cases: shape.
ghost use Rattle.std.specs.Prelude.{◌≡◌, Some};
ghost use Rattle.exec_doc.specs.Refusals.{refusal_of};
ghost use Rattle.exec_doc.specs.declared.refused.Refused.TheVariants as code;
ghost use Rattle.exec_worked.specs.Answer.{transcript_of};
ghost use Rattle.exec_worked.specs.Shape as worked;

/// - `a_fraction_in_an_instruction`: `cases/shape/a_fraction_in_an_instruction.json` is refused with the code 2.
/// - `a_goal_request_without_an_action`: `cases/shape/a_goal_request_without_an_action.json` is refused with the code 2.
/// - `a_kind_of_group_that_is_none`: `cases/shape/a_kind_of_group_that_is_none.json` is refused with the code 2.
/// - `a_list`: `cases/shape/a_list.json` is refused with the code 2.
/// - `a_message_without_a_value`: `cases/shape/a_message_without_a_value.json` is refused with the code 2.
/// - `a_moment_below_0`: `cases/shape/a_moment_below_0.json` is refused with the code 2.
/// - `a_moment_beyond_64_bits`: `cases/shape/a_moment_beyond_64_bits.json` is refused with the code 2.
/// - `a_moment_of_minus_0`: `cases/shape/a_moment_of_minus_0.json` is refused with the code 2.
/// - `a_moment_of_null_and_version_3`: `cases/shape/a_moment_of_null_and_version_3.json` is refused with the code 2.
/// - `a_node_without_a_name`: `cases/shape/a_node_without_a_name.json` is refused with the code 2.
/// - `a_timer_without_a_period`: `cases/shape/a_timer_without_a_period.json` is refused with the code 2.
/// - `a_topic_that_is_a_number`: `cases/shape/a_topic_that_is_a_number.json` is refused with the code 2.
/// - `a_value_beyond_64_bits`: `cases/shape/a_value_beyond_64_bits.json` is refused with the code 2.
/// - `a_version_in_quotes`: `cases/shape/a_version_in_quotes.json` is refused with the code 2.
/// - `a_version_with_a_fraction`: `cases/shape/a_version_with_a_fraction.json` is refused with the code 2.
/// - `an_entry_of_a_topic_and_a_goal_of_null`: `cases/shape/an_entry_of_a_topic_and_a_goal_of_null.json` is refused with the code 2.
/// - `an_entry_of_a_topic_of_null`: `cases/shape/an_entry_of_a_topic_of_null.json` is refused with the code 2.
/// - `an_entry_of_two_forms`: `cases/shape/an_entry_of_two_forms.json` is refused with the code 2.
/// - `an_entry_that_feeds_nothing`: `cases/shape/an_entry_that_feeds_nothing.json` is refused with the code 2.
/// - `an_instruction_that_is_a_text`: `cases/shape/an_instruction_that_is_a_text.json` is refused with the code 2.
/// - `boolean_in_an_instruction`: `cases/shape/boolean_in_an_instruction.json` is refused with the code 2.
/// - `empty_lists_and_unknown_fields`: `cases/shape/empty_lists_and_unknown_fields.json` has this transcript.
/// - `feed_entry_as_number`: `cases/shape/feed_entry_as_number.json` is refused with the code 2.
/// - `feed_null`: `cases/shape/feed_null.json` is refused with the code 2.
/// - `group_of_another_kind`: `cases/shape/group_of_another_kind.json` is refused with the code 2.
/// - `groups_null`: `cases/shape/groups_null.json` is refused with the code 2.
/// - `ignored_fields`: `cases/shape/ignored_fields.json` has this transcript.
/// - `instruction_as_number`: `cases/shape/instruction_as_number.json` is refused with the code 2.
/// - `instruction_null`: `cases/shape/instruction_null.json` is refused with the code 2.
/// - `minus_0_as_the_version`: `cases/shape/minus_0_as_the_version.json` is refused with the code 2.
/// - `moment_as_text`: `cases/shape/moment_as_text.json` is refused with the code 2.
/// - `moment_null`: `cases/shape/moment_null.json` is refused with the code 2.
/// - `moment_with_fraction`: `cases/shape/moment_with_fraction.json` is refused with the code 2.
/// - `moments_as_object`: `cases/shape/moments_as_object.json` is refused with the code 2.
/// - `moments_null`: `cases/shape/moments_null.json` is refused with the code 2.
/// - `node_as_number`: `cases/shape/node_as_number.json` is refused with the code 2.
/// - `node_name_as_number`: `cases/shape/node_name_as_number.json` is refused with the code 2.
/// - `node_name_null`: `cases/shape/node_name_null.json` is refused with the code 2.
/// - `nodes_as_object`: `cases/shape/nodes_as_object.json` is refused with the code 2.
/// - `nodes_null`: `cases/shape/nodes_null.json` is refused with the code 2.
/// - `null`: `cases/shape/null.json` is refused with the code 2.
/// - `null_beside_a_topic`: `cases/shape/null_beside_a_topic.json` is refused with the code 2.
/// - `null_for_a_group`: `cases/shape/null_for_a_group.json` is refused with the code 2.
/// - `null_for_a_script`: `cases/shape/null_for_a_script.json` is refused with the code 2.
/// - `null_for_topics`: `cases/shape/null_for_topics.json` is refused with the code 2.
/// - `null_in_an_instruction`: `cases/shape/null_in_an_instruction.json` is refused with the code 2.
/// - `number`: `cases/shape/number.json` is refused with the code 2.
/// - `one_of_each_object`: `cases/shape/one_of_each_object.json` has this transcript.
/// - `period_as_text`: `cases/shape/period_as_text.json` is refused with the code 2.
/// - `period_below_0`: `cases/shape/period_below_0.json` is refused with the code 2.
/// - `period_beyond_64_bits`: `cases/shape/period_beyond_64_bits.json` is refused with the code 2.
/// - `period_null`: `cases/shape/period_null.json` is refused with the code 2.
/// - `period_with_fraction`: `cases/shape/period_with_fraction.json` is refused with the code 2.
/// - `script_as_object`: `cases/shape/script_as_object.json` is refused with the code 2.
/// - `text`: `cases/shape/text.json` is refused with the code 2.
/// - `timer_as_number`: `cases/shape/timer_as_number.json` is refused with the code 2.
/// - `timer_without_name`: `cases/shape/timer_without_name.json` is refused with the code 2.
/// - `timer_without_name_and_period`: `cases/shape/timer_without_name_and_period.json` is refused with the code 2.
/// - `timers_as_object`: `cases/shape/timers_as_object.json` is refused with the code 2.
/// - `timers_null`: `cases/shape/timers_null.json` is refused with the code 2.
/// - `unknown_fields_of_all_objects`: `cases/shape/unknown_fields_of_all_objects.json` has this transcript.
/// - `version_as_list`: `cases/shape/version_as_list.json` is refused with the code 2.
/// - `version_below_0`: `cases/shape/version_below_0.json` is refused with the code 2.
/// - `version_null`: `cases/shape/version_null.json` is refused with the code 2.
/// - `without_version`: `cases/shape/without_version.json` is refused with the code 2.
pub fn shape_cases()
    ensures a_fraction_in_an_instruction { refusal_of worked.a_fraction_in_an_instruction_document ≡ Some code.Shape }
    ensures a_goal_request_without_an_action { refusal_of worked.a_goal_request_without_an_action_document ≡ Some code.Shape }
    ensures a_kind_of_group_that_is_none { refusal_of worked.a_kind_of_group_that_is_none_document ≡ Some code.Shape }
    ensures a_list { refusal_of worked.a_list_document ≡ Some code.Shape }
    ensures a_message_without_a_value { refusal_of worked.a_message_without_a_value_document ≡ Some code.Shape }
    ensures a_moment_below_0 { refusal_of worked.a_moment_below_0_document ≡ Some code.Shape }
    ensures a_moment_beyond_64_bits { refusal_of worked.a_moment_beyond_64_bits_document ≡ Some code.Shape }
    ensures a_moment_of_minus_0 { refusal_of worked.a_moment_of_minus_0_document ≡ Some code.Shape }
    ensures a_moment_of_null_and_version_3 { refusal_of worked.a_moment_of_null_and_version_3_document ≡ Some code.Shape }
    ensures a_node_without_a_name { refusal_of worked.a_node_without_a_name_document ≡ Some code.Shape }
    ensures a_timer_without_a_period { refusal_of worked.a_timer_without_a_period_document ≡ Some code.Shape }
    ensures a_topic_that_is_a_number { refusal_of worked.a_topic_that_is_a_number_document ≡ Some code.Shape }
    ensures a_value_beyond_64_bits { refusal_of worked.a_value_beyond_64_bits_document ≡ Some code.Shape }
    ensures a_version_in_quotes { refusal_of worked.a_version_in_quotes_document ≡ Some code.Shape }
    ensures a_version_with_a_fraction { refusal_of worked.a_version_with_a_fraction_document ≡ Some code.Shape }
    ensures an_entry_of_a_topic_and_a_goal_of_null { refusal_of worked.an_entry_of_a_topic_and_a_goal_of_null_document ≡ Some code.Shape }
    ensures an_entry_of_a_topic_of_null { refusal_of worked.an_entry_of_a_topic_of_null_document ≡ Some code.Shape }
    ensures an_entry_of_two_forms { refusal_of worked.an_entry_of_two_forms_document ≡ Some code.Shape }
    ensures an_entry_that_feeds_nothing { refusal_of worked.an_entry_that_feeds_nothing_document ≡ Some code.Shape }
    ensures an_instruction_that_is_a_text { refusal_of worked.an_instruction_that_is_a_text_document ≡ Some code.Shape }
    ensures boolean_in_an_instruction { refusal_of worked.boolean_in_an_instruction_document ≡ Some code.Shape }
    ensures empty_lists_and_unknown_fields { transcript_of worked.empty_lists_and_unknown_fields_document ≡ Some worked.empty_lists_and_unknown_fields_transcript }
    ensures feed_entry_as_number { refusal_of worked.feed_entry_as_number_document ≡ Some code.Shape }
    ensures feed_null { refusal_of worked.feed_null_document ≡ Some code.Shape }
    ensures group_of_another_kind { refusal_of worked.group_of_another_kind_document ≡ Some code.Shape }
    ensures groups_null { refusal_of worked.groups_null_document ≡ Some code.Shape }
    ensures ignored_fields { transcript_of worked.ignored_fields_document ≡ Some worked.ignored_fields_transcript }
    ensures instruction_as_number { refusal_of worked.instruction_as_number_document ≡ Some code.Shape }
    ensures instruction_null { refusal_of worked.instruction_null_document ≡ Some code.Shape }
    ensures minus_0_as_the_version { refusal_of worked.minus_0_as_the_version_document ≡ Some code.Shape }
    ensures moment_as_text { refusal_of worked.moment_as_text_document ≡ Some code.Shape }
    ensures moment_null { refusal_of worked.moment_null_document ≡ Some code.Shape }
    ensures moment_with_fraction { refusal_of worked.moment_with_fraction_document ≡ Some code.Shape }
    ensures moments_as_object { refusal_of worked.moments_as_object_document ≡ Some code.Shape }
    ensures moments_null { refusal_of worked.moments_null_document ≡ Some code.Shape }
    ensures node_as_number { refusal_of worked.node_as_number_document ≡ Some code.Shape }
    ensures node_name_as_number { refusal_of worked.node_name_as_number_document ≡ Some code.Shape }
    ensures node_name_null { refusal_of worked.node_name_null_document ≡ Some code.Shape }
    ensures nodes_as_object { refusal_of worked.nodes_as_object_document ≡ Some code.Shape }
    ensures nodes_null { refusal_of worked.nodes_null_document ≡ Some code.Shape }
    ensures null { refusal_of worked.null_document ≡ Some code.Shape }
    ensures null_beside_a_topic { refusal_of worked.null_beside_a_topic_document ≡ Some code.Shape }
    ensures null_for_a_group { refusal_of worked.null_for_a_group_document ≡ Some code.Shape }
    ensures null_for_a_script { refusal_of worked.null_for_a_script_document ≡ Some code.Shape }
    ensures null_for_topics { refusal_of worked.null_for_topics_document ≡ Some code.Shape }
    ensures null_in_an_instruction { refusal_of worked.null_in_an_instruction_document ≡ Some code.Shape }
    ensures number { refusal_of worked.number_document ≡ Some code.Shape }
    ensures one_of_each_object { transcript_of worked.one_of_each_object_document ≡ Some worked.one_of_each_object_transcript }
    ensures period_as_text { refusal_of worked.period_as_text_document ≡ Some code.Shape }
    ensures period_below_0 { refusal_of worked.period_below_0_document ≡ Some code.Shape }
    ensures period_beyond_64_bits { refusal_of worked.period_beyond_64_bits_document ≡ Some code.Shape }
    ensures period_null { refusal_of worked.period_null_document ≡ Some code.Shape }
    ensures period_with_fraction { refusal_of worked.period_with_fraction_document ≡ Some code.Shape }
    ensures script_as_object { refusal_of worked.script_as_object_document ≡ Some code.Shape }
    ensures text { refusal_of worked.text_document ≡ Some code.Shape }
    ensures timer_as_number { refusal_of worked.timer_as_number_document ≡ Some code.Shape }
    ensures timer_without_name { refusal_of worked.timer_without_name_document ≡ Some code.Shape }
    ensures timer_without_name_and_period { refusal_of worked.timer_without_name_and_period_document ≡ Some code.Shape }
    ensures timers_as_object { refusal_of worked.timers_as_object_document ≡ Some code.Shape }
    ensures timers_null { refusal_of worked.timers_null_document ≡ Some code.Shape }
    ensures unknown_fields_of_all_objects { transcript_of worked.unknown_fields_of_all_objects_document ≡ Some worked.unknown_fields_of_all_objects_transcript }
    ensures version_as_list { refusal_of worked.version_as_list_document ≡ Some code.Shape }
    ensures version_below_0 { refusal_of worked.version_below_0_document ≡ Some code.Shape }
    ensures version_null { refusal_of worked.version_null_document ≡ Some code.Shape }
    ensures without_version { refusal_of worked.without_version_document ≡ Some code.Shape }
{}
