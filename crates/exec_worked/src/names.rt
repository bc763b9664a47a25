//! Worked cases: names.
ghost use Rattle.std.specs.Prelude.{◌≡◌, Some};
ghost use Rattle.exec_doc.specs.Refusals.{refusal_of};
ghost use Rattle.exec_doc.specs.declared.refused.Refused.TheVariants as code;
ghost use Rattle.exec_worked.specs.Answer.{transcript_of};
ghost use Rattle.exec_worked.specs.Names as worked;

/// - `a_fed_action_that_is_a_topic`: `cases/names/a_fed_action_that_is_a_topic.json` is refused with the code 4.
/// - `a_fed_topic_that_nobody_declares`: `cases/names/a_fed_topic_that_nobody_declares.json` is refused with the code 4.
/// - `a_group_of_another_node`: `cases/names/a_group_of_another_node.json` is refused with the code 4.
/// - `a_group_of_each_of_two_nodes`: `cases/names/a_group_of_each_of_two_nodes.json` has this transcript.
/// - `a_service_of_a_later_node`: `cases/names/a_service_of_a_later_node.json` has this transcript.
/// - `a_topic_and_a_timer`: `cases/names/a_topic_and_a_timer.json` is refused with the code 4.
/// - `a_topic_that_nobody_declares`: `cases/names/a_topic_that_nobody_declares.json` is refused with the code 4.
/// - `a_topic_twice`: `cases/names/a_topic_twice.json` is refused with the code 4.
/// - `an_action_as_a_service`: `cases/names/an_action_as_a_service.json` is refused with the code 4.
/// - `beyond_ascii`: `cases/names/beyond_ascii.json` is refused with the code 4.
/// - `empty`: `cases/names/empty.json` is refused with the code 4.
/// - `empty_and_a_moment_that_is_too_late`: `cases/names/empty_and_a_moment_that_is_too_late.json` is refused with the code 4.
/// - `far_beyond_the_limit_and_one_twice`: `cases/names/far_beyond_the_limit_and_one_twice.json` is refused with the code 4.
/// - `node_named_as_its_timer`: `cases/names/node_named_as_its_timer.json` has this transcript.
/// - `of_64_characters`: `cases/names/of_64_characters.json` has this transcript.
/// - `of_65_characters`: `cases/names/of_65_characters.json` is refused with the code 4.
/// - `of_a_topic_a_node_and_a_group_alike`: `cases/names/of_a_topic_a_node_and_a_group_alike.json` has this transcript.
/// - `of_two_nodes`: `cases/names/of_two_nodes.json` is refused with the code 4.
/// - `of_two_timers`: `cases/names/of_two_timers.json` is refused with the code 4.
/// - `that_are_empty`: `cases/names/that_are_empty.json` is refused with the code 4.
/// - `two_groups_of_a_node`: `cases/names/two_groups_of_a_node.json` is refused with the code 4.
/// - `two_timers_in_two_nodes`: `cases/names/two_timers_in_two_nodes.json` is refused with the code 4.
/// - `unknown_group`: `cases/names/unknown_group.json` is refused with the code 4.
/// - `with_a_hyphen`: `cases/names/with_a_hyphen.json` is refused with the code 4.
/// - `with_a_line_feed_at_the_end`: `cases/names/with_a_line_feed_at_the_end.json` is refused with the code 4.
/// - `with_every_sign`: `cases/names/with_every_sign.json` has this transcript.
/// - `with_space`: `cases/names/with_space.json` is refused with the code 4.
pub fn names_cases()
    ensures a_fed_action_that_is_a_topic { refusal_of worked.a_fed_action_that_is_a_topic_document ≡ Some code.Name }
    ensures a_fed_topic_that_nobody_declares { refusal_of worked.a_fed_topic_that_nobody_declares_document ≡ Some code.Name }
    ensures a_group_of_another_node { refusal_of worked.a_group_of_another_node_document ≡ Some code.Name }
    ensures a_group_of_each_of_two_nodes { transcript_of worked.a_group_of_each_of_two_nodes_document ≡ Some worked.a_group_of_each_of_two_nodes_transcript }
    ensures a_service_of_a_later_node { transcript_of worked.a_service_of_a_later_node_document ≡ Some worked.a_service_of_a_later_node_transcript }
    ensures a_topic_and_a_timer { refusal_of worked.a_topic_and_a_timer_document ≡ Some code.Name }
    ensures a_topic_that_nobody_declares { refusal_of worked.a_topic_that_nobody_declares_document ≡ Some code.Name }
    ensures a_topic_twice { refusal_of worked.a_topic_twice_document ≡ Some code.Name }
    ensures an_action_as_a_service { refusal_of worked.an_action_as_a_service_document ≡ Some code.Name }
    ensures beyond_ascii { refusal_of worked.beyond_ascii_document ≡ Some code.Name }
    ensures empty { refusal_of worked.empty_document ≡ Some code.Name }
    ensures empty_and_a_moment_that_is_too_late { refusal_of worked.empty_and_a_moment_that_is_too_late_document ≡ Some code.Name }
    ensures far_beyond_the_limit_and_one_twice { refusal_of worked.far_beyond_the_limit_and_one_twice_document ≡ Some code.Name }
    ensures node_named_as_its_timer { transcript_of worked.node_named_as_its_timer_document ≡ Some worked.node_named_as_its_timer_transcript }
    ensures of_64_characters { transcript_of worked.of_64_characters_document ≡ Some worked.of_64_characters_transcript }
    ensures of_65_characters { refusal_of worked.of_65_characters_document ≡ Some code.Name }
    ensures of_a_topic_a_node_and_a_group_alike { transcript_of worked.of_a_topic_a_node_and_a_group_alike_document ≡ Some worked.of_a_topic_a_node_and_a_group_alike_transcript }
    ensures of_two_nodes { refusal_of worked.of_two_nodes_document ≡ Some code.Name }
    ensures of_two_timers { refusal_of worked.of_two_timers_document ≡ Some code.Name }
    ensures that_are_empty { refusal_of worked.that_are_empty_document ≡ Some code.Name }
    ensures two_groups_of_a_node { refusal_of worked.two_groups_of_a_node_document ≡ Some code.Name }
    ensures two_timers_in_two_nodes { refusal_of worked.two_timers_in_two_nodes_document ≡ Some code.Name }
    ensures unknown_group { refusal_of worked.unknown_group_document ≡ Some code.Name }
    ensures with_a_hyphen { refusal_of worked.with_a_hyphen_document ≡ Some code.Name }
    ensures with_a_line_feed_at_the_end { refusal_of worked.with_a_line_feed_at_the_end_document ≡ Some code.Name }
    ensures with_every_sign { transcript_of worked.with_every_sign_document ≡ Some worked.with_every_sign_transcript }
    ensures with_space { refusal_of worked.with_space_document ≡ Some code.Name }
{}
