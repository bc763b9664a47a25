//! Worked cases: limits.
ghost use Rattle.std.specs.Prelude.{◌≡◌, Some};
ghost use Rattle.exec_doc.specs.Refusals.{refusal_of};
ghost use Rattle.exec_doc.specs.declared.refused.Refused.TheVariants as code;
ghost use Rattle.exec_worked.specs.Answer.{transcript_of};
ghost use Rattle.exec_worked.specs.Limits as worked;

/// - `limits_256_groups`: `cases/limits/256_groups.json` has this transcript.
/// - `limits_256_instructions`: `cases/limits/256_instructions.json` has this transcript.
/// - `limits_256_topics`: `cases/limits/256_topics.json` has this transcript.
/// - `limits_257_empty_instructions`: `cases/limits/257_empty_instructions.json` is refused with the code 5.
/// - `limits_257_groups`: `cases/limits/257_groups.json` is refused with the code 5.
/// - `limits_257_instructions`: `cases/limits/257_instructions.json` is refused with the code 5.
/// - `limits_257_topics`: `cases/limits/257_topics.json` is refused with the code 5.
/// - `limits_512_timers`: `cases/limits/512_timers.json` has this transcript.
/// - `limits_513_timers`: `cases/limits/513_timers.json` is refused with the code 5.
/// - `limits_513_timers_of_27_nodes`: `cases/limits/513_timers_of_27_nodes.json` is refused with the code 5.
/// - `limits_64_nodes`: `cases/limits/64_nodes.json` has this transcript.
/// - `limits_64_nodes_of_8_timers`: `cases/limits/64_nodes_of_8_timers.json` has this transcript.
/// - `limits_65_nodes`: `cases/limits/65_nodes.json` is refused with the code 5.
/// - `a_depth_of_0`: `cases/limits/a_depth_of_0.json` is refused with the code 5.
/// - `a_depth_of_1024`: `cases/limits/a_depth_of_1024.json` has this transcript.
/// - `a_depth_of_1025`: `cases/limits/a_depth_of_1025.json` is refused with the code 5.
/// - `a_moment_that_is_too_late`: `cases/limits/a_moment_that_is_too_late.json` is refused with the code 5.
/// - `a_period_of_0`: `cases/limits/a_period_of_0.json` is refused with the code 5.
/// - `a_period_of_0_and_an_unknown_topic`: `cases/limits/a_period_of_0_and_an_unknown_topic.json` is refused with the code 5.
/// - `a_stamp_that_is_too_late`: `cases/limits/a_stamp_that_is_too_late.json` is refused with the code 5.
/// - `a_timeout_that_is_too_long`: `cases/limits/a_timeout_that_is_too_long.json` is refused with the code 5.
/// - `greatest_moment`: `cases/limits/greatest_moment.json` has this transcript.
/// - `greatest_period`: `cases/limits/greatest_period.json` has this transcript.
/// - `one_tick_beyond_the_greatest_period`: `cases/limits/one_tick_beyond_the_greatest_period.json` is refused with the code 5.
/// - `the_greatest_period`: `cases/limits/the_greatest_period.json` has this transcript.
/// - `the_latest_stamp`: `cases/limits/the_latest_stamp.json` has this transcript.
/// - `the_longest_timeout`: `cases/limits/the_longest_timeout.json` has this transcript.
pub fn limits_cases()
    ensures limits_256_groups { transcript_of worked.limits_256_groups_document ≡ Some worked.limits_256_groups_transcript }
    ensures limits_256_instructions { transcript_of worked.limits_256_instructions_document ≡ Some worked.limits_256_instructions_transcript }
    ensures limits_256_topics { transcript_of worked.limits_256_topics_document ≡ Some worked.limits_256_topics_transcript }
    ensures limits_257_empty_instructions { refusal_of worked.limits_257_empty_instructions_document ≡ Some code.Limit }
    ensures limits_257_groups { refusal_of worked.limits_257_groups_document ≡ Some code.Limit }
    ensures limits_257_instructions { refusal_of worked.limits_257_instructions_document ≡ Some code.Limit }
    ensures limits_257_topics { refusal_of worked.limits_257_topics_document ≡ Some code.Limit }
    ensures limits_512_timers { transcript_of worked.limits_512_timers_document ≡ Some worked.limits_512_timers_transcript }
    ensures limits_513_timers { refusal_of worked.limits_513_timers_document ≡ Some code.Limit }
    ensures limits_513_timers_of_27_nodes { refusal_of worked.limits_513_timers_of_27_nodes_document ≡ Some code.Limit }
    ensures limits_64_nodes { transcript_of worked.limits_64_nodes_document ≡ Some worked.limits_64_nodes_transcript }
    ensures limits_64_nodes_of_8_timers { transcript_of worked.limits_64_nodes_of_8_timers_document ≡ Some worked.limits_64_nodes_of_8_timers_transcript }
    ensures limits_65_nodes { refusal_of worked.limits_65_nodes_document ≡ Some code.Limit }
    ensures a_depth_of_0 { refusal_of worked.a_depth_of_0_document ≡ Some code.Limit }
    ensures a_depth_of_1024 { transcript_of worked.a_depth_of_1024_document ≡ Some worked.a_depth_of_1024_transcript }
    ensures a_depth_of_1025 { refusal_of worked.a_depth_of_1025_document ≡ Some code.Limit }
    ensures a_moment_that_is_too_late { refusal_of worked.a_moment_that_is_too_late_document ≡ Some code.Limit }
    ensures a_period_of_0 { refusal_of worked.a_period_of_0_document ≡ Some code.Limit }
    ensures a_period_of_0_and_an_unknown_topic { refusal_of worked.a_period_of_0_and_an_unknown_topic_document ≡ Some code.Limit }
    ensures a_stamp_that_is_too_late { refusal_of worked.a_stamp_that_is_too_late_document ≡ Some code.Limit }
    ensures a_timeout_that_is_too_long { refusal_of worked.a_timeout_that_is_too_long_document ≡ Some code.Limit }
    ensures greatest_moment { transcript_of worked.greatest_moment_document ≡ Some worked.greatest_moment_transcript }
    ensures greatest_period { transcript_of worked.greatest_period_document ≡ Some worked.greatest_period_transcript }
    ensures one_tick_beyond_the_greatest_period { refusal_of worked.one_tick_beyond_the_greatest_period_document ≡ Some code.Limit }
    ensures the_greatest_period { transcript_of worked.the_greatest_period_document ≡ Some worked.the_greatest_period_transcript }
    ensures the_latest_stamp { transcript_of worked.the_latest_stamp_document ≡ Some worked.the_latest_stamp_transcript }
    ensures the_longest_timeout { transcript_of worked.the_longest_timeout_document ≡ Some worked.the_longest_timeout_transcript }
{}
