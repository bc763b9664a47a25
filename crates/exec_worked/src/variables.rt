//! Worked cases: variables.
ghost use Rattle.std.specs.Prelude.{◌≡◌, Some};
ghost use Rattle.exec_doc.specs.Refusals.{refusal_of};
ghost use Rattle.exec_doc.specs.declared.refused.Refused.TheVariants as code;
ghost use Rattle.exec_worked.specs.Answer.{transcript_of};
ghost use Rattle.exec_worked.specs.Variables as worked;

/// - `a_topic_of_that_name`: `cases/variables/a_topic_of_that_name.json` has this transcript.
/// - `and_moments_that_go_back`: `cases/variables/and_moments_that_go_back.json` is refused with the code 7.
/// - `in_on_goal`: `cases/variables/in_on_goal.json` is refused with the code 7.
/// - `of_two_groups`: `cases/variables/of_two_groups.json` has this transcript.
/// - `of_two_nodes`: `cases/variables/of_two_nodes.json` has this transcript.
/// - `read_in_a_reentrant_group`: `cases/variables/read_in_a_reentrant_group.json` is refused with the code 7.
/// - `written_in_a_reentrant_group`: `cases/variables/written_in_a_reentrant_group.json` is refused with the code 7.
pub fn variables_cases()
    ensures a_topic_of_that_name { transcript_of worked.a_topic_of_that_name_document ≡ Some worked.a_topic_of_that_name_transcript }
    ensures and_moments_that_go_back { refusal_of worked.and_moments_that_go_back_document ≡ Some code.GroupVariable }
    ensures in_on_goal { refusal_of worked.in_on_goal_document ≡ Some code.GroupVariable }
    ensures of_two_groups { transcript_of worked.of_two_groups_document ≡ Some worked.of_two_groups_transcript }
    ensures of_two_nodes { transcript_of worked.of_two_nodes_document ≡ Some worked.of_two_nodes_transcript }
    ensures read_in_a_reentrant_group { refusal_of worked.read_in_a_reentrant_group_document ≡ Some code.GroupVariable }
    ensures written_in_a_reentrant_group { refusal_of worked.written_in_a_reentrant_group_document ≡ Some code.GroupVariable }
{}
