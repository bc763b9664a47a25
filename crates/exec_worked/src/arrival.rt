//! Worked cases: arrival.
ghost use Rattle.std.specs.Prelude.{◌≡◌, Some};
ghost use Rattle.exec_worked.specs.Answer.{transcript_of};
ghost use Rattle.exec_worked.specs.Arrival as worked;

/// - `before_its_version`: `cases/arrival/before_its_version.json` has this transcript.
/// - `in_version_1`: `cases/arrival/in_version_1.json` has this transcript.
/// - `of_a_cancel_after_a_poll_that_waits`: `cases/arrival/of_a_cancel_after_a_poll_that_waits.json` has this transcript.
/// - `of_a_cancel_after_a_success`: `cases/arrival/of_a_cancel_after_a_success.json` has this transcript.
/// - `of_a_cancel_by_a_stamp_after_a_success`: `cases/arrival/of_a_cancel_by_a_stamp_after_a_success.json` has this transcript.
/// - `of_a_cancel_of_another_goal_after_a_success`: `cases/arrival/of_a_cancel_of_another_goal_after_a_success.json` has this transcript.
/// - `of_a_cancel_of_two_goals_of_which_one_ends`: `cases/arrival/of_a_cancel_of_two_goals_of_which_one_ends.json` has this transcript.
/// - `of_a_cancel_that_is_refused_after_a_success`: `cases/arrival/of_a_cancel_that_is_refused_after_a_success.json` has this transcript.
/// - `of_a_cancel_that_waited_before_a_poll`: `cases/arrival/of_a_cancel_that_waited_before_a_poll.json` has this transcript.
/// - `of_a_canceled_goal_before_a_message`: `cases/arrival/of_a_canceled_goal_before_a_message.json` has this transcript.
/// - `of_a_deferred_goal_before_a_message`: `cases/arrival/of_a_deferred_goal_before_a_message.json` has this transcript.
/// - `of_a_message_at_two_nodes`: `cases/arrival/of_a_message_at_two_nodes.json` has this transcript.
/// - `of_a_message_that_displaces_another`: `cases/arrival/of_a_message_that_displaces_another.json` has this transcript.
/// - `of_a_poll_after_a_message`: `cases/arrival/of_a_poll_after_a_message.json` has this transcript.
/// - `of_all_kinds`: `cases/arrival/of_all_kinds.json` has this transcript.
/// - `of_feedback_before_the_next_poll`: `cases/arrival/of_feedback_before_the_next_poll.json` has this transcript.
/// - `of_messages_that_waited`: `cases/arrival/of_messages_that_waited.json` has this transcript.
/// - `of_two_messages`: `cases/arrival/of_two_messages.json` has this transcript.
pub fn arrival_cases()
    ensures before_its_version { transcript_of worked.before_its_version_document ≡ Some worked.before_its_version_transcript }
    ensures in_version_1 { transcript_of worked.in_version_1_document ≡ Some worked.in_version_1_transcript }
    ensures of_a_cancel_after_a_poll_that_waits { transcript_of worked.of_a_cancel_after_a_poll_that_waits_document ≡ Some worked.of_a_cancel_after_a_poll_that_waits_transcript }
    ensures of_a_cancel_after_a_success { transcript_of worked.of_a_cancel_after_a_success_document ≡ Some worked.of_a_cancel_after_a_success_transcript }
    ensures of_a_cancel_by_a_stamp_after_a_success { transcript_of worked.of_a_cancel_by_a_stamp_after_a_success_document ≡ Some worked.of_a_cancel_by_a_stamp_after_a_success_transcript }
    ensures of_a_cancel_of_another_goal_after_a_success { transcript_of worked.of_a_cancel_of_another_goal_after_a_success_document ≡ Some worked.of_a_cancel_of_another_goal_after_a_success_transcript }
    ensures of_a_cancel_of_two_goals_of_which_one_ends { transcript_of worked.of_a_cancel_of_two_goals_of_which_one_ends_document ≡ Some worked.of_a_cancel_of_two_goals_of_which_one_ends_transcript }
    ensures of_a_cancel_that_is_refused_after_a_success { transcript_of worked.of_a_cancel_that_is_refused_after_a_success_document ≡ Some worked.of_a_cancel_that_is_refused_after_a_success_transcript }
    ensures of_a_cancel_that_waited_before_a_poll { transcript_of worked.of_a_cancel_that_waited_before_a_poll_document ≡ Some worked.of_a_cancel_that_waited_before_a_poll_transcript }
    ensures of_a_canceled_goal_before_a_message { transcript_of worked.of_a_canceled_goal_before_a_message_document ≡ Some worked.of_a_canceled_goal_before_a_message_transcript }
    ensures of_a_deferred_goal_before_a_message { transcript_of worked.of_a_deferred_goal_before_a_message_document ≡ Some worked.of_a_deferred_goal_before_a_message_transcript }
    ensures of_a_message_at_two_nodes { transcript_of worked.of_a_message_at_two_nodes_document ≡ Some worked.of_a_message_at_two_nodes_transcript }
    ensures of_a_message_that_displaces_another { transcript_of worked.of_a_message_that_displaces_another_document ≡ Some worked.of_a_message_that_displaces_another_transcript }
    ensures of_a_poll_after_a_message { transcript_of worked.of_a_poll_after_a_message_document ≡ Some worked.of_a_poll_after_a_message_transcript }
    ensures of_all_kinds { transcript_of worked.of_all_kinds_document ≡ Some worked.of_all_kinds_transcript }
    ensures of_feedback_before_the_next_poll { transcript_of worked.of_feedback_before_the_next_poll_document ≡ Some worked.of_feedback_before_the_next_poll_transcript }
    ensures of_messages_that_waited { transcript_of worked.of_messages_that_waited_document ≡ Some worked.of_messages_that_waited_transcript }
    ensures of_two_messages { transcript_of worked.of_two_messages_document ≡ Some worked.of_two_messages_transcript }
{}
