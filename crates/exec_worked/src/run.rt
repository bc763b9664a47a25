//! Worked cases: run.
ghost use Rattle.std.specs.Prelude.{◌≡◌, Some};
ghost use Rattle.exec_worked.specs.Answer.{transcript_of};
ghost use Rattle.exec_worked.specs.Run as worked;

/// - `a_call_and_its_reply`: `cases/run/a_call_and_its_reply.json` has this transcript.
/// - `a_message_is_taken_a_round_later`: `cases/run/a_message_is_taken_a_round_later.json` has this transcript.
/// - `a_service_without_a_script`: `cases/run/a_service_without_a_script.json` has this transcript.
/// - `action_client`: `cases/run/action_client.json` has this transcript.
/// - `cancel_by_identifier_or_stamp`: `cases/run/cancel_by_identifier_or_stamp.json` has this transcript.
/// - `cancel_handler_that_reads_the_state`: `cases/run/cancel_handler_that_reads_the_state.json` has this transcript.
/// - `cancel_of_a_goal_that_ended`: `cases/run/cancel_of_a_goal_that_ended.json` has this transcript.
/// - `cancel_of_a_goal_that_is_canceling`: `cases/run/cancel_of_a_goal_that_is_canceling.json` has this transcript.
/// - `cancel_of_all_goals`: `cases/run/cancel_of_all_goals.json` has this transcript.
/// - `cancel_of_an_unknown_goal`: `cases/run/cancel_of_an_unknown_goal.json` has this transcript.
/// - `cancel_requests_beyond_a_depth_of_1`: `cases/run/cancel_requests_beyond_a_depth_of_1.json` has this transcript.
/// - `cancel_requests_of_each_form`: `cases/run/cancel_requests_of_each_form.json` has this transcript.
/// - `cancel_that_is_rejected`: `cases/run/cancel_that_is_rejected.json` has this transcript.
/// - `cancel_that_meets_a_success`: `cases/run/cancel_that_meets_a_success.json` has this transcript.
/// - `cancel_up_to_a_stamp`: `cases/run/cancel_up_to_a_stamp.json` has this transcript.
/// - `cancel_up_to_a_stamp_that_is_rejected`: `cases/run/cancel_up_to_a_stamp_that_is_rejected.json` has this transcript.
/// - `canceled_that_nobody_asked_for`: `cases/run/canceled_that_nobody_asked_for.json` has this transcript.
/// - `client`: `cases/run/client.json` has this transcript.
/// - `client_that_cancels_its_goals`: `cases/run/client_that_cancels_its_goals.json` has this transcript.
/// - `deferred_goal_that_is_executed`: `cases/run/deferred_goal_that_is_executed.json` has this transcript.
/// - `eleven_messages_without_a_depth`: `cases/run/eleven_messages_without_a_depth.json` has this transcript.
/// - `expiry_before_what_is_fed`: `cases/run/expiry_before_what_is_fed.json` has this transcript.
/// - `feedback_and_a_result`: `cases/run/feedback_and_a_result.json` has this transcript.
/// - `feedback_beyond_a_depth_of_1`: `cases/run/feedback_beyond_a_depth_of_1.json` has this transcript.
/// - `four_groups_of_two_timers`: `cases/run/four_groups_of_two_timers.json` has this transcript.
/// - `goal_requests_beyond_a_depth_of_1`: `cases/run/goal_requests_beyond_a_depth_of_1.json` has this transcript.
/// - `goal_that_ends_as_canceled`: `cases/run/goal_that_ends_as_canceled.json` has this transcript.
/// - `goal_that_its_handler_rejects`: `cases/run/goal_that_its_handler_rejects.json` has this transcript.
/// - `goals_that_expire_together`: `cases/run/goals_that_expire_together.json` has this transcript.
/// - `groups_of_both_kinds`: `cases/run/groups_of_both_kinds.json` has this transcript.
/// - `identifier_that_is_accepted_anew`: `cases/run/identifier_that_is_accepted_anew.json` has this transcript.
/// - `identifier_that_is_held`: `cases/run/identifier_that_is_held.json` has this transcript.
/// - `lanes_of_three_groups`: `cases/run/lanes_of_three_groups.json` has this transcript.
/// - `many_goals_that_expire_together`: `cases/run/many_goals_that_expire_together.json` has this transcript.
/// - `result_that_expires_before_it_is_asked_for`: `cases/run/result_that_expires_before_it_is_asked_for.json` has this transcript.
/// - `result_that_is_told_before_it_expires`: `cases/run/result_that_is_told_before_it_expires.json` has this transcript.
/// - `results_beyond_a_depth_of_1`: `cases/run/results_beyond_a_depth_of_1.json` has this transcript.
/// - `server`: `cases/run/server.json` has this transcript.
/// - `service`: `cases/run/service.json` has this transcript.
/// - `sixty_five_polls_in_a_round`: `cases/run/sixty_five_polls_in_a_round.json` has this transcript.
/// - `subscription`: `cases/run/subscription.json` has this transcript.
/// - `three_exclusive_groups`: `cases/run/three_exclusive_groups.json` has this transcript.
/// - `three_messages_into_a_depth_of_2`: `cases/run/three_messages_into_a_depth_of_2.json` has this transcript.
/// - `timers_at_their_times`: `cases/run/timers_at_their_times.json` has this transcript.
/// - `topic`: `cases/run/topic.json` has this transcript.
/// - `two_calls_into_a_depth_of_1`: `cases/run/two_calls_into_a_depth_of_1.json` has this transcript.
/// - `two_clients_of_a_server`: `cases/run/two_clients_of_a_server.json` has this transcript.
/// - `two_exclusive_groups`: `cases/run/two_exclusive_groups.json` has this transcript.
/// - `wait_that_a_cancel_ends`: `cases/run/wait_that_a_cancel_ends.json` has this transcript.
/// - `yield_at_moments_alike`: `cases/run/yield_at_moments_alike.json` has this transcript.
pub fn run_cases()
    ensures a_call_and_its_reply { transcript_of worked.a_call_and_its_reply_document ≡ Some worked.a_call_and_its_reply_transcript }
    ensures a_message_is_taken_a_round_later { transcript_of worked.a_message_is_taken_a_round_later_document ≡ Some worked.a_message_is_taken_a_round_later_transcript }
    ensures a_service_without_a_script { transcript_of worked.a_service_without_a_script_document ≡ Some worked.a_service_without_a_script_transcript }
    ensures action_client { transcript_of worked.action_client_document ≡ Some worked.action_client_transcript }
    ensures cancel_by_identifier_or_stamp { transcript_of worked.cancel_by_identifier_or_stamp_document ≡ Some worked.cancel_by_identifier_or_stamp_transcript }
    ensures cancel_handler_that_reads_the_state { transcript_of worked.cancel_handler_that_reads_the_state_document ≡ Some worked.cancel_handler_that_reads_the_state_transcript }
    ensures cancel_of_a_goal_that_ended { transcript_of worked.cancel_of_a_goal_that_ended_document ≡ Some worked.cancel_of_a_goal_that_ended_transcript }
    ensures cancel_of_a_goal_that_is_canceling { transcript_of worked.cancel_of_a_goal_that_is_canceling_document ≡ Some worked.cancel_of_a_goal_that_is_canceling_transcript }
    ensures cancel_of_all_goals { transcript_of worked.cancel_of_all_goals_document ≡ Some worked.cancel_of_all_goals_transcript }
    ensures cancel_of_an_unknown_goal { transcript_of worked.cancel_of_an_unknown_goal_document ≡ Some worked.cancel_of_an_unknown_goal_transcript }
    ensures cancel_requests_beyond_a_depth_of_1 { transcript_of worked.cancel_requests_beyond_a_depth_of_1_document ≡ Some worked.cancel_requests_beyond_a_depth_of_1_transcript }
    ensures cancel_requests_of_each_form { transcript_of worked.cancel_requests_of_each_form_document ≡ Some worked.cancel_requests_of_each_form_transcript }
    ensures cancel_that_is_rejected { transcript_of worked.cancel_that_is_rejected_document ≡ Some worked.cancel_that_is_rejected_transcript }
    ensures cancel_that_meets_a_success { transcript_of worked.cancel_that_meets_a_success_document ≡ Some worked.cancel_that_meets_a_success_transcript }
    ensures cancel_up_to_a_stamp { transcript_of worked.cancel_up_to_a_stamp_document ≡ Some worked.cancel_up_to_a_stamp_transcript }
    ensures cancel_up_to_a_stamp_that_is_rejected { transcript_of worked.cancel_up_to_a_stamp_that_is_rejected_document ≡ Some worked.cancel_up_to_a_stamp_that_is_rejected_transcript }
    ensures canceled_that_nobody_asked_for { transcript_of worked.canceled_that_nobody_asked_for_document ≡ Some worked.canceled_that_nobody_asked_for_transcript }
    ensures client { transcript_of worked.client_document ≡ Some worked.client_transcript }
    ensures client_that_cancels_its_goals { transcript_of worked.client_that_cancels_its_goals_document ≡ Some worked.client_that_cancels_its_goals_transcript }
    ensures deferred_goal_that_is_executed { transcript_of worked.deferred_goal_that_is_executed_document ≡ Some worked.deferred_goal_that_is_executed_transcript }
    ensures eleven_messages_without_a_depth { transcript_of worked.eleven_messages_without_a_depth_document ≡ Some worked.eleven_messages_without_a_depth_transcript }
    ensures expiry_before_what_is_fed { transcript_of worked.expiry_before_what_is_fed_document ≡ Some worked.expiry_before_what_is_fed_transcript }
    ensures feedback_and_a_result { transcript_of worked.feedback_and_a_result_document ≡ Some worked.feedback_and_a_result_transcript }
    ensures feedback_beyond_a_depth_of_1 { transcript_of worked.feedback_beyond_a_depth_of_1_document ≡ Some worked.feedback_beyond_a_depth_of_1_transcript }
    ensures four_groups_of_two_timers { transcript_of worked.four_groups_of_two_timers_document ≡ Some worked.four_groups_of_two_timers_transcript }
    ensures goal_requests_beyond_a_depth_of_1 { transcript_of worked.goal_requests_beyond_a_depth_of_1_document ≡ Some worked.goal_requests_beyond_a_depth_of_1_transcript }
    ensures goal_that_ends_as_canceled { transcript_of worked.goal_that_ends_as_canceled_document ≡ Some worked.goal_that_ends_as_canceled_transcript }
    ensures goal_that_its_handler_rejects { transcript_of worked.goal_that_its_handler_rejects_document ≡ Some worked.goal_that_its_handler_rejects_transcript }
    ensures goals_that_expire_together { transcript_of worked.goals_that_expire_together_document ≡ Some worked.goals_that_expire_together_transcript }
    ensures groups_of_both_kinds { transcript_of worked.groups_of_both_kinds_document ≡ Some worked.groups_of_both_kinds_transcript }
    ensures identifier_that_is_accepted_anew { transcript_of worked.identifier_that_is_accepted_anew_document ≡ Some worked.identifier_that_is_accepted_anew_transcript }
    ensures identifier_that_is_held { transcript_of worked.identifier_that_is_held_document ≡ Some worked.identifier_that_is_held_transcript }
    ensures lanes_of_three_groups { transcript_of worked.lanes_of_three_groups_document ≡ Some worked.lanes_of_three_groups_transcript }
    ensures many_goals_that_expire_together { transcript_of worked.many_goals_that_expire_together_document ≡ Some worked.many_goals_that_expire_together_transcript }
    ensures result_that_expires_before_it_is_asked_for { transcript_of worked.result_that_expires_before_it_is_asked_for_document ≡ Some worked.result_that_expires_before_it_is_asked_for_transcript }
    ensures result_that_is_told_before_it_expires { transcript_of worked.result_that_is_told_before_it_expires_document ≡ Some worked.result_that_is_told_before_it_expires_transcript }
    ensures results_beyond_a_depth_of_1 { transcript_of worked.results_beyond_a_depth_of_1_document ≡ Some worked.results_beyond_a_depth_of_1_transcript }
    ensures server { transcript_of worked.server_document ≡ Some worked.server_transcript }
    ensures service { transcript_of worked.service_document ≡ Some worked.service_transcript }
    ensures sixty_five_polls_in_a_round { transcript_of worked.sixty_five_polls_in_a_round_document ≡ Some worked.sixty_five_polls_in_a_round_transcript }
    ensures subscription { transcript_of worked.subscription_document ≡ Some worked.subscription_transcript }
    ensures three_exclusive_groups { transcript_of worked.three_exclusive_groups_document ≡ Some worked.three_exclusive_groups_transcript }
    ensures three_messages_into_a_depth_of_2 { transcript_of worked.three_messages_into_a_depth_of_2_document ≡ Some worked.three_messages_into_a_depth_of_2_transcript }
    ensures timers_at_their_times { transcript_of worked.timers_at_their_times_document ≡ Some worked.timers_at_their_times_transcript }
    ensures topic { transcript_of worked.topic_document ≡ Some worked.topic_transcript }
    ensures two_calls_into_a_depth_of_1 { transcript_of worked.two_calls_into_a_depth_of_1_document ≡ Some worked.two_calls_into_a_depth_of_1_transcript }
    ensures two_clients_of_a_server { transcript_of worked.two_clients_of_a_server_document ≡ Some worked.two_clients_of_a_server_transcript }
    ensures two_exclusive_groups { transcript_of worked.two_exclusive_groups_document ≡ Some worked.two_exclusive_groups_transcript }
    ensures wait_that_a_cancel_ends { transcript_of worked.wait_that_a_cancel_ends_document ≡ Some worked.wait_that_a_cancel_ends_transcript }
    ensures yield_at_moments_alike { transcript_of worked.yield_at_moments_alike_document ≡ Some worked.yield_at_moments_alike_transcript }
{}
