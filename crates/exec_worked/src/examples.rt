//! Worked cases: examples.
ghost use Rattle.std.specs.Prelude.{◌≡◌, Some};
ghost use Rattle.exec_worked.specs.Answer.{transcript_of};
ghost use Rattle.exec_worked.specs.Examples as worked;

/// - `action`: `examples/action.json` has this transcript.
/// - `cancel`: `examples/cancel.json` has this transcript.
/// - `cancel_after_success`: `examples/cancel_after_success.json` has this transcript.
/// - `cancel_and_success`: `examples/cancel_and_success.json` has this transcript.
/// - `cancel_by_identifier`: `examples/cancel_by_identifier.json` has this transcript.
/// - `cancel_by_stamp`: `examples/cancel_by_stamp.json` has this transcript.
/// - `cancel_while_waiting`: `examples/cancel_while_waiting.json` has this transcript.
/// - `deferred`: `examples/deferred.json` has this transcript.
/// - `empty`: `examples/empty.json` has this transcript.
/// - `groups`: `examples/groups.json` has this transcript.
/// - `keep_last`: `examples/keep_last.json` has this transcript.
/// - `navigation`: `examples/navigation.json` has this transcript.
/// - `repeated_moment`: `examples/repeated_moment.json` has this transcript.
/// - `result_expires`: `examples/result_expires.json` has this transcript.
/// - `robot`: `examples/robot.json` has this transcript.
/// - `service`: `examples/service.json` has this transcript.
/// - `stop_by_arrival`: `examples/stop_by_arrival.json` has this transcript.
/// - `stop_by_kind`: `examples/stop_by_kind.json` has this transcript.
/// - `timer`: `examples/timer.json` has this transcript.
/// - `topic`: `examples/topic.json` has this transcript.
/// - `topic_chain`: `examples/topic_chain.json` has this transcript.
/// - `two_clients`: `examples/two_clients.json` has this transcript.
/// - `two_timers`: `examples/two_timers.json` has this transcript.
/// - `warehouse`: `examples/warehouse.json` has this transcript.
/// - `wrapping`: `examples/wrapping.json` has this transcript.
pub fn examples_cases()
    ensures action { transcript_of worked.action_document ≡ Some worked.action_transcript }
    ensures cancel { transcript_of worked.cancel_document ≡ Some worked.cancel_transcript }
    ensures cancel_after_success { transcript_of worked.cancel_after_success_document ≡ Some worked.cancel_after_success_transcript }
    ensures cancel_and_success { transcript_of worked.cancel_and_success_document ≡ Some worked.cancel_and_success_transcript }
    ensures cancel_by_identifier { transcript_of worked.cancel_by_identifier_document ≡ Some worked.cancel_by_identifier_transcript }
    ensures cancel_by_stamp { transcript_of worked.cancel_by_stamp_document ≡ Some worked.cancel_by_stamp_transcript }
    ensures cancel_while_waiting { transcript_of worked.cancel_while_waiting_document ≡ Some worked.cancel_while_waiting_transcript }
    ensures deferred { transcript_of worked.deferred_document ≡ Some worked.deferred_transcript }
    ensures empty { transcript_of worked.empty_document ≡ Some worked.empty_transcript }
    ensures groups { transcript_of worked.groups_document ≡ Some worked.groups_transcript }
    ensures keep_last { transcript_of worked.keep_last_document ≡ Some worked.keep_last_transcript }
    ensures navigation { transcript_of worked.navigation_document ≡ Some worked.navigation_transcript }
    ensures repeated_moment { transcript_of worked.repeated_moment_document ≡ Some worked.repeated_moment_transcript }
    ensures result_expires { transcript_of worked.result_expires_document ≡ Some worked.result_expires_transcript }
    ensures robot { transcript_of worked.robot_document ≡ Some worked.robot_transcript }
    ensures service { transcript_of worked.service_document ≡ Some worked.service_transcript }
    ensures stop_by_arrival { transcript_of worked.stop_by_arrival_document ≡ Some worked.stop_by_arrival_transcript }
    ensures stop_by_kind { transcript_of worked.stop_by_kind_document ≡ Some worked.stop_by_kind_transcript }
    ensures timer { transcript_of worked.timer_document ≡ Some worked.timer_transcript }
    ensures topic { transcript_of worked.topic_document ≡ Some worked.topic_transcript }
    ensures topic_chain { transcript_of worked.topic_chain_document ≡ Some worked.topic_chain_transcript }
    ensures two_clients { transcript_of worked.two_clients_document ≡ Some worked.two_clients_transcript }
    ensures two_timers { transcript_of worked.two_timers_document ≡ Some worked.two_timers_transcript }
    ensures warehouse { transcript_of worked.warehouse_document ≡ Some worked.warehouse_transcript }
    ensures wrapping { transcript_of worked.wrapping_document ≡ Some worked.wrapping_transcript }
{}
